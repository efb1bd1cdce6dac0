//! All that a run does before it writes.

ghost use Rattle.std.specs.Prelude.{◌≡◌, ◌≤◌, [], IfOk, length};
ghost use Rattle.run_endings.specs.Endings.{Refuses, Sees};
ghost use Rattle.run_endings.specs.Planning.{IsPlanOf, OnRefused, OnlyRead, UnreadAs};
ghost use Rattle.run_endings.specs.Promises.{shelf_seen};
ghost use Rattle.ucdshop_more_core.specs.Chaining.{Follows};
ghost use Rattle.ucdshop_more_core.specs.Commands.{IsListed, job_of};
ghost use Rattle.ucdshop_more_core.specs.Order.{ComesTo, NamesPath, OnUnread};
ghost use Rattle.ucdshop_more_core.specs.Run.{Ages, Conform, Desk, Undo, expected_of, needed};

use crate::chaining::{Chained, chain_folders};
use crate::command::Command;
use crate::conform_plan::conform_plan;
use crate::desk_plan::desk_plan;
use crate::draft::read_undo_inputs;
use crate::outputs::ages_plan;
use crate::sitting::read_sitting;
use crate::trial::read_trial;
use crate::undo_plan::undo_plan;
use run_endings::{Plan, Stop, make_room};
use shelf_io::Shelf;
use std::alloc::Global;
use std::sync::ledger::Ledger;
use ucd_model::{Steps, Text};

/// Does all of a command that comes before the first write.
///
/// - `Refused(line)`: a file is absent, too long, or breaks a rule, or a code point breaks a rule of a valid release.
/// - `ReadFailed(line)`: a file could not be read.
/// - `Memory`: memory ran out.
pub fn prepare<S: Shelf, L: Ledger>(
    alloc: Global,
    command: Command<'_>,
    shelf: &mut S,
    steps: &mut Steps<L>,
) -> Result<Plan, Stop>
    requires { IsListed (job_of command) }
    ensures planned { IfOk result
        (λ plan. Sees S.tells (S.holds shelf.old) (needed (job_of command.entry))
        (λ seen. IsPlanOf plan (expected_of (job_of command.entry) seen))) }
    ensures room { IfOk result (λ plan. length plan.outputs.items ≤ S.spare shelf.new) }
    ensures refused { OnRefused result
        (λ line. Sees S.tells (S.holds shelf.old) (needed (job_of command.entry))
        (λ seen. expected_of (job_of command.entry) seen ≡ Refuses line)) }
    ensures unread { UnreadAs result (needed (job_of command.entry))
        (shelf_seen S.Shelf shelf.old shelf.new) }
    ensures in_order { OnUnread result
        (NamesPath (ComesTo (job_of command.entry) S.tells (S.holds shelf.old))
        (shelf_seen S.Shelf shelf.old shelf.new)) }
    ensures only_read { OnlyRead (shelf_seen S.Shelf shelf.old shelf.new) }
{
    let plan = plan_of(alloc, command, shelf, steps)?;
    make_room(shelf, &plan)?;
    Ok(plan)
}

/// Does all of a command that comes before the first write, but makes no room for the files.
///
/// - `Refused(line)`: a file is absent, too long, or breaks a rule, or a code point breaks a rule of a valid release.
/// - `ReadFailed(line)`: a file could not be read.
/// - `Memory`: memory ran out.
fn plan_of<S: Shelf, L: Ledger>(
    alloc: Global,
    command: Command<'_>,
    shelf: &mut S,
    steps: &mut Steps<L>,
) -> Result<Plan, Stop>
    requires { IsListed (job_of command) }
    ensures planned { IfOk result
        (λ plan. Sees S.tells (S.holds shelf.old) (needed (job_of command.entry))
        (λ seen. IsPlanOf plan (expected_of (job_of command.entry) seen))) }
    ensures refused { OnRefused result
        (λ line. Sees S.tells (S.holds shelf.old) (needed (job_of command.entry))
        (λ seen. expected_of (job_of command.entry) seen ≡ Refuses line)) }
    ensures unread { UnreadAs result (needed (job_of command.entry))
        (shelf_seen S.Shelf shelf.old shelf.new) }
    ensures in_order { OnUnread result
        (NamesPath (ComesTo (job_of command.entry) S.tells (S.holds shelf.old))
        (shelf_seen S.Shelf shelf.old shelf.new)) }
    ensures only_read { OnlyRead (shelf_seen S.Shelf shelf.old shelf.new) }
{
    match command {
        Command::Desk {
            input,
            events,
            output,
        } => plan_desk(alloc, input, events, output, shelf, steps),
        Command::Undo {
            input,
            script,
            output,
            depth,
        } => plan_undo(alloc, input, script, output, depth, shelf, steps),
        Command::Conform {
            input,
            tests,
            output,
        } => plan_conform(alloc, input, tests, output, shelf, steps),
        Command::Ages { output, folders } => plan_ages(alloc, output, folders, shelf, steps),
    }
}

/// Does all of `desk` that comes before the first write, but makes no room for the files.
///
/// - `Refused(line)`: a file is absent, too long, or breaks a rule, or a code point breaks a rule of a valid release.
/// - `ReadFailed(line)`: a file could not be read.
/// - `Memory`: memory ran out.
fn plan_desk<S: Shelf, L: Ledger>(
    alloc: Global,
    input: &[u8],
    events: &[u8],
    output: &[u8],
    shelf: &mut S,
    steps: &mut Steps<L>,
) -> Result<Plan, Stop>
    ensures planned { IfOk result
        (λ plan. Sees S.tells (S.holds shelf.old)
        (needed (Desk input.now events.now output.now))
        (λ seen. IsPlanOf plan (expected_of (Desk input.now events.now output.now) seen))) }
    ensures refused { OnRefused result
        (λ line. Sees S.tells (S.holds shelf.old)
        (needed (Desk input.now events.now output.now))
        (λ seen. expected_of (Desk input.now events.now output.now) seen ≡ Refuses line)) }
    ensures unread { UnreadAs result (needed (Desk input.now events.now output.now))
        (shelf_seen S.Shelf shelf.old shelf.new) }
    ensures in_order { OnUnread result
        (NamesPath (ComesTo (Desk input.now events.now output.now) S.tells (S.holds shelf.old))
        (shelf_seen S.Shelf shelf.old shelf.new)) }
    ensures only_read { OnlyRead (shelf_seen S.Shelf shelf.old shelf.new) }
{
    match read_sitting(alloc, input, events, shelf, steps) {
        Ok(sitting) => Ok(desk_plan(alloc, output, sitting, steps)?),
        Err(stop) => Err(stop),
    }
}

/// Does all of `undo` that comes before the first write, but makes no room for the files.
///
/// - `Refused(line)`: a file is absent, too long, or breaks a rule, or a code point breaks a rule of a valid release.
/// - `ReadFailed(line)`: a file could not be read.
/// - `Memory`: memory ran out.
fn plan_undo<S: Shelf, L: Ledger>(
    alloc: Global,
    input: &[u8],
    script: &[u8],
    output: &[u8],
    depth: u32,
    shelf: &mut S,
    steps: &mut Steps<L>,
) -> Result<Plan, Stop>
    requires some { 1 ≤ depth }
    requires few { depth ≤ 1024 }
    ensures planned { IfOk result
        (λ plan. Sees S.tells (S.holds shelf.old)
        (needed (Undo input.now script.now output.now depth))
        (λ seen. IsPlanOf plan
        (expected_of (Undo input.now script.now output.now depth) seen))) }
    ensures refused { OnRefused result
        (λ line. Sees S.tells (S.holds shelf.old)
        (needed (Undo input.now script.now output.now depth))
        (λ seen. expected_of (Undo input.now script.now output.now depth) seen
        ≡ Refuses line)) }
    ensures unread { UnreadAs result (needed (Undo input.now script.now output.now depth))
        (shelf_seen S.Shelf shelf.old shelf.new) }
    ensures in_order { OnUnread result
        (NamesPath (ComesTo (Undo input.now script.now output.now depth) S.tells
        (S.holds shelf.old)) (shelf_seen S.Shelf shelf.old shelf.new)) }
    ensures only_read { OnlyRead (shelf_seen S.Shelf shelf.old shelf.new) }
{
    match read_undo_inputs(alloc, input, script, shelf, steps) {
        Ok(drafted) => Ok(undo_plan(alloc, output, drafted, depth, steps)?),
        Err(stop) => Err(stop),
    }
}

/// Does all of `conform` that comes before the first write, but makes no room for the files.
///
/// - `Refused(line)`: a file is absent, too long, or breaks a rule, or a code point breaks a rule of a valid release.
/// - `ReadFailed(line)`: a file could not be read.
/// - `Memory`: memory ran out.
fn plan_conform<S: Shelf, L: Ledger>(
    alloc: Global,
    input: &[u8],
    tests: &[u8],
    output: &[u8],
    shelf: &mut S,
    steps: &mut Steps<L>,
) -> Result<Plan, Stop>
    ensures planned { IfOk result
        (λ plan. Sees S.tells (S.holds shelf.old)
        (needed (Conform input.now tests.now output.now))
        (λ seen. IsPlanOf plan (expected_of (Conform input.now tests.now output.now) seen))) }
    ensures refused { OnRefused result
        (λ line. Sees S.tells (S.holds shelf.old)
        (needed (Conform input.now tests.now output.now))
        (λ seen. expected_of (Conform input.now tests.now output.now) seen ≡ Refuses line)) }
    ensures unread { UnreadAs result (needed (Conform input.now tests.now output.now))
        (shelf_seen S.Shelf shelf.old shelf.new) }
    ensures in_order { OnUnread result
        (NamesPath (ComesTo (Conform input.now tests.now output.now) S.tells
        (S.holds shelf.old)) (shelf_seen S.Shelf shelf.old shelf.new)) }
    ensures only_read { OnlyRead (shelf_seen S.Shelf shelf.old shelf.new) }
{
    match read_trial(alloc, input, tests, shelf, steps) {
        Ok(trial) => Ok(conform_plan(alloc, output, &trial)?),
        Err(stop) => Err(stop),
    }
}

/// Does all of `ages` that comes before the first write, but makes no room for the files.
///
/// - `Refused(line)`: a file is absent, too long, or breaks a rule, or a code point breaks a rule of a valid release.
/// - `ReadFailed(line)`: a file could not be read.
/// - `Memory`: memory ran out.
fn plan_ages<S: Shelf, L: Ledger>(
    alloc: Global,
    output: &[u8],
    folders: &[Text],
    shelf: &mut S,
    steps: &mut Steps<L>,
) -> Result<Plan, Stop>
    requires few { length folders.now ≤ 16 }
    ensures planned { IfOk result
        (λ plan. Sees S.tells (S.holds shelf.old) (needed (Ages output.now folders.now))
        (λ seen. IsPlanOf plan (expected_of (Ages output.now folders.now) seen))) }
    ensures refused { OnRefused result
        (λ line. Sees S.tells (S.holds shelf.old) (needed (Ages output.now folders.now))
        (λ seen. expected_of (Ages output.now folders.now) seen ≡ Refuses line)) }
    ensures unread { UnreadAs result (needed (Ages output.now folders.now))
        (shelf_seen S.Shelf shelf.old shelf.new) }
    ensures in_order { OnUnread result
        (NamesPath (ComesTo (Ages output.now folders.now) S.tells (S.holds shelf.old))
        (shelf_seen S.Shelf shelf.old shelf.new)) }
    ensures only_read { OnlyRead (shelf_seen S.Shelf shelf.old shelf.new) }
{
    let mut chained = Chained::new(alloc)?;
    plan_chained(alloc, output, folders, shelf, steps, &mut chained)
}

/// Does all of `ages` that comes before the first write, but makes no room for the files. The releases are chained in `chained`.
///
/// - `Refused(line)`: a file is absent, too long, or breaks a rule, or a code point breaks a rule of a valid release.
/// - `ReadFailed(line)`: a file could not be read.
/// - `Memory`: memory ran out.
fn plan_chained<S: Shelf, L: Ledger>(
    alloc: Global,
    output: &[u8],
    folders: &[Text],
    shelf: &mut S,
    steps: &mut Steps<L>,
    chained: &mut Chained,
) -> Result<Plan, Stop>
    requires few { length folders.now ≤ 16 }
    requires none { Follows chained.old [] }
    ensures planned { IfOk result
        (λ plan. Sees S.tells (S.holds shelf.old) (needed (Ages output.now folders.now))
        (λ seen. IsPlanOf plan (expected_of (Ages output.now folders.now) seen))) }
    ensures refused { OnRefused result
        (λ line. Sees S.tells (S.holds shelf.old) (needed (Ages output.now folders.now))
        (λ seen. expected_of (Ages output.now folders.now) seen ≡ Refuses line)) }
    ensures unread { UnreadAs result (needed (Ages output.now folders.now))
        (shelf_seen S.Shelf shelf.old shelf.new) }
    ensures in_order { OnUnread result
        (NamesPath (ComesTo (Ages output.now folders.now) S.tells (S.holds shelf.old))
        (shelf_seen S.Shelf shelf.old shelf.new)) }
    ensures only_read { OnlyRead (shelf_seen S.Shelf shelf.old shelf.new) }
{
    chain_folders(alloc, folders, shelf, steps, chained)?;
    Ok(ages_plan(alloc, output, chained)?)
}
