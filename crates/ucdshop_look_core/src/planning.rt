//! All that a run does before it tells.

ghost use Rattle.std.specs.Prelude.{◌≡◌, ◌≤◌, IfOk, length};
ghost use Rattle.run_endings.specs.Endings.{Refuses, Sees};
ghost use Rattle.run_endings.specs.Planning.{IsPlanOf, OnRefused, OnlyRead, PlansAs, UnreadAs};
ghost use Rattle.run_endings.specs.Promises.{shelf_seen};
ghost use Rattle.run_endings.specs.Reading.{IsRead};
ghost use Rattle.run_inputs.specs.Held.{source_held};
ghost use Rattle.run_inputs.specs.Refusals.{folder_verdict};
ghost use Rattle.ucdshop_jobs.specs.JobWords.{job_of as run_of};
ghost use Rattle.ucdshop_jobs.specs.Run.{inputs_verdict};
ghost use Rattle.ucdshop_look_core.specs.Answers.{ask_ending};
ghost use Rattle.ucdshop_look_core.specs.Changes.{changes_ending};
ghost use Rattle.ucdshop_look_core.specs.Checks.{check_ending};
ghost use Rattle.ucdshop_look_core.specs.Commands.{job_of};
ghost use Rattle.ucdshop_look_core.specs.Jobs.{needed};
ghost use Rattle.ucdshop_look_core.specs.Points.{points_in};
ghost use Rattle.ucdshop_look_core.specs.Run.{expected_of, finished};
ghost use Rattle.ucdshop_look_core.specs.Shown.{show_ending};

use crate::answering::answers_plan;
use crate::changing::changes_plan;
use crate::checking::check_plan;
use crate::command::Command;
use crate::showing::shown_plan;
use run_endings::{Plan, Stop, read_inputs};
use run_inputs::{open_folder, source_paths};
use shelf_io::Shelf;
use std::alloc::Global;
use std::sync::ledger::Ledger;
use ucd_model::{Memory, Steps, Text, Texts};
use ucdshop_jobs::{Job, judge_inputs, needed_paths};

/// Does all of a command that comes before its text is printed: all files are read before any is judged.
///
/// - `Refused(line)`: a file is absent, too long, or breaks a rule, a code point breaks a rule of a valid release, or the
///   script is refused.
/// - `ReadFailed(line)`: a file could not be read.
/// - `Memory`: memory ran out.
pub fn prepare<S: Shelf, L: Ledger>(
    alloc: Global,
    command: Command<'_>,
    shelf: &mut S,
    steps: &mut Steps<L>,
) -> Result<Plan, Stop>
    ensures planned { IfOk result
        (λ plan. Sees S.tells (S.holds shelf.old) (needed (job_of command.entry))
        (λ seen. IsPlanOf plan (expected_of (job_of command.entry) seen))) }
    ensures room { IfOk result (λ plan. length plan.outputs.items ≤ S.spare shelf.new) }
    ensures refused { OnRefused result
        (λ line. Sees S.tells (S.holds shelf.old) (needed (job_of command.entry))
        (λ seen. expected_of (job_of command.entry) seen ≡ Refuses line)) }
    ensures unread { UnreadAs result (needed (job_of command.entry))
        (shelf_seen S.Shelf shelf.old shelf.new) }
    ensures only_read { OnlyRead (shelf_seen S.Shelf shelf.old shelf.new) }
{
    let mut held = read_needed(alloc, command, shelf)?;
    held_plan(alloc, command, &mut held, steps)
}

/// What a shelf holds at the paths that a command needs.
fn read_needed<S: Shelf>(
    alloc: Global,
    command: Command<'_>,
    shelf: &mut S,
) -> Result<Vec<Option<Text>>, Stop>
    ensures read { IfOk result (λ held. IsRead S.tells (S.holds shelf.old)
        (needed (job_of command.entry)) held.items) }
    ensures refused { OnRefused result (λ _. ⊥) }
    ensures unread { UnreadAs result (needed (job_of command.entry))
        (shelf_seen S.Shelf shelf.old shelf.new) }
    ensures only_read { OnlyRead (shelf_seen S.Shelf shelf.old shelf.new) }
{
    let paths = command_paths(alloc, command)?;
    let held = read_inputs(alloc, shelf, paths.as_slice())?;
    Ok(held)
}

/// The paths that a command needs, in order.
fn command_paths(alloc: Global, command: Command<'_>) -> Result<Texts, Memory>
    ensures { IfOk result (λ paths. paths ≡ needed (job_of command.entry)) }
{
    match command {
        Command::Ask { folder, .. } => source_paths(alloc, folder),
        Command::Show { folder, .. } => source_paths(alloc, folder),
        Command::Check(job) => needed_paths(alloc, job),
        Command::Changes(job) => needed_paths(alloc, job),
    }
}

/// What a command tells, by what is held at the paths that it needs.
///
/// - `Refused(line)`: what is held is refused.
/// - `Memory`: memory ran out.
fn held_plan<L: Ledger>(
    alloc: Global,
    command: Command<'_>,
    held: &mut Vec<Option<Text>>,
    steps: &mut Steps<L>,
) -> Result<Plan, Stop>
    ensures { PlansAs result (expected_of (job_of command.entry) held.old.items) }
{
    match command {
        Command::Ask { folder, questions } => plan_ask(alloc, folder, questions, held, steps),
        Command::Show { folder, points } => plan_show(alloc, folder, points, held, steps),
        Command::Check(job) => plan_check(alloc, job, held, steps),
        Command::Changes(job) => plan_changes(alloc, job, held, steps),
    }
}

/// What `ask` tells of these questions, by what is held at the paths that it needs.
///
/// - `Refused(line)`: what is held is refused.
/// - `Memory`: memory ran out.
fn plan_ask<L: Ledger>(
    alloc: Global,
    folder: &[u8],
    questions: &[Text],
    held: &mut Vec<Option<Text>>,
    steps: &mut Steps<L>,
) -> Result<Plan, Stop>
    ensures { PlansAs result (finished (ask_ending questions.now)
        (folder_verdict folder.now (source_held held.old.items 0))) }
{
    match open_folder(alloc, folder, held, 0, steps) {
        Ok(bench) => Ok(answers_plan(alloc, bench, questions)?),
        Err(stop) => Err(stop),
    }
}

/// What `show` tells of these code points, by what is held at the paths that it needs.
///
/// - `Refused(line)`: what is held is refused.
/// - `Memory`: memory ran out.
fn plan_show<L: Ledger>(
    alloc: Global,
    folder: &[u8],
    points: &[Text],
    held: &mut Vec<Option<Text>>,
    steps: &mut Steps<L>,
) -> Result<Plan, Stop>
    ensures { PlansAs result (finished (show_ending (points_in points.now))
        (folder_verdict folder.now (source_held held.old.items 0))) }
{
    match open_folder(alloc, folder, held, 0, steps) {
        Ok(bench) => Ok(shown_plan(alloc, &bench, points)?),
        Err(stop) => Err(stop),
    }
}

/// What `check` tells, by what is held at the paths that it needs.
///
/// - `Refused(line)`: what is held is refused.
/// - `Memory`: memory ran out.
fn plan_check<L: Ledger>(
    alloc: Global,
    job: Job<'_>,
    held: &mut Vec<Option<Text>>,
    steps: &mut Steps<L>,
) -> Result<Plan, Stop>
    ensures { PlansAs result (finished check_ending
        (inputs_verdict (run_of job.entry) held.old.items)) }
{
    match judge_inputs(alloc, job, held, steps) {
        Ok(inputs) => Ok(check_plan(alloc, inputs, steps)?),
        Err(stop) => Err(stop),
    }
}

/// What `changes` tells, by what is held at the paths that it needs.
///
/// - `Refused(line)`: what is held is refused.
/// - `Memory`: memory ran out.
fn plan_changes<L: Ledger>(
    alloc: Global,
    job: Job<'_>,
    held: &mut Vec<Option<Text>>,
    steps: &mut Steps<L>,
) -> Result<Plan, Stop>
    ensures { PlansAs result (finished changes_ending
        (inputs_verdict (run_of job.entry) held.old.items)) }
{
    match judge_inputs(alloc, job, held, steps) {
        Ok(inputs) => Ok(changes_plan(alloc, inputs, steps)?),
        Err(stop) => Err(stop),
    }
}
