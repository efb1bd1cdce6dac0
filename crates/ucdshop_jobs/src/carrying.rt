//! Carrying out the commands of a script.

ghost use Rattle.std.specs.Prelude.{◌≡◌, ℕ, ◌∷◌, ◌+◌, ◌<◌, ◌^◌, [], fold, length, IfOk, IfErr, OnOk};
ghost use Rattle.std.specs.List.{All};
ghost use Rattle.script_lines.specs.Groups.{AreWellFormed, IsWellFormed};
ghost use Rattle.script_lines.specs.declared.command.What.TheVariants.{Group};
ghost use Rattle.ucdshop_jobs.specs.Carrying.{counted, session_of};
ghost use Rattle.ucdshop_jobs.specs.Counting.{CommandCounts, SessionCounts};
ghost use Rattle.set_questions.specs.QuestionCache.{IsKept};
ghost use Rattle.ucdshop_jobs.specs.Session.{session, started, step, step_by};

use crate::answering::answer_adjacent_questions;
use crate::carried::Carried;
use edit_session::{ApplyStop, Bench};
use release_rows::Op;
use script_lines::{Command, What};
use set_questions::QuestionCache;
use std::alloc::Global;
use std::sync::ledger::Ledger;
use ucd_model::{Memory, Steps};

/// Carries out the commands of a script, in order, on the release of a bench. A question is answered on the rows as the
/// commands before it leave them. The counter of steps rises by at most the number of code points that depend on each group.
///
/// - `Memory`: memory ran out.
pub fn carry_out<L: Ledger>(
    alloc: Global,
    bench: &mut Bench,
    commands: &[Command],
    steps: &mut Steps<L>,
) -> Result<Carried, Memory>
    requires { All IsWellFormed commands.now }
    ensures session { IfOk result
        (λ carried. session_of bench.new carried ≡ session bench.old.current commands.now) }
    ensures counts { SessionCounts (started bench.old.current) commands.now steps.old steps.new }
    ensures steps { commands.now ≡ [] → steps.new ≡ steps.old }
{
    let mut kept = QuestionCache::nothing(alloc);
    let carried = carry_all(alloc, bench, &mut kept, commands, steps);
    drop(kept);
    carried
}

/// Carries out the commands of a script, in order, on the release of a bench. A question is answered on the rows as the
/// commands before it leave them. `kept` is what is kept for questions. The counter of steps rises by at most the number of
/// code points that depend on each group.
///
/// - `Memory`: memory ran out.
fn carry_all<L: Ledger>(
    alloc: Global,
    bench: &mut Bench,
    kept: &mut QuestionCache,
    commands: &[Command],
    steps: &mut Steps<L>,
) -> Result<Carried, Memory>
    requires kept { IsKept kept.old bench.old.current }
    requires ready { All IsWellFormed commands.now }
    ensures session { IfOk result
        (λ carried. session_of bench.new carried ≡ session bench.old.current commands.now) }
    ensures counts { SessionCounts (started bench.old.current) commands.now steps.old steps.new }
    ensures steps { commands.now ≡ [] → steps.new ≡ steps.old }
{
    let mut carried = Carried::new(alloc);
    let mut rest = commands;
    'commands: while !rest.is_empty() {
        rest = carry_first_commands(alloc, bench, kept, rest, &mut carried, steps)?;
    }
    Ok(carried)
}

/// Carries out the first command, and if it is a question, all questions that stand directly behind it. It returns the
/// commands that are left.
fn carry_first_commands<'c, L: Ledger>(
    alloc: Global,
    bench: &mut Bench,
    kept: &mut QuestionCache,
    commands: &'c [Command],
    carried: &mut Carried,
    steps: &mut Steps<L>,
) -> Result<&'c [Command], Memory>
    requires some { 0 < length commands.now }
    requires kept { IsKept kept.old bench.old.current }
    requires ready { All IsWellFormed commands.now }
    requires room { counted carried.old + length commands.now < 2 ^ 64 }
    ensures kept { IsKept kept.new bench.new.current }
    ensures session { IfOk result
        (λ rest. fold step (session_of bench.new carried.new) rest.now
        ≡ fold step (session_of bench.old carried.old) commands.now) }
    ensures counts { (n : ℕ) → IfOk result
        (λ rest. SessionCounts (session_of bench.new carried.new) rest.now steps.new n
        → SessionCounts (session_of bench.old carried.old) commands.now steps.old n) }
    ensures stopped { IfErr result
        (λ _. SessionCounts (session_of bench.old carried.old) commands.now steps.old
        steps.new) }
    ensures counted { IfOk result
        (λ rest. counted carried.new + length rest.now
        ≡ counted carried.old + length commands.now) }
    ensures shorter { IfOk result (λ rest. length rest.now < length commands.now) }
    ensures ready { IfOk result (λ rest. All IsWellFormed rest.now) }
{
    let (command, behind) = first_command(commands);
    match &command.what {
        What::Group(ops) => {
            carry_group(
                alloc,
                bench,
                kept,
                command.line,
                ops.as_slice(),
                carried,
                steps,
            )?;
            Ok(behind)
        }
        What::Question(text) => {
            answer_adjacent_questions(
                alloc,
                bench,
                kept,
                command.line,
                text.as_slice(),
                behind,
                carried,
            )
        }
    }
}

/// The first command, and those behind it.
fn first_command(commands: &[Command]) -> (&Command, &[Command])
    requires { 0 < length commands.now }
    ensures { commands.now ≡ result.0.now ∷ result.1.now }
{
    (&commands[0], &commands[1..])
}

/// Carries out a group, and notes for what is kept which files it edits, and which records it changes.
fn carry_group<L: Ledger>(
    alloc: Global,
    bench: &mut Bench,
    kept: &mut QuestionCache,
    line: u32,
    ops: &[Op],
    carried: &mut Carried,
    steps: &mut Steps<L>,
) -> Result<(), Memory>
    requires kept { IsKept kept.old bench.old.current }
    requires ready { AreWellFormed ops.now }
    requires room { counted carried.old + 1 < 2 ^ 64 }
    ensures kept { IsKept kept.new bench.new.current }
    ensures session { OnOk result
        (session_of bench.new carried.new
        ≡ step_by (session_of bench.old carried.old) line (Group ops.now)) }
    ensures counts { CommandCounts bench.old.current (Group ops.now) steps.old steps.new }
    ensures counted { OnOk result (counted carried.new ≡ counted carried.old + 1) }
{
    match bench.apply(alloc, ops, steps) {
        Ok(accepted) => {
            kept.note(alloc, ops, accepted.changed.as_slice());
            carried.accept(alloc, line, accepted.changed.as_slice().len())
        }
        Err(ApplyStop::Refused(why)) => carried.refuse(alloc, line, why),
        Err(ApplyStop::Memory) => Err(Memory),
    }
}
