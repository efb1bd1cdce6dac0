//! What a run of the first program comes to, which writes nothing.

ghost use Rattle.std.specs.Prelude.{◌≡◌, ◌||◌, IfOk, List, length, nat_lt};
ghost use Rattle.std.specs.List.{All};
ghost use Rattle.std.specs.Option.{option_map};
ghost use Rattle.release_rows.specs.FileItems.{FileItem};
ghost use Rattle.script_lines.specs.Groups.{IsWellFormed};
ghost use Rattle.run_endings.specs.Planning.{HasPlan};
ghost use Rattle.ucdshop_jobs.specs.Carrying.{session_of, session_on};
ghost use Rattle.ucdshop_jobs.specs.Judging.{inputs_of};
ghost use Rattle.ucdshop_jobs.specs.Session.{session};
ghost use Rattle.ucdshop_look_core.specs.Checks.{check_ending, check_text, session_ending};

use crate::refusals::{put_broken, put_refusals};
use edit_session::Bench;
use run_endings::Plan;
use script_lines::{Command, Commands};
use stability_policies::Breaks;
use std::alloc::Global;
use std::sync::ledger::Ledger;
use ucd_model::{Memory, Steps, Text};
use ucdshop_jobs::{Carried, Inputs, RunCounts, breaks_since, carry_out, summary};

/// Carries out the commands of a script, and makes what `check` tells of them.
///
/// - `Memory`: memory ran out.
pub fn check_plan<L: Ledger>(
    alloc: Global,
    inputs: Inputs,
    steps: &mut Steps<L>,
) -> Result<Plan, Memory>
    requires { All IsWellFormed inputs.commands }
    ensures { IfOk result (HasPlan (check_ending (inputs_of inputs))) }
{
    let Inputs {
        bench,
        commands,
        earlier,
    } = inputs;
    plan_owned(alloc, bench, commands, &earlier, steps)
}

/// What `check_plan` makes. It lets the bench and the commands go, and borrows the earlier bench.
fn plan_owned<L: Ledger>(
    alloc: Global,
    bench: Bench,
    commands: Commands,
    earlier: &Option<Bench>,
    steps: &mut Steps<L>,
) -> Result<Plan, Memory>
    requires { All IsWellFormed commands }
    ensures { IfOk result (HasPlan
        (session_ending (option_map (λ before. before.current) earlier.now)
        (session bench.current commands))) }
{
    let mut bench = bench;
    plan_borrowed(alloc, &mut bench, commands.as_slice(), earlier, steps)
}

/// What `check_plan` makes, and it borrows all that was read.
fn plan_borrowed<L: Ledger>(
    alloc: Global,
    bench: &mut Bench,
    commands: &[Command],
    earlier: &Option<Bench>,
    steps: &mut Steps<L>,
) -> Result<Plan, Memory>
    requires { All IsWellFormed commands.now }
    ensures { IfOk result (HasPlan
        (session_ending (option_map (λ before. before.current) earlier.now)
        (session bench.old.current commands.now))) }
{
    let carried = carry_out(alloc, bench, commands, steps)?;
    plan_of(alloc, bench, &carried, earlier)
}

/// What is printed once the commands are carried out on the bench.
fn plan_of(
    alloc: Global,
    bench: &Bench,
    carried: &Carried,
    earlier: &Option<Bench>,
) -> Result<Plan, Memory>
    ensures { IfOk result (HasPlan
        (session_ending (option_map (λ before. before.current) earlier.now)
        (session_of bench.now carried.now))) }
{
    let breaks = breaks_since(alloc, earlier, bench)?;
    let text = text_of_check(alloc, carried, &breaks)?;
    Ok(Plan {
        outputs: Vec::new(alloc),
        summary: text,
        done: has_refusal_or_break(carried, &breaks),
    })
}

/// Whether a command was refused or a policy is broken.
fn has_refusal_or_break(carried: &Carried, breaks: &Breaks) -> bool
    ensures { result ≡ (nat_lt 0 carried.now.refused || nat_lt 0 (length breaks.now)) }
{
    carried.refused > 0 || breaks.len() > 0
}

/// The text that tells what carrying out commands came to, and what is broken: the summary of the run, a line for each refused
/// command, and one for each broken policy.
fn text_of_check(alloc: Global, carried: &Carried, breaks: &Breaks) -> Result<Text, Memory>
    ensures { IfOk result (λ text. (files : List (List FileItem))
        → text ≡ check_text (session_on files carried.now) breaks.now) }
{
    let counts = RunCounts {
        accepted: carried.accepted,
        refused: carried.refused,
        answered: carried.answered,
        broken: breaks.len(),
    };
    let mut text = summary(alloc, counts)?;
    put_refusals(carried.log.as_slice(), &mut text)?;
    put_broken(alloc, breaks, &mut text)?;
    Ok(text)
}
