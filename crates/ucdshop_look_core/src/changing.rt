//! Telling which records the groups of a script change, and how.

ghost use Rattle.std.specs.Prelude.{◌≡◌, ◌++◌, IfOk, OnOk, codes};
ghost use Rattle.std.specs.Fmt.{decimal};
ghost use Rattle.std.specs.List.{All, flat_map, list_any};
ghost use Rattle.edit_session.specs.Benches.{bench_record};
ghost use Rattle.range_table.specs.Values.{SameValues};
ghost use Rattle.record_lines.specs.Earlier.{earlier_record, updated};
ghost use Rattle.run_endings.specs.Planning.{HasPlan};
ghost use Rattle.script_lines.specs.Groups.{AreWellFormed, IsWellFormed};
ghost use Rattle.script_lines.specs.declared.command.What.TheVariants.{Group};
ghost use Rattle.set_answers.specs.SetTexts.{members_text};
ghost use Rattle.ucd_model.specs.DerivedText.{line_end};
ghost use Rattle.ucdshop_jobs.specs.Judging.{inputs_of};
ghost use Rattle.ucdshop_look_core.specs.Changes.{changes_ending, files_after, points_section, stage_on, stage_refused, stages, stages_ending, told, what_differs, what_leaves, what_refused, what_told};
ghost use Rattle.ucdshop_look_core.specs.PointSpans.{AreInOrder, point_spans};

use crate::spanning::point_spans;
use edit_session::{ApplyStop, Bench};
use record_lines::laws::following_catches_up;
use record_lines::{EarlierRecords, put_changes};
use release_rows::Op;
use run_endings::Plan;
use run_inputs::put_refused;
use script_lines::{Command, Commands, What};
use set_questions::put_members;
use std::alloc::Global;
use std::sync::ledger::Ledger;
use ucd_lines::put_decimal;
use ucd_model::{Memory, Point, Records, Steps, Text};
use ucdshop_jobs::Inputs;

/// Carries out the groups of a script, and makes what `changes` tells of them. Questions are not answered.
///
/// - `Memory`: memory ran out.
pub fn changes_plan<L: Ledger>(
    alloc: Global,
    inputs: Inputs,
    steps: &mut Steps<L>,
) -> Result<Plan, Memory>
    requires { All IsWellFormed inputs.commands }
    ensures { IfOk result (HasPlan (changes_ending (inputs_of inputs))) }
{
    let Inputs {
        bench,
        commands,
        ..
    } = inputs;
    plan_owning_bench(alloc, bench, commands, steps)
}

/// Carries out the groups among the commands on a bench, and makes what `changes` tells of them. Questions are not answered.
/// The bench and the commands are let go.
///
/// - `Memory`: memory ran out.
fn plan_owning_bench<L: Ledger>(
    alloc: Global,
    bench: Bench,
    commands: Commands,
    steps: &mut Steps<L>,
) -> Result<Plan, Memory>
    requires { All IsWellFormed commands }
    ensures { IfOk result (HasPlan (stages_ending (stages bench.current commands))) }
{
    let mut bench = bench;
    let earlier = EarlierRecords::of(alloc, &bench)?;
    plan_owning_earlier(alloc, &mut bench, earlier, commands.as_slice(), steps)
}

/// Carries out the groups among the commands on a bench, and makes what `changes` tells of them. Questions are not answered.
/// The earlier records are those of the bench, and are let go.
///
/// - `Memory`: memory ran out.
fn plan_owning_earlier<L: Ledger>(
    alloc: Global,
    bench: &mut Bench,
    earlier: EarlierRecords,
    commands: &[Command],
    steps: &mut Steps<L>,
) -> Result<Plan, Memory>
    requires ready { All IsWellFormed commands.now }
    requires earlier { SameValues (earlier_record earlier) (bench_record bench.old) }
    ensures { IfOk result (HasPlan (stages_ending (stages bench.old.current commands.now))) }
{
    let mut earlier = earlier;
    plan_following_bench(alloc, bench, &mut earlier, commands, steps)
}

/// Carries out the groups among the commands on a bench, and makes what `changes` tells of them. Questions are not answered.
/// The earlier records are those of the bench, and follow it. The text is made once, and moves into the plan.
///
/// - `Memory`: memory ran out.
fn plan_following_bench<L: Ledger>(
    alloc: Global,
    bench: &mut Bench,
    earlier: &mut EarlierRecords,
    commands: &[Command],
    steps: &mut Steps<L>,
) -> Result<Plan, Memory>
    requires ready { All IsWellFormed commands.now }
    requires earlier { SameValues (earlier_record earlier.old) (bench_record bench.old) }
    ensures { IfOk result (HasPlan (stages_ending (stages bench.old.current commands.now))) }
{
    let mut text = Text::new(alloc);
    let refused = tell_commands_or_refusals(alloc, bench, earlier, commands, &mut text, steps)?;
    Ok(Plan {
        outputs: Vec::new(alloc),
        summary: text,
        done: refused,
    })
}

/// Carries out the groups among the commands, in order, and tells each of them. It answers whether one was refused. The earlier
/// records are those of the bench, and follow it.
///
/// - `Memory`: memory ran out.
fn tell_commands_or_refusals<L: Ledger>(
    alloc: Global,
    bench: &mut Bench,
    earlier: &mut EarlierRecords,
    commands: &[Command],
    text: &mut Text,
    steps: &mut Steps<L>,
) -> Result<bool, Memory>
    requires ready { All IsWellFormed commands.now }
    requires earlier { SameValues (earlier_record earlier.old) (bench_record bench.old) }
    ensures text { OnOk result (text.new ≡ text.old
        ++ flat_map told (stages bench.old.current commands.now)) }
    ensures refused { IfOk result
        (λ refused. refused ≡ list_any stage_refused (stages bench.old.current commands.now)) }
{
    let mut refused = false;
    'commands: for command in commands {
        let here = tell_command_or_refusal(alloc, bench, earlier, command, text, steps)?;
        refused = refused || here;
    }
    Ok(refused)
}

/// Carries out a command that is a group, and tells it. It answers whether the group was refused. A question is passed over.
/// The earlier records are those of the bench, and follow it.
///
/// - `Memory`: memory ran out.
fn tell_command_or_refusal<L: Ledger>(
    alloc: Global,
    bench: &mut Bench,
    earlier: &mut EarlierRecords,
    command: &Command,
    text: &mut Text,
    steps: &mut Steps<L>,
) -> Result<bool, Memory>
    requires ready { IsWellFormed command.now }
    requires earlier { SameValues (earlier_record earlier.old) (bench_record bench.old) }
    ensures text { OnOk result (text.new ≡ text.old
        ++ told (stage_on bench.old.current command.now)) }
    ensures refused { IfOk result
        (λ refused. refused ≡ stage_refused (stage_on bench.old.current command.now)) }
    ensures files { OnOk result (bench.new.current
        ≡ files_after (stage_on bench.old.current command.now)) }
    ensures earlier { OnOk result
        (SameValues (earlier_record earlier.new) (bench_record bench.new)) }
{
    match &command.what {
        What::Group(ops) => tell_group_or_refusal(
            alloc,
            bench,
            earlier,
            command.line,
            ops.as_slice(),
            text,
            steps,
        ),
        What::Question(_) => Ok(false),
    }
}

/// Carries out the group on this line, and tells it. It answers whether the group was refused. The earlier records are those
/// of the bench, and follow it.
///
/// - `Memory`: memory ran out.
fn tell_group_or_refusal<L: Ledger>(
    alloc: Global,
    bench: &mut Bench,
    earlier: &mut EarlierRecords,
    line: u32,
    ops: &[Op],
    text: &mut Text,
    steps: &mut Steps<L>,
) -> Result<bool, Memory>
    requires ready { AreWellFormed ops.now }
    requires earlier { SameValues (earlier_record earlier.old) (bench_record bench.old) }
    ensures text { OnOk result (text.new ≡ text.old
        ++ what_told bench.old.current line (Group ops.now)) }
    ensures refused { IfOk result
        (λ refused. refused ≡ what_refused bench.old.current (Group ops.now)) }
    ensures files { OnOk result (bench.new.current
        ≡ what_leaves bench.old.current line (Group ops.now)) }
    ensures earlier { OnOk result
        (SameValues (earlier_record earlier.new) (bench_record bench.new)) }
{
    match bench.apply(alloc, ops, steps) {
        Ok(accepted) => {
            following_catches_up();
            let changed = accepted.changed.as_slice();
            tell_accepted(alloc, bench, earlier, line, changed, text)?;
            Ok(false)
        }
        Err(ApplyStop::Refused(why)) => {
            put_refused(alloc, text, line, why)?;
            Ok(true)
        }
        Err(ApplyStop::Memory) => Err(Memory),
    }
}

/// Tells a group that was accepted, and which code points it changed. The earlier records follow the bench at these.
///
/// - `Memory`: memory ran out.
fn tell_accepted(
    alloc: Global,
    bench: &Bench,
    earlier: &mut EarlierRecords,
    line: u32,
    changed: &[Point],
    text: &mut Text,
) -> Result<(), Memory>
    requires { AreInOrder changed.now }
    ensures text { OnOk result (text.new ≡ text.old
        ++ points_section line (earlier_record earlier.old)
        (bench_record bench.now) changed.now) }
    ensures earlier { OnOk result
        (SameValues (earlier_record earlier.new)
        (updated changed.now (bench_record bench.now) (earlier_record earlier.old))) }
{
    put_head(alloc, line, text)?;
    put_spans(alloc, changed, text)?;
    put_points(alloc, bench, earlier, changed, text)?;
    earlier.follow(alloc, bench, changed)
}

/// Puts `# line L`.
fn put_head(alloc: Global, line: u32, text: &mut Text) -> Result<(), Memory>
    ensures { OnOk result (text.new ≡ text.old ++ codes "# line " ++ decimal line ++ line_end) }
{
    text.append(b"# line ")?;
    put_decimal(alloc, line as usize, text)?;
    text.append(b"\n")
}

/// Puts code points as spans, with their total.
///
/// - `Memory`: memory ran out. A part of them may stand at the end of the text then.
fn put_spans(alloc: Global, points: &[Point], text: &mut Text) -> Result<(), Memory>
    requires { AreInOrder points.now }
    ensures { OnOk result (text.new ≡ text.old ++ members_text (point_spans points.now)) }
{
    let spans = point_spans(alloc, points)?;
    put_members(alloc, text, spans.as_slice())?;
    Ok(())
}

/// Puts what differs between the earlier records of code points and those of the bench.
///
/// - `Memory`: memory ran out. A part of it may stand at the end of the text then.
fn put_points(
    alloc: Global,
    bench: &Bench,
    earlier: &EarlierRecords,
    points: &[Point],
    text: &mut Text,
) -> Result<(), Memory>
    ensures { OnOk result (text.new ≡ text.old
        ++ flat_map (what_differs (earlier_record earlier.now) (bench_record bench.now))
        points.now) }
{
    'points: for point in points {
        put_point(alloc, bench, earlier, *point, text)?;
    }
    Ok(())
}

/// Puts what differs between the earlier record of a code point and that of the bench.
///
/// - `Memory`: memory ran out. A part of it may stand at the end of the text then.
fn put_point(
    alloc: Global,
    bench: &Bench,
    earlier: &EarlierRecords,
    point: Point,
    text: &mut Text,
) -> Result<(), Memory>
    ensures { OnOk result (text.new ≡ text.old
        ++ what_differs (earlier_record earlier.now) (bench_record bench.now) point) }
{
    let before = earlier.record(point);
    let after = bench.record(point);
    put_changes(alloc, point, before, after, text)
}
