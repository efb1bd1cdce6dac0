//! The part of a group of operations that can fail.

ghost use Rattle.std.specs.Prelude.{◌≡◌, ℕ, ◌≤◌, ◌++◌, length, IfOk, OnOk, if◌then◌else◌};
ghost use Rattle.std.specs.List.{All};
ghost use Rattle.code_facts.specs.Locality.{gives_facts};
ghost use Rattle.release_rows.specs.Operations.{IsOp, op_file};
ghost use Rattle.ucd_facts.specs.Facts.{Facts};
ghost use Rattle.edit_session.specs.Benches.{HasNothingPrepared, bench_facts};
ghost use Rattle.edit_session.specs.Derivations.{IsNext, IsNow, IsStill};
ghost use Rattle.edit_session.specs.Standing.{IsBench};
ghost use Rattle.edit_session.specs.Groups.{AnswersAs, AppliesAs, CountsAs, HasTouched, after_op, after_ops, changed, files_facts, group_answer, group_limit};

use crate::accepted::Accepted;
use crate::apply_stop::{ApplyStop, Refused};
use crate::derivation::Derivation;
use code_facts::gives_facts;
use code_facts::laws::{facts_stay, others_give_none};
use release_rows::{Op, OpStop, Release, rows_stay};
use std::alloc::Global;
use std::sync::ledger::Ledger;
use ucd_model::{Memory, Points, Spans, Steps};

/// Carries out the operations on a release and on what is derived from it, or leaves both as they are.
///
/// - `Refused(why)`: an operation or the rows after all break a rule.
/// - `Memory`: memory ran out.
pub fn apply_group<L: Ledger>(
    alloc: Global,
    release: &mut Release,
    derivation: &mut Derivation,
    group: &[Op],
    steps: &mut Steps<L>,
) -> Result<Accepted, ApplyStop>
    requires operations { All IsOp group.now }
    requires few { length group.now ≤ group_limit }
    requires before { IsBench release.old derivation.old }
    ensures after { IsBench release.new derivation.new }
    ensures answer { AppliesAs result
        (group_answer release.old.current group.now) release.old release.new }
    ensures counted { CountsAs (after_ops release.old.current 0 group.now)
        (bench_facts release.old) steps.old steps.new }
{
    derivation.sweep();
    match prepare_group(alloc, release, derivation, group, steps) {
        Ok(changed) => {
            release.commit();
            derivation.commit();
            Ok(Accepted { changed })
        }
        Err(stop) => {
            release.discard();
            derivation.discard();
            Err(stop)
        }
    }
}

/// Carries out the operations on what is prepared, and prepares what their rows give. It answers the code points whose
/// records differ, ascending. It is the part of a group that can fail.
pub fn prepare_group<L: Ledger>(
    alloc: Global,
    release: &mut Release,
    derivation: &mut Derivation,
    group: &[Op],
    steps: &mut Steps<L>,
) -> Result<Points, ApplyStop>
    requires operations { All IsOp group.now }
    requires few { length group.now ≤ group_limit }
    requires still { HasNothingPrepared release.old }
    requires now { IsNow (files_facts release.old.current) derivation.old }
    requires next { IsStill derivation.old }
    ensures now { release.new.current ≡ release.old.current }
    ensures answer { AnswersAs result
        (group_answer release.old.current group.now) release.new.prepared }
    ensures kept { (F : ℕ → Facts) → IsNow F derivation.old → IsNow F derivation.new }
    ensures next { OnOk result (IsNext (files_facts release.new.prepared) derivation.new) }
    ensures changed { IfOk result
        (λ points. points ≡ changed (files_facts release.old.current)
        (files_facts release.new.prepared)) }
    ensures steps { CountsAs (after_ops release.old.current 0 group.now)
        (files_facts release.old.current) steps.old steps.new }
{
    let mut touched = Spans::new(alloc);
    prepare_rows(release, group, &mut touched)?;
    let changed = derivation.turn_to(alloc, release, &touched, steps)?;
    Ok(changed)
}

/// Carries out the operations on what is prepared, in order, up to the first that stops the group. The code points that
/// they touch are put behind the others.
fn prepare_rows(release: &mut Release, group: &[Op], touched: &mut Spans) -> Result<(), ApplyStop>
    requires operations { All IsOp group.now }
    requires few { length group.now ≤ group_limit }
    ensures now { release.new.current ≡ release.old.current }
    ensures answer { AnswersAs result
        (after_ops release.old.prepared 0 group.now) release.new.prepared }
    ensures touched { OnOk result
        (HasTouched release.old.prepared release.new.prepared touched.old touched.new) }
{
    let mut done = 0;
    'operations: while done < group.len() {
        let told = prepare_op(release, &group[done], done as u32 + 1, touched);
        if told.is_err() {
            return told;
        }
        done += 1;
    }
    Ok(())
}

/// Carries out an operation of this number on what is prepared. The code points that it touches are put behind the
/// others, if rows of its file give facts.
fn prepare_op(
    release: &mut Release,
    op: &Op,
    number: u32,
    touched: &mut Spans,
) -> Result<(), ApplyStop>
    requires { IsOp op.now }
    ensures now { release.new.current ≡ release.old.current }
    ensures answer { AnswersAs result
        (after_op release.old.prepared number op.now) release.new.prepared }
    ensures touched { OnOk result
        (HasTouched release.old.prepared release.new.prepared touched.old touched.new) }
{
    rows_stay();
    facts_stay();
    others_give_none();
    match release.prepare(op) {
        Ok(spans) => {
            put_touched(touched, op, &spans)?;
            Ok(())
        }
        Err(OpStop::Key(rule)) => Err(ApplyStop::Refused(Refused::Key { rule, op: number })),
        Err(OpStop::Memory) => Err(ApplyStop::Memory),
    }
}

/// Puts spans of an operation behind the others, if rows of its file give facts.
fn put_touched(touched: &mut Spans, op: &Op, spans: &Spans) -> Result<(), Memory>
    ensures { OnOk result (touched.new
        ≡ (if gives_facts (op_file op.now) then touched.old ++ spans.now else touched.old)) }
{
    if gives_facts(op.file()) {
        touched.append(spans.as_slice())
    } else {
        Ok(())
    }
}
