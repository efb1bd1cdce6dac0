//! A group of operations with the way back from it.

ghost use Rattle.std.specs.Prelude.{◌≡◌, ℕ, ◌≤◌, length, IfOk, OnOk};
ghost use Rattle.std.specs.List.{All};
ghost use Rattle.release_rows.specs.Operations.{IsOp};
ghost use Rattle.release_rows.specs.Patches.{LeadsBack};
ghost use Rattle.ucd_facts.specs.Facts.{Facts};
ghost use Rattle.edit_session.specs.Benches.{HasNothingPrepared, bench_facts};
ghost use Rattle.edit_session.specs.Derivations.{IsNext, IsNow, IsStill};
ghost use Rattle.edit_session.specs.Groups.{AnswersAs, AppliesAs, CountsAs, after_ops, changed, files_facts, group_answer, group_limit};
ghost use Rattle.edit_session.specs.Reverts.{Keeps, first_of};
ghost use Rattle.edit_session.specs.Standing.{IsBench};

use crate::accepted::Accepted;
use crate::apply_stop::ApplyStop;
use crate::derivation::Derivation;
use crate::group::prepare_group;
use release_rows::{Op, Patch, Release};
use std::alloc::Global;
use std::sync::ledger::Ledger;
use ucd_model::{Points, Steps};

/// Carries the operations out on a release and on what is derived of it, or leaves both as they are. It answers besides
/// the way from the rows after them back to those before.
///
/// - `Refused(why)`: an operation or the rows after all break a rule.
/// - `Memory`: memory ran out.
pub fn apply_kept<L: Ledger>(
    alloc: Global,
    release: &mut Release,
    derivation: &mut Derivation,
    group: &[Op],
    steps: &mut Steps<L>,
) -> Result<(Accepted, Patch), ApplyStop>
    requires operations { All IsOp group.now }
    requires few { length group.now ≤ group_limit }
    requires before { IsBench release.old derivation.old }
    ensures after { IsBench release.new derivation.new }
    ensures answer { AppliesAs (first_of result)
        (group_answer release.old.current group.now) release.old release.new }
    ensures kept { IfOk result (λ made. Keeps made.1 release.new.current release.old.current) }
    ensures counted { CountsAs (after_ops release.old.current 0 group.now)
        (bench_facts release.old) steps.old steps.new }
{
    release.current_files_are_kept();
    derivation.sweep();
    match prepare_kept(alloc, release, derivation, group, steps) {
        Ok((changed, way)) => {
            release.commit();
            derivation.commit();
            Ok((Accepted { changed }, way))
        }
        Err(stop) => {
            release.discard();
            derivation.discard();
            Err(stop)
        }
    }
}

/// Carries the operations out on what is prepared, and prepares what their rows give. It answers the code points whose
/// records differ, ascending, and the way back. It is the part of a group that can fail.
fn prepare_kept<L: Ledger>(
    alloc: Global,
    release: &mut Release,
    derivation: &mut Derivation,
    group: &[Op],
    steps: &mut Steps<L>,
) -> Result<(Points, Patch), ApplyStop>
    requires operations { All IsOp group.now }
    requires few { length group.now ≤ group_limit }
    requires still { HasNothingPrepared release.old }
    requires now { IsNow (files_facts release.old.current) derivation.old }
    requires next { IsStill derivation.old }
    ensures now { release.new.current ≡ release.old.current }
    ensures answer { AnswersAs result
        (group_answer release.old.current group.now) release.new.prepared }
    ensures kept { (F : ℕ → Facts) → IsNow F derivation.old → IsNow F derivation.new }
    ensures next { OnOk result (IsNext (files_facts release.new.prepared) derivation.new) }
    ensures changed { IfOk result
        (λ made. made.0 ≡ changed (files_facts release.old.current)
        (files_facts release.new.prepared)) }
    ensures way { IfOk result (λ made. LeadsBack made.1 release.new.prepared release.new.current) }
    ensures steps { CountsAs (after_ops release.old.current 0 group.now)
        (files_facts release.old.current) steps.old steps.new }
{
    let changed = prepare_group(alloc, release, derivation, group, steps)?;
    let way = release.patch()?;
    Ok((changed, way))
}
