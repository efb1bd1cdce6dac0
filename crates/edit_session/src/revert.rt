//! A way that is gone back.

ghost use Rattle.std.specs.Prelude.{◌≡◌, ℕ, IfOk, OnOk};
ghost use Rattle.release_rows.specs.Patches.{back};
ghost use Rattle.record_turns.specs.Turned.{CountsWithin};
ghost use Rattle.ucd_facts.specs.Facts.{Facts};
ghost use Rattle.edit_session.specs.Benches.{HasNothingPrepared, bench_facts};
ghost use Rattle.edit_session.specs.Derivations.{IsNext, IsNow, IsStill};
ghost use Rattle.edit_session.specs.Groups.{changed, files_facts};
ghost use Rattle.edit_session.specs.Reverts.{IsValidWayBack, RevertsAs};
ghost use Rattle.edit_session.specs.Standing.{IsBench};

use crate::accepted::Accepted;
use crate::apply_stop::ApplyStop;
use crate::derivation::Derivation;
use code_facts::laws::facts_stay;
use release_rows::{Patch, Release, rows_stay_back};
use std::alloc::Global;
use std::sync::ledger::Ledger;
use ucd_model::{Memory, Points, Steps};

/// Goes a way back in a release and in what is derived of it.
///
/// - `Memory`: memory ran out. Both are as they were.
pub fn revert<L: Ledger>(
    alloc: Global,
    release: &mut Release,
    derivation: &mut Derivation,
    way: &Patch,
    steps: &mut Steps<L>,
) -> Result<Accepted, Memory>
    requires before { IsBench release.old derivation.old }
    requires way { IsValidWayBack way.now release.old.current }
    ensures after { IsBench release.new derivation.new }
    ensures answer { RevertsAs result (back way.now release.old.current) release.old release.new }
    ensures counted { CountsWithin (bench_facts release.old)
        (files_facts (back way.now release.old.current)) steps.old steps.new }
{
    derivation.sweep();
    match prepare_revert(alloc, release, derivation, way, steps) {
        Ok(changed) => {
            release.commit();
            derivation.commit();
            Ok(Accepted { changed })
        }
        Err(stop) => {
            release.discard();
            derivation.discard();
            Err(stop)
        }
    }
}

/// Prepares what a way leads back to, and what its rows give. It answers the code points whose records differ, ascending.
/// It is the part that can fail.
///
/// - `Memory`: memory ran out.
fn prepare_revert<L: Ledger>(
    alloc: Global,
    release: &mut Release,
    derivation: &mut Derivation,
    way: &Patch,
    steps: &mut Steps<L>,
) -> Result<Points, Memory>
    requires still { HasNothingPrepared release.old }
    requires now { IsNow (files_facts release.old.current) derivation.old }
    requires next { IsStill derivation.old }
    requires way { IsValidWayBack way.now release.old.current }
    ensures now { release.new.current ≡ release.old.current }
    ensures prepared { OnOk result (release.new.prepared ≡ back way.now release.old.current) }
    ensures kept { (F : ℕ → Facts) → IsNow F derivation.old → IsNow F derivation.new }
    ensures next { OnOk result (IsNext (files_facts release.new.prepared) derivation.new) }
    ensures changed { IfOk result
        (λ points. points ≡ changed (files_facts release.old.current)
        (files_facts (back way.now release.old.current))) }
    ensures steps { CountsWithin (files_facts release.old.current)
        (files_facts (back way.now release.old.current)) steps.old steps.new }
{
    rows_stay_back();
    facts_stay();
    let touched = release.prepare_back(way)?;
    match derivation.turn_to(alloc, release, &touched, steps) {
        Ok(changed) => Ok(changed),
        Err(ApplyStop::Memory) => Err(Memory),
        Err(ApplyStop::Refused(_)) => unreachable!(),
    }
}
