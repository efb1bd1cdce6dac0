//! What `conform` writes and tells, made before its file is written.

ghost use Rattle.std.specs.Prelude.{◌≡◌, IfOk};
ghost use Rattle.run_endings.specs.Planning.{HasPlan};
ghost use Rattle.ucdshop_more_core.specs.MissTexts.{misses_of};
ghost use Rattle.ucdshop_more_core.specs.Run.{conform_ending};

use crate::miss_text::misses_text;
use crate::summary_lines::conform_summary;
use crate::trial::Trial;
use norm_conformance::{Misses, misses};
use run_endings::{Plan, put_text};
use std::alloc::Global;
use ucd_model::Memory;

/// The file that `conform` writes below a folder, and its summary.
///
/// - `Memory`: memory ran out.
pub fn conform_plan(alloc: Global, output: &[u8], trial: &Trial) -> Result<Plan, Memory>
    ensures { IfOk result (HasPlan (conform_ending output.now trial.now)) }
{
    let found = misses_in(alloc, trial)?;
    let text = misses_text(alloc, &found)?;
    let mut outputs = Vec::new(alloc);
    put_text(alloc, output, b"conform.txt", text.as_slice(), &mut outputs)?;
    let count = found.len();
    let summary = conform_summary(alloc, trial.cases.list.len(), count)?;
    Ok(Plan {
        outputs,
        summary,
        done: count > 0,
    })
}

/// What a release misses of the cases that it is tried on.
///
/// - `Memory`: memory ran out.
fn misses_in(alloc: Global, trial: &Trial) -> Result<Misses, Memory>
    ensures { IfOk result (λ found. found ≡ misses_of trial.now) }
{
    let _release = trial.bench.release();
    misses(alloc, &trial.bench, &trial.cases)
}
