//! What `ages` writes and tells, made before the first file is written.

ghost use Rattle.std.specs.Prelude.{◌≡◌, ◌∷◌, [], List, IfOk, OnOk, nat_lt};
ghost use Rattle.release_rows.specs.Releases.{ReleaseItems};
ghost use Rattle.run_endings.specs.Planning.{HasPlan, Puts};
ghost use Rattle.ucdshop_more_core.specs.Chaining.{Follows};
ghost use Rattle.ucdshop_more_core.specs.Run.{age_counts, ages_ending, ages_file, steps_file};
ghost use Rattle.ucdshop_more_core.specs.Printed.{ages_summary};

use crate::chaining::Chained;
use crate::summary_lines::{AgeCounts, ages_summary};
use run_endings::{Output, Plan, put_text};
use std::alloc::Global;
use ucd_model::{Memory, Text};

/// The files that `ages` writes below a folder, and its summary, once the releases are chained.
///
/// - `Memory`: memory ran out.
pub fn ages_plan(alloc: Global, output: &[u8], chained: &Chained) -> Result<Plan, Memory>
    ensures { IfOk result (λ plan. (releases : List ReleaseItems) → Follows chained.now releases
        → HasPlan (ages_ending output.now releases) plan) }
{
    let mut outputs = Vec::new(alloc);
    put_ages(alloc, output, chained, &mut outputs)?;
    put_steps(alloc, output, chained, &mut outputs)?;
    let summary = summary_of(alloc, chained)?;
    Ok(Plan {
        outputs,
        summary,
        done: chained.breaks > 0,
    })
}

/// Puts the ages below a folder.
fn put_ages(
    alloc: Global,
    folder: &[u8],
    chained: &Chained,
    outputs: &mut Vec<Output>,
) -> Result<(), Memory>
    ensures { OnOk result ((releases : List ReleaseItems) → Follows chained.now releases
        → Puts (ages_file folder.now releases ∷ []) outputs.old.items outputs.new.items) }
{
    let text = chained.chain.age_text(alloc)?;
    put_text(alloc, folder, b"DerivedAge.txt", text.as_slice(), outputs)
}

/// Puts the steps below a folder.
fn put_steps(
    alloc: Global,
    folder: &[u8],
    chained: &Chained,
    outputs: &mut Vec<Output>,
) -> Result<(), Memory>
    ensures { OnOk result ((releases : List ReleaseItems) → Follows chained.now releases
        → Puts (steps_file folder.now releases ∷ []) outputs.old.items outputs.new.items) }
{
    put_text(
        alloc,
        folder,
        b"steps.txt",
        chained.steps.as_slice(),
        outputs,
    )
}

/// The summary of `ages`.
fn summary_of(alloc: Global, chained: &Chained) -> Result<Text, Memory>
    ensures { IfOk result (λ line. (releases : List ReleaseItems) → Follows chained.now releases
        → line ≡ ages_summary (age_counts releases)) }
{
    let counts = AgeCounts {
        releases: chained.chain.count() as usize,
        points: chained.chain.aged_points() as usize,
        breaks: chained.breaks,
    };
    ages_summary(alloc, counts)
}
