//! What breaks the stability policies.

ghost use Rattle.std.specs.Prelude.{◌≡◌, IfOk};
ghost use Rattle.std.specs.Option.{option_map};
ghost use Rattle.run_inputs.specs.Verdict.{release_items};
ghost use Rattle.ucdshop_jobs.specs.Run.{breaks_since};
ghost use Rattle.stability_policies.specs.Reports.{report};

use edit_session::Bench;
use stability_policies::{Breaks, report};
use std::alloc::Global;
use ucd_model::Memory;

/// The breaks of the stability policies by the release of a bench against an earlier one; none if there is no earlier
/// one. Unicode Character Encoding Stability Policies.
///
/// - `Memory`: memory ran out.
pub fn breaks_since(alloc: Global, earlier: &Option<Bench>, bench: &Bench) -> Result<Breaks, Memory>
    ensures { IfOk result (λ breaks. breaks
        ≡ breaks_since (option_map (λ before. before.current) earlier.now) bench.now.current) }
{
    match earlier {
        Some(before) => breaks_between(alloc, before, bench),
        None => Ok(Breaks::new(alloc)),
    }
}

/// What the release of a bench breaks of the stability policies against that of an earlier one.
///
/// - `Memory`: memory ran out.
fn breaks_between(alloc: Global, before: &Bench, bench: &Bench) -> Result<Breaks, Memory>
    ensures { IfOk result (λ breaks. breaks
        ≡ report (release_items before.now.current) (release_items bench.now.current)) }
{
    let old = before.release();
    let new = bench.release();
    report(alloc, before, old, bench, new)
}
