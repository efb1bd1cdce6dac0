//! What the two releases have in common if the report lists nothing of some policies.

ghost use Rattle.std.specs.Prelude.{◌≡◌, Ok, IfOk};
ghost use Rattle.stability_policies.specs.CommonForms.{AllAssigned, KeepsForms, ListsNone};
ghost use Rattle.normalisation.specs.FormValues.{AreForms, HasList};
ghost use Rattle.stability_policies.specs.Policies.{caseless};
ghost use Rattle.stability_policies.specs.Reports.{report};
ghost use Rattle.stability_policies.specs.Views.{Belongs, IsValid};
ghost use Rattle.stability_policies.specs.declared.policy.Policy.TheVariants.{P10};

use crate::breaks::Breaks;
use crate::caseless::caseless;
use normalisation::Forms;
use release_rows::Release;
use std::alloc::Global;
use ucd_model::{FactView, Memory, Point, Points, Records};

/// The four forms of a list of code points that were assigned in the old release: they are the same in both releases,
/// if the report lists nothing of P01, P03, P04 and P05. UAX #15, section 3.
///
/// - `Memory`: memory ran out.
pub fn common_forms<O: Records + FactView, N: Records + FactView>(
    alloc: Global,
    old: &O,
    old_rows: &Release,
    new: &N,
    new_rows: &Release,
    breaks: &Breaks,
    s: &[Point],
) -> Result<Forms, Memory>
    requires old { Belongs (O.facts_of old.now) (O.record_of old.now) old_rows.now }
    requires new { Belongs (N.facts_of new.now) (N.record_of new.now) new_rows.now }
    requires valid_old { IsValid old_rows.now }
    requires report { breaks.now ≡ report old_rows.now new_rows.now }
    requires kept { KeepsForms breaks.now }
    requires assigned { AllAssigned (O.facts_of old.now) s.now }
    ensures old { IfOk result (AreForms (O.facts_of old.now) s.now) }
    ensures new { IfOk result (AreForms (N.facts_of new.now) s.now) }
{
    let forms = Forms::of(alloc, old, s)?;
    Ok(forms)
}

/// The full folding of the Normalisation Form KC of a list of code points that were assigned in the old release: it is the
/// same in both releases, if the report lists nothing of P01, P03, P04, P05 and P10. UAX #31, section 5.1.
///
/// - `Memory`: memory ran out.
pub fn common_caseless<O: Records + FactView, N: Records + FactView>(
    alloc: Global,
    old: &O,
    old_rows: &Release,
    new: &N,
    new_rows: &Release,
    breaks: &Breaks,
    s: &[Point],
) -> Result<Points, Memory>
    requires old { Belongs (O.facts_of old.now) (O.record_of old.now) old_rows.now }
    requires new { Belongs (N.facts_of new.now) (N.record_of new.now) new_rows.now }
    requires valid_old { IsValid old_rows.now }
    requires report { breaks.now ≡ report old_rows.now new_rows.now }
    requires kept { KeepsForms breaks.now }
    requires folding { ListsNone P10 breaks.now }
    requires assigned { AllAssigned (O.facts_of old.now) s.now }
    ensures old { IfOk result (λ points. caseless (O.facts_of old.now) s.now ≡ Ok points) }
    ensures new { IfOk result (λ points. caseless (N.facts_of new.now) s.now ≡ Ok points) }
{
    let points = folding_of_nfkc(alloc, old, s)?;
    Ok(points)
}

/// The folding of a list under Normalisation Form KC, which is there.
///
/// - `Memory`: memory ran out.
fn folding_of_nfkc<W: FactView>(alloc: Global, view: &W, s: &[Point]) -> Result<Points, Memory>
    requires { HasList (caseless (W.facts_of view.now) s.now) }
    ensures { IfOk result (λ points. caseless (W.facts_of view.now) s.now ≡ Ok points) }
{
    match caseless(alloc, view, s)? {
        Some(points) => Ok(points),
        None => unreachable!(),
    }
}
