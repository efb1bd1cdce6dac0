//! The four normalisation forms of a list together, of two expansions.

ghost use Rattle.std.specs.Prelude.{◌≡◌, IfOk};
ghost use Rattle.ucd_model.specs.CanonicalOrder.{class_of};
ghost use Rattle.ucd_facts.specs.Composites.{pair_of};
ghost use Rattle.ucd_model.specs.Composition.{compose};
ghost use Rattle.ucd_facts.specs.Expansion.{FormAnswers};
ghost use Rattle.ucd_facts.specs.declared.form.Form.{Form as FormValue};
ghost use Rattle.normalisation.specs.FormValues.{AreForms, HasList, form_of, four_forms};

use crate::composition::compose;
use crate::forms::{nfd, nfkd};
use std::alloc::Global;
use ucd_model::{FactView, FormStop, Memory, Point, Points};

/// The four normalisation forms of a list of code points. UAX #15, section 1.2.
#[derive(Debug, Drop)]
pub struct Forms {
    /// Normalisation Form D.
    pub nfd: Points,
    /// Normalisation Form C.
    pub nfc: Points,
    /// Normalisation Form KD.
    pub nfkd: Points,
    /// Normalisation Form KC.
    pub nfkc: Points,
}

impl Forms {
    /// The four forms of a list, each of which is there.
    ///
    /// - `Memory`: memory ran out.
    pub fn of<W: FactView>(alloc: Global, view: &W, s: &[Point]) -> Result<Forms, Memory>
        requires { (form : FormValue) → HasList (form_of (W.facts_of view.now) form s.now) }
        ensures { IfOk result (AreForms (W.facts_of view.now) s.now) }
    {
        match four_forms(alloc, view, s) {
            Ok(forms) => Ok(forms),
            Err(FormStop::Bad(_)) => unreachable!(),
            Err(FormStop::Memory) => Err(Memory),
        }
    }
}

/// The four forms of a list. Its members are expanded once by canonical mappings, and once by compatibility mappings too.
/// UAX #15, section 1.2.
///
/// - `Bad(rule)`: a member has no canonical expansion, and `rule`, V2 or V3, is that of the first such member; if each has
///   one, a member has no compatibility expansion, and `rule` is that of the first such member.
/// - `Memory`: memory ran out.
pub fn four_forms<W: FactView>(alloc: Global, view: &W, s: &[Point]) -> Result<Forms, FormStop>
    ensures { FormAnswers result (four_forms (W.facts_of view.now) s.now) }
{
    let canonical = nfd(alloc, view, s)?;
    let compatible = nfkd(alloc, view, s)?;
    Ok(Forms {
        nfc: composed(alloc, view, &canonical)?,
        nfkc: composed(alloc, view, &compatible)?,
        nfd: canonical,
        nfkd: compatible,
    })
}

/// A copy of a list, composed.
///
/// - `Memory`: memory ran out.
fn composed<W: FactView>(alloc: Global, view: &W, s: &Points) -> Result<Points, Memory>
    ensures { IfOk result (λ points.
        points ≡ compose (class_of (W.facts_of view.now)) (pair_of (W.facts_of view.now)) s.now) }
{
    let mut points = s.copy(alloc)?;
    compose(view, &mut points);
    Ok(points)
}
