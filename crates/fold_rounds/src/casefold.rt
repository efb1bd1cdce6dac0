//! NFKC_Casefold and NFKC_Simple_Casefold of a code point.

ghost use Rattle.std.specs.Prelude.{◌≡◌, Ok, [], ◌∷◌, if◌then◌else◌};
ghost use Rattle.ucd_facts.specs.Expansion.{FormAnswers};
ghost use Rattle.ucd_model.specs.FoldRounds.{casefold_image};
ghost use Rattle.ucd_model.specs.Forms.{nfkc};
ghost use Rattle.ucd_facts.specs.Predicates.{default_ignorable};
ghost use Rattle.ucd_facts.specs.Shown.{shown_facts};
ghost use Rattle.ucd_facts.specs.declared.folding.Folding.TheVariants.{Full, Simple};
ghost use Rattle.ucd_facts.specs.declared.image.Image.TheVariants.{Same, To};
ghost use Rattle.fold_rounds.specs.Steps.{FoldsAs};

use crate::ignorable::is_default_ignorable;
use crate::rounds::first_fixed_list;
use crate::settled::folds_to_itself;
use normalisation::nfkc;
use std::alloc::Global;
use ucd_model::{Bad, FactView, FactsRef, Folding, FormStop, Image, Point, Points, same_points};

/// What a code point is folded to under NFKC, by one of the foldings.
#[derive(Debug, Drop)]
pub struct Folded {
    /// NFKC_Casefold or NFKC_Simple_Casefold.
    pub image: Image,
    /// Whether it is known that both are this image.
    pub alike: bool,
}

/// NFKC_Casefold of a code point: from the code point alone, the first list after 0 to 7 rounds that one more round
/// leaves as it is. A round is the folding, without ignorable code points, of the Normalisation Form KC, in that form
/// again. The Unicode Standard, section 3.13, toNFKC_Casefold.
///
/// - `Bad(V5)`: there is no such list, a list has no Normalisation Form KC, or a form or a folding has more than 255
///   code points. No other rule comes.
/// - `Memory`: memory ran out.
pub fn nfkc_casefold<W: FactView>(alloc: Global, view: &W, c: Point) -> Result<Image, FormStop>
    ensures { FormAnswers result (casefold_image Full (W.facts_of view.now) c) }
{
    casefold_by(alloc, view, Folding::Full, c)
}

/// NFKC_Simple_Casefold of a code point: the same by the simple folding. UAX #44, section 5.3.
///
/// - `Bad(V5)`: as for [`nfkc_casefold`], of that folding. No other rule comes.
/// - `Memory`: memory ran out.
pub fn nfkc_simple_casefold<W: FactView>(
    alloc: Global,
    view: &W,
    c: Point,
) -> Result<Image, FormStop>
    ensures { FormAnswers result (casefold_image Simple (W.facts_of view.now) c) }
{
    casefold_by(alloc, view, Folding::Simple, c)
}

/// The image of a code point under the rounds by a folding.
fn casefold_by<W: FactView>(
    alloc: Global,
    view: &W,
    folding: Folding,
    c: Point,
) -> Result<Image, FormStop>
    ensures { FormAnswers result (casefold_image folding (W.facts_of view.now) c) }
{
    match nfkc(alloc, view, &[c]) {
        Ok(form) => {
            let found = casefold_of(alloc, view, folding, c, &view.facts(c), form.as_slice())?;
            Ok(found.image)
        }
        Err(FormStop::Bad(_)) => Err(FormStop::Bad(Bad::V5)),
        Err(FormStop::Memory) => Err(FormStop::Memory),
    }
}

/// NFKC_Casefold or NFKC_Simple_Casefold, by the folding that is named, of a code point with these facts, whose
/// Normalisation Form KC is `form`. It takes no memory if neither that form nor a folding changes the code point.
/// The Unicode Standard, section 3.13, toNFKC_Casefold.
///
/// - `Bad(V5)`: as for [`nfkc_casefold`]. No other rule comes.
/// - `Memory`: memory ran out.
pub fn casefold_of<W: FactView>(
    alloc: Global,
    view: &W,
    folding: Folding,
    c: Point,
    facts: &FactsRef<'_>,
    form: &[Point],
) -> Result<Folded, FormStop>
    requires facts { shown_facts facts.now ≡ W.facts_of view.now c }
    requires form { nfkc (W.facts_of view.now) (c ∷ []) ≡ Ok form.now }
    ensures { FoldsAs folding (W.facts_of view.now) c result }
{
    if folds_to_itself(c, facts) && same_points(form, &[c]) {
        return Ok(Folded {
            image: kept_or_dropped(alloc, c, facts),
            alike: true,
        });
    }
    match first_fixed_list(alloc, view, folding, c, form)? {
        Some(found) => Ok(Folded {
            image: Image::of(c, found.list),
            alike: found.alike,
        }),
        None => Err(FormStop::Bad(Bad::V5)),
    }
}

/// What a code point with these facts, which is its own folding, is folded to: no code points if it is ignored by default.
fn kept_or_dropped(alloc: Global, c: Point, facts: &FactsRef<'_>) -> Image
    ensures { result ≡ (if default_ignorable c (shown_facts facts.now) then To [] else Same) }
{
    if is_default_ignorable(c, facts) {
        Image::To(Points::new(alloc))
    } else {
        Image::Same
    }
}
