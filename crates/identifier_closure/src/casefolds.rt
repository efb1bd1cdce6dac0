//! The case foldings of a code point under NFKC.

ghost use Rattle.std.specs.Prelude.{◌≡◌, [], ◌∷◌, Ok, IfOk};
ghost use Rattle.ucd_model.specs.Forms.{nfkc};
ghost use Rattle.ucd_facts.specs.Shown.{shown_facts};
ghost use Rattle.identifier_closure.specs.Derived.{CasefoldsAnswer};

use fold_rounds::casefold_of;
use std::alloc::Global;
use ucd_model::{FactView, FactsRef, Folding, FormStop, Image, Memory, Point, Points};

/// NFKC_Casefold and NFKC_Simple_Casefold of a code point. UAX #44, section 5.3.
#[derive(Drop)]
pub struct Casefolds {
    /// NFKC_Casefold.
    pub full: Image,
    /// NFKC_Simple_Casefold.
    pub simple: Image,
}

/// The two foldings of a code point with these facts, whose Normalisation Form KC is `form`. If it is known that both are
/// one image, the rounds by the simple folding are not made.
///
/// - `Bad(V5)`: one of them reaches no list. No other rule comes.
/// - `Memory`: memory ran out.
#[tactic(auto, using(crate::proofs::RecordLemmas::casefold_stop))]
pub fn casefolds_of<W: FactView>(
    alloc: Global,
    view: &W,
    c: Point,
    facts: &FactsRef<'_>,
    form: &[Point],
) -> Result<Casefolds, FormStop>
    requires facts { shown_facts facts.now ≡ W.facts_of view.now c }
    requires form { nfkc (W.facts_of view.now) (c ∷ []) ≡ Ok form.now }
    ensures { CasefoldsAnswer (W.facts_of view.now) c result }
{
    let full = match casefold_of(alloc, view, Folding::Full, c, facts, form) {
        Ok(found) => found,
        Err(stop) => return Err(stop),
    };
    if full.alike {
        let simple = copied(alloc, &full.image)?;
        return Ok(Casefolds {
            full: full.image,
            simple,
        });
    }
    match casefold_of(alloc, view, Folding::Simple, c, facts, form) {
        Ok(simple) => Ok(Casefolds {
            full: full.image,
            simple: simple.image,
        }),
        Err(stop) => Err(stop),
    }
}

/// A copy of an image. It takes no memory if the image is the code point itself, or no code points.
fn copied(alloc: Global, image: &Image) -> Result<Image, Memory>
    ensures { IfOk result (λ copy. copy ≡ image.now) }
{
    match image {
        Image::Same => Ok(Image::Same),
        Image::To(points) => Ok(Image::To(Points::of(alloc, points.as_slice())?)),
    }
}
