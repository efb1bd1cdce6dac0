//! Primary composites that a lesser one hides. The Unicode Standard, section 3.11, D114.

ghost use Rattle.std.specs.Prelude.{◌≡◌, [], ◌∷◌, IsTrue, Ok};
ghost use Rattle.ucd_model.specs.Forms.{nfc};
ghost use Rattle.ucd_facts.specs.Shown.{shown_facts};
ghost use Rattle.identifier_closure.specs.Composites.{hidden_of};

use ucd_model::{FactView, FactsRef, Point};

/// Whether a code point with these facts and this Normalisation Form C is a primary composite whose mapping a lesser one
/// has too. If it is its own form, it is not: nothing is looked up. The Unicode Standard, section 3.11, D114.
pub fn is_hidden_composite<W: FactView>(
    view: &W,
    c: Point,
    facts: &FactsRef<'_>,
    form: &[Point],
) -> bool
    requires facts { shown_facts facts.now ≡ W.facts_of view.now c }
    requires form { nfc (W.facts_of view.now) (c ∷ []) ≡ Ok form.now }
    ensures { result ≡ hidden_of (W.facts_of view.now) c (shown_facts facts.now) }
{
    if is_alone(form, c) {
        return false;
    }
    if !facts.is_primary(view) {
        return false;
    }
    match facts.mapping {
        [s, y] => match view.pair(*s, *y) {
            Some(q) => q != c,
            None => false,
        },
        _ => false,
    }
}

/// Whether a list is this code point alone.
fn is_alone(points: &[Point], c: Point) -> bool
    ensures { IsTrue result → points.now ≡ c ∷ [] }
{
    matches!(points, [only] if *only == c)
}
