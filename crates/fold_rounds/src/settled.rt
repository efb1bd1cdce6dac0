//! Lists that both foldings leave as they are.

ghost use Rattle.std.specs.Prelude.{◌≡◌};
ghost use Rattle.std.specs.List.{list_all};
ghost use Rattle.ucd_facts.specs.Shown.{shown_facts};
ghost use Rattle.fold_rounds.specs.Steps.{has_composite, is_own, is_settled};

use crate::ignorable::default_ignorable;
use ucd_model::{FactView, FactsRef, Kind, Point};

/// Whether each member of a list is settled: it is its own folding, by either folding, and not ignored by default. It
/// takes no memory.
pub(crate) fn is_settled<W: FactView>(view: &W, s: &[Point]) -> bool
    ensures { result ≡ list_all (λ x. is_settled x (W.facts_of view.now x)) s.now }
{
    'members: for x in s {
        if !is_settled_point(view, *x) {
            return false;
        }
    }
    true
}

/// Whether a code point is settled.
fn is_settled_point<W: FactView>(view: &W, c: Point) -> bool
    ensures { result ≡ is_settled c (W.facts_of view.now c) }
{
    view.folding(c).is_none() && view.simple_folding(c) == c && !default_ignorable(view, c)
}

/// Whether a member of a list has a canonical mapping. It takes no memory.
pub(crate) fn has_canonical_mapping<W: FactView>(view: &W, s: &[Point]) -> bool
    ensures { result ≡ has_composite (W.facts_of view.now) s.now }
{
    'members: for x in s {
        if matches!(view.kind(*x), Kind::Canonical) {
            return true;
        }
    }
    false
}

/// Whether a code point with these facts is its own folding, by either folding.
pub(crate) fn folds_to_itself(c: Point, facts: &FactsRef<'_>) -> bool
    ensures { result ≡ is_own c (shown_facts facts.now) }
{
    facts.fold.is_none() && facts.simple_fold == c
}
