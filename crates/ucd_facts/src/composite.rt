//! Primary composites, by the facts that a view shows. The Unicode Standard, section 3.11, D114.

ghost use Rattle.std.specs.Prelude.{◌≡◌};
ghost use Rattle.ucd_facts.specs.Composites.{first_has_class_zero, primary_of};
ghost use Rattle.ucd_facts.specs.Shown.{shown_facts};

use crate::decomposition::Kind;
use crate::view::{FactView, FactsRef};
use ucd_points::Point;

impl FactsRef<'_> {
    /// Whether a code point with these facts of the view is a primary composite.
    pub fn is_primary<W: FactView>(&self, view: &W) -> bool
        ensures { result ≡ primary_of (W.facts_of view.now) (shown_facts self.now) }
    {
        matches!(self.kind, Kind::Canonical)
            && self.class == 0
            && first_has_class_zero(view, self.mapping)
            && !self.excluded
    }
}

/// Whether a mapping has two members, of which the first has class 0.
fn first_has_class_zero<W: FactView>(view: &W, mapping: &[Point]) -> bool
    ensures { result ≡ first_has_class_zero (W.facts_of view.now) mapping.now }
{
    match mapping {
        [first, _] => view.class(*first) == 0,
        _ => false,
    }
}
