//! Full exclusion from composition.

ghost use Rattle.std.specs.Prelude.{◌≡◌};
ghost use Rattle.ucd_model.specs.QuickChecks.{excludes_mapping, full_exclusion};
ghost use Rattle.ucd_facts.specs.Shown.{shown_facts};

use ucd_model::{FactView, FactsRef, Kind, Point};

/// Full_Composition_Exclusion of a code point: it is excluded, or composition never gives back its canonical mapping.
/// UAX #15, section 5; UAX #44, section 5.7.5.
pub fn full_exclusion<W: FactView>(view: &W, c: Point) -> bool
    ensures { result ≡ full_exclusion (W.facts_of view.now) c }
{
    is_fully_excluded(view, c, &view.facts(c))
}

/// Full_Composition_Exclusion of a code point whose facts are at hand: it is excluded, or composition never gives back its
/// canonical mapping. UAX #15, section 5; UAX #44, section 5.7.5.
pub fn is_fully_excluded<W: FactView>(view: &W, c: Point, facts: &FactsRef<'_>) -> bool
    requires { shown_facts facts.now ≡ W.facts_of view.now c }
    ensures { result ≡ full_exclusion (W.facts_of view.now) c }
{
    facts.excluded
        || (matches!(facts.kind, Kind::Canonical) && excludes_mapping(view, c, facts.mapping))
}

/// Whether composition never gives back a canonical mapping of a code point: the mapping has one member, or it has two,
/// and the code point or the first member is no starter.
fn excludes_mapping<W: FactView>(view: &W, c: Point, mapping: &[Point]) -> bool
    ensures { result ≡ excludes_mapping (W.facts_of view.now) c mapping.now }
{
    match mapping {
        [_] => true,
        [first, _] => view.class(c) != 0 || view.class(*first) != 0,
        _ => false,
    }
}
