//! How far code points have no mapping.

ghost use Rattle.std.specs.Prelude.{◌≡◌, ◌↔◌, IfSome, IsSome, IsTrue};
ghost use Rattle.ucd_facts.specs.Shown.{shown_facts};
ghost use Rattle.ucd_facts.specs.Uniform.{IsPlain};
ghost use Rattle.fact_tables.specs.FactTables.{tables_facts};
ghost use Rattle.fact_tables.specs.Plain.{IsOwnImage, ShowsNoImage};
ghost use Rattle.ucd_points.specs.Stretches.{HoldsTo};

use crate::fact_tables::FactTables;
use point_store::Store;
use range_table::Stretches;
use ucd_facts::{FactView, FactsRef, Point};

impl<T: Stretches<u64>> FactTables<T> {
    /// Whether a code point has no mapping of any kind. UAX #44, sections 5.6 and 5.7.
    pub fn is_plain(&self, c: Point) -> bool
        ensures { IsTrue result ↔ IsPlain c (tables_facts T.now self.now c) }
    {
        let _number = c.number();
        if self.rests.get(c).is_none() {
            return true;
        }
        is_plain(c, &self.facts(c))
    }

    /// A code point up to which none from `c` on has a mapping of any kind; `None` exactly if `c` has one. UAX #44,
    /// sections 5.6 and 5.7. It reaches as far as nothing is kept of mappings.
    pub fn last_plain(&self, c: Point) -> Option<Point>
        ensures plain { IsSome result ↔ IsPlain c (tables_facts T.now self.now c) }
        ensures stretch { IfSome result
            (HoldsTo (λ d. IsPlain d (tables_facts T.now self.now d)) c) }
    {
        let _first = c.number();
        let rest = self.rests.get(c);
        if rest.is_none() {
            let last = self.rests.last_of_stretch(c);
            let _last = last.number();
            return Some(last);
        }
        if !rest.mapping().is_empty() {
            return None;
        }
        self.itself_if_plain(c)
    }

    /// The code point, if it has no mapping.
    fn itself_if_plain(&self, c: Point) -> Option<Point>
        ensures plain { IsSome result ↔ IsPlain c (tables_facts T.now self.now c) }
        ensures stretch { IfSome result
            (HoldsTo (λ d. IsPlain d (tables_facts T.now self.now d)) c) }
    {
        if is_plain(c, &self.facts(c)) {
            Some(c)
        } else {
            None
        }
    }
}

/// Whether the facts of a code point give it no mapping.
fn is_plain(c: Point, facts: &FactsRef<'_>) -> bool
    ensures { IsTrue result ↔ IsPlain c (shown_facts facts.now) }
{
    facts.mapping.is_empty() && has_own_simple_images(c, facts) && has_no_full_image(facts)
}

/// Whether each simple image is the code point itself.
fn has_own_simple_images(c: Point, facts: &FactsRef<'_>) -> bool
    ensures { IsTrue result ↔ IsOwnImage c facts.now }
{
    facts.simple_upper == c
        && facts.simple_lower == c
        && facts.simple_title == c
        && facts.simple_fold == c
}

/// Whether no image is shown.
fn has_no_full_image(facts: &FactsRef<'_>) -> bool
    ensures { IsTrue result ↔ ShowsNoImage facts.now }
{
    facts.upper.is_none() && facts.lower.is_none() && facts.title.is_none() && facts.fold.is_none()
}
