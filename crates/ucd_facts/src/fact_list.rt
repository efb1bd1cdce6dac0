//! The facts of a few code points, in a list that is looked through: a view for samples and tests.

ghost use Rattle.std.specs.Prelude.{◌≡◌, ℕ, ◌<◌, length};
ghost use Rattle.ucd_facts.specs.Composites.{primary, composes, ends_with, is_pair, is_second, is_canonical, first_has_class_zero};
ghost use Rattle.ucd_points.specs.Limits.{point_count};
ghost use Rattle.ucd_facts.specs.FactList.{facts_in};

use crate::decomposition::Kind;
use crate::facts::Facts;
use crate::view::{FactView, FactsRef};
use ucd_points::{ListOf, Point, point_count};

/// The facts of a few code points. If two entries have one code point, the first counts; every code point without an
/// entry has the facts of one without a row.
pub type FactList = ListOf<(Point, Facts)>;

impl FactView for ListOf<(Point, Facts)> {
    ghost facts_of = { facts_in };

    fn facts(&self, c: Point) -> FactsRef<'_> {
        'entries: for entry in self.as_slice() {
            if entry.0 == c {
                return entry.1.as_ref();
            }
        }
        FactsRef::unassigned(c)
    }

    fn pair(&self, s: Point, y: Point) -> Option<Point> {
        'points: for number in 0..point_count() {
            if let Some(q) = Point::new(number)
                && composes(self, s, y, q)
            {
                return Some(q);
            }
        }
        None
    }

    fn second(&self, y: Point) -> bool {
        'points: for number in 0..point_count() {
            if let Some(q) = Point::new(number)
                && is_composite_ending_with(self, y, q)
            {
                return true;
            }
        }
        false
    }
}

/// Whether a code point is a primary composite with the mapping `s`, `y`.
fn composes(list: &FactList, s: Point, y: Point, q: Point) -> bool
    ensures { result ≡ composes (facts_in list.now) s y q }
{
    is_primary(list, q) && matches!(list.facts(q).mapping, [a, b] if *a == s && *b == y)
}

/// Whether a code point is a primary composite whose mapping has `y` as its second member.
fn is_composite_ending_with(list: &FactList, y: Point, q: Point) -> bool
    ensures { result ≡ ends_with (facts_in list.now) y q }
{
    is_primary(list, q) && matches!(list.facts(q).mapping, [_, b] if *b == y)
}

/// Whether a code point is a primary composite.
fn is_primary(list: &FactList, q: Point) -> bool
    ensures { result ≡ primary (facts_in list.now) q }
{
    let facts = list.facts(q);
    matches!(facts.kind, Kind::Canonical)
        && facts.class == 0
        && first_has_class_zero(list, facts.mapping)
        && !facts.excluded
}

/// Whether a mapping has two members, and the first has class 0.
fn first_has_class_zero(list: &FactList, mapping: &[Point]) -> bool
    ensures { result ≡ first_has_class_zero (facts_in list.now) mapping.now }
{
    matches!(mapping, [s, _] if list.facts(*s).class == 0)
}
