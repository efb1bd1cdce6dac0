//! The primary composites of tables, now or next.

ghost use Rattle.std.specs.Prelude.{◌≡◌, ℕ};
ghost use Rattle.ucd_facts.specs.Composites.{composes, ends_with, is_canonical, pair_of, second_of};
ghost use Rattle.fact_tables.specs.FactTables.{facts_at};
ghost use Rattle.fact_tables.specs.Index.{candidate_of, is_that, ends_that, is_candidate, is_candidate_word, may_compose, picked, two_of};

use crate::fact_tables::FactTables;
use crate::now_or_next::NowOrNext;
use crate::word::{class_of, is_excluded, kind_of};
use range_table::Table;
use ucd_facts::{Kind, Point};

impl<T: Table<u64>> FactTables<T> {
    /// The least primary composite of a pair: the first that is listed under the pair and composes by the facts. A
    /// first member whose class is not 0 composes with nothing. The Unicode Standard, section 3.11, D114.
    pub(crate) fn composite(&self, version: NowOrNext, s: Point, y: Point) -> Option<Point>
        ensures { result ≡ pair_of (facts_at version self.now) s y }
    {
        if self.class_in(version, s) != 0 {
            return None;
        }
        let mut from = 0;
        'listed: while let Some(q) = self.index.next_of_pair(s, y, from) {
            if is_pair(self.composite_members(version, q), s, y) {
                return Some(q);
            }
            from = q.number() + 1;
        }
        None
    }

    /// Whether a code point is the second member of a primary composite: of one that is listed under it.
    pub(crate) fn is_second(&self, version: NowOrNext, y: Point) -> bool
        ensures { result ≡ second_of (facts_at version self.now) y }
    {
        let mut from = 0;
        'listed: while let Some(q) = self.index.next_of_second(y, from) {
            if ends_pair(self.composite_members(version, q), y) {
                return true;
            }
            from = q.number() + 1;
        }
        false
    }

    /// The members of the mapping of a primary composite; `None` for every other code point.
    /// The Unicode Standard, section 3.11, D114.
    pub(crate) fn composite_members(&self, version: NowOrNext, q: Point) -> Option<(Point, Point)>
        ensures pair { (s y : ℕ) → is_that s y result ≡ composes (facts_at version self.now) s y q }
        ensures second { (y : ℕ) → ends_that y result ≡ ends_with (facts_at version self.now) y q }
    {
        let two = two_of(self.mapping_in(version, q));
        self.composing_members(version, q, two)
    }

    /// The members of the mapping of a code point, if its kind, its class and its exclusion let it compose them, and the
    /// class of the first too.
    fn composing_members(
        &self,
        version: NowOrNext,
        q: Point,
        two: Option<(Point, Point)>,
    ) -> Option<(Point, Point)>
        ensures { result ≡ picked (facts_at version self.now) q two }
    {
        match two {
            Some(two) => {
                if self.may_be_composite_from(version, q, two.0) {
                    Some(two)
                } else {
                    None
                }
            }
            None => None,
        }
    }

    /// Whether a code point may be a primary composite whose mapping begins with `s`.
    fn may_be_composite_from(&self, version: NowOrNext, q: Point, s: Point) -> bool
        ensures { result ≡ may_compose (facts_at version self.now) q s }
    {
        let candidate = self.is_candidate(version, q);
        let starts = self.class_in(version, s) == 0;
        candidate && starts
    }

    /// The two members of the mapping of a code point that may be a primary composite by its kind, its class and its
    /// exclusion; `None` for every other code point.
    pub(crate) fn candidate_members(&self, version: NowOrNext, q: Point) -> Option<(Point, Point)>
        ensures { result ≡ candidate_of (facts_at version self.now q) }
    {
        if self.is_candidate(version, q) {
            two_of(self.mapping_in(version, q))
        } else {
            None
        }
    }

    /// Whether a code point may be a primary composite by its kind, its class and its exclusion.
    fn is_candidate(&self, version: NowOrNext, q: Point) -> bool
        ensures { result ≡ is_candidate (facts_at version self.now q) }
    {
        let _number = q.number();
        is_candidate_word(self.word(version, q))
    }
}

/// Whether a code point with this packed word may be a primary composite: by its kind, its class and its exclusion.
pub fn is_candidate_word(word: u64) -> bool
    ensures { result ≡ is_candidate_word word }
{
    let canonical = is_canonical(kind_of(word));
    let starts = class_of(word) == 0;
    let excluded = is_excluded(word);
    canonical && starts && !excluded
}

/// The members of a mapping that has two; `None` for every other one.
fn two_of(mapping: &[Point]) -> Option<(Point, Point)>
    ensures { result ≡ two_of mapping.now }
{
    match mapping {
        [s, y] => Some((*s, *y)),
        _ => None,
    }
}

/// Whether a kind is that of canonical mappings.
fn is_canonical(kind: Kind) -> bool
    ensures { result ≡ is_canonical kind }
{
    matches!(kind, Kind::Canonical)
}

/// Whether the members are these two.
fn is_pair(members: Option<(Point, Point)>, s: Point, y: Point) -> bool
    ensures { result ≡ is_that s y members }
{
    match members {
        Some((first, second)) => first == s && second == y,
        None => false,
    }
}

/// Whether the second of the members is this one.
fn ends_pair(members: Option<(Point, Point)>, y: Point) -> bool
    ensures { result ≡ ends_that y members }
{
    match members {
        Some((_, second)) => second == y,
        None => false,
    }
}
