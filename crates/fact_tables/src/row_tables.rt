//! Tables of what rows give, before they are copied.

ghost use Rattle.std.specs.Prelude.{◌≡◌, ◌+◌, ◌<◌, ◌≤◌, IsTrue, IfOk, MatchOption};
ghost use Rattle.std.specs.Option.{option_to_list};
ghost use Rattle.ucd_points.specs.Stretches.{HoldsTo};
ghost use Rattle.fact_tables.specs.PointLists.{lists_now};
ghost use Rattle.fact_tables.specs.Rest.{no_rest, bare_rest as bare_with};
ghost use Rattle.fact_tables.specs.RowTables.{AreBare, IsBare, first_alone, others_in, rest_in};

use crate::case_images::CaseImages;
use crate::data_lists::DataLists;
use crate::mappings::Mappings;
use crate::packed_mappings::PackedMappings;
use crate::points::{lesser, point};
use range_table::RunTable;
use std::alloc::Global;
use ucd_facts::{Memory, Point, Points};

/// The facts of all code points that rows give, in run tables and maps.
#[derive(Drop)]
pub struct RowTables {
    /// The packed words.
    pub words: RunTable<u64>,
    /// The mappings that the rows of UnicodeData.txt give.
    pub lists: Box<DataLists>,
    /// The images of CaseFolding.txt and SpecialCasing.txt.
    pub cases: Box<CaseImages>,
}

impl RowTables {
    /// The mappings of a code point, which are kept beside its packed word. `mapping` is its decomposition mapping. `None` only if nothing is
    /// kept. Below `bare` code points have no more than a decomposition mapping, and nothing is looked up.
    ///
    /// - `Memory`: memory ran out.
    pub fn rest(
        &self,
        alloc: Global,
        c: Point,
        bare: u32,
        mapping: &[Point],
    ) -> Result<Option<PackedMappings>, Memory>
        requires bare { AreBare self.now c bare }
        requires mapping { mapping.now ≡ (rest_in self.now c).mapping }
        ensures { IfOk result (λ rest. MatchOption rest (rest_in self.now c ≡ no_rest)
            (λ kept. kept ≡ rest_in self.now c)) }
    {
        if c.number() < bare {
            return bare_rest(alloc, mapping);
        }
        let mappings = Mappings {
            mapping: Points::of(alloc, mapping)?,
            upper: first_of(self.lists.uppers.get(c)),
            lower: first_of(self.lists.lowers.get(c)),
            title: first_of(self.lists.titles.get(c)),
            cases: self.cases.copied_cases_at(alloc, c)?,
        };
        Ok(Some(PackedMappings::boxed(alloc, mappings)?))
    }

    /// A code point up to which the same is kept beside the words from `c` on. Decomposition mappings are the same up
    /// to `mapping`. Below `bare` code points have no more than that, and nothing is looked up.
    pub fn last_alike_rest(&self, c: Point, bare: u32, mapping: Point) -> Point
        requires bare { AreBare self.now c bare }
        requires bound { bare ≤ 1114112 }
        requires mapping { HoldsTo
            (λ d. (rest_in self.now d).mapping ≡ (rest_in self.now c).mapping) c mapping }
        ensures { HoldsTo (λ d. rest_in self.now d ≡ rest_in self.now c) c result }
    {
        if c.number() < bare {
            return lesser(mapping, point(bare - 1));
        }
        lesser(mapping, self.last_alike_casing(c))
    }

    /// A code point up to which simple mappings and images are the same from `c` on.
    fn last_alike_casing(&self, c: Point) -> Point
        ensures { HoldsTo (λ d. others_in self.now d ≡ others_in self.now c) c result }
    {
        let simple = self.last_alike_simple(c);
        if simple.number() == c.number() {
            return c;
        }
        lesser(simple, self.cases.last_alike(c))
    }

    /// A code point up to which the mappings that rows of UnicodeData.txt give are the same from `c` on.
    pub fn last_alike_lists(&self, c: Point) -> Point
        ensures mapping { HoldsTo
            (λ d. lists_now self.now.lists.value.mappings d
            ≡ lists_now self.now.lists.value.mappings c)
            c result }
        ensures upper { HoldsTo
            (λ d. lists_now self.now.lists.value.uppers d
            ≡ lists_now self.now.lists.value.uppers c)
            c result }
        ensures lower { HoldsTo
            (λ d. lists_now self.now.lists.value.lowers d
            ≡ lists_now self.now.lists.value.lowers c)
            c result }
        ensures title { HoldsTo
            (λ d. lists_now self.now.lists.value.titles d
            ≡ lists_now self.now.lists.value.titles c)
            c result }
    {
        let mapping = self.lists.mappings.last_of_run(c);
        lesser(mapping, self.last_alike_simple(c))
    }

    /// A code point up to which simple mappings are the same from `c` on.
    fn last_alike_simple(&self, c: Point) -> Point
        ensures upper { HoldsTo
            (λ d. lists_now self.now.lists.value.uppers d
            ≡ lists_now self.now.lists.value.uppers c)
            c result }
        ensures lower { HoldsTo
            (λ d. lists_now self.now.lists.value.lowers d
            ≡ lists_now self.now.lists.value.lowers c)
            c result }
        ensures title { HoldsTo
            (λ d. lists_now self.now.lists.value.titles d
            ≡ lists_now self.now.lists.value.titles c)
            c result }
    {
        let upper = self.lists.uppers.last_of_run(c);
        let lower = self.lists.lowers.last_of_run(c);
        let title = self.lists.titles.last_of_run(c);
        lesser(lesser(upper, lower), title)
    }

    /// A number up to which code points from `c` on have no more than a decomposition mapping; `c` itself if it has more.
    pub fn bare_until(&self, c: Point) -> u32
        ensures bare { AreBare self.now c result }
        ensures bound { result ≤ 1114112 }
    {
        if self.is_bare(c) {
            self.last_alike_casing(c).number() + 1
        } else {
            c.number()
        }
    }

    /// Whether a code point has no more than a decomposition mapping.
    fn is_bare(&self, c: Point) -> bool
        ensures { IsTrue result → IsBare self.now c }
    {
        self.lists.uppers.get(c).is_empty()
            && self.lists.lowers.get(c).is_empty()
            && self.lists.titles.get(c).is_empty()
            && self.cases.has_none(c)
    }
}

/// What is kept of a code point that has no more than this decomposition mapping; `None` if it is empty.
///
/// - `Memory`: memory ran out.
fn bare_rest(alloc: Global, mapping: &[Point]) -> Result<Option<PackedMappings>, Memory>
    ensures { IfOk result (λ rest. MatchOption rest (bare_with mapping.now ≡ no_rest)
        (λ kept. kept ≡ bare_with mapping.now)) }
{
    if mapping.is_empty() {
        return Ok(None);
    }
    Ok(Some(PackedMappings::bare(alloc, mapping)?))
}

/// The first of the points, if there is one.
fn first_of(points: &[Point]) -> Option<Point>
    ensures { option_to_list result ≡ first_alone points.now }
{
    match points {
        [first, ..] => Some(*first),
        [] => None,
    }
}
