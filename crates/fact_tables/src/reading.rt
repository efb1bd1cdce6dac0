//! Reading the facts of tables, now or next.

ghost use Rattle.std.specs.Prelude.{◌≡◌};
ghost use Rattle.ucd_facts.specs.Sets.{has_flag};
ghost use Rattle.ucd_facts.specs.Shown.{image_shown, shown_facts};
ghost use Rattle.ucd_facts.specs.Unmapped.{is_unchanged_by_casing};
ghost use Rattle.fact_tables.specs.FactTables.{words_at, rests_at, facts_at};

use crate::fact_tables::FactTables;
use crate::images::{folding, simple_folding};
use crate::now_or_next::NowOrNext;
use crate::packed_mappings::PackedMappings;
use crate::word::{category_of, class_of, flags_of, is_assigned, kind_of};
use crate::word_facts::facts_of_word;
use point_store::Store;
use range_table::Table;
use ucd_facts::{Category, FactsRef, Flags, Kind, Point};

impl<T: Table<u64>> FactTables<T> {
    /// The packed word of a code point.
    pub(crate) fn word(&self, version: NowOrNext, c: Point) -> u64
        ensures { result ≡ words_at version self.now c }
    {
        match version {
            NowOrNext::Now => self.words.get(c),
            NowOrNext::Next => self.words.get_next(c),
        }
    }

    /// The mappings of a code point, which are kept beside its packed word.
    pub(crate) fn rest(&self, version: NowOrNext, c: Point) -> &PackedMappings
        ensures { result.now ≡ rests_at version self.now c }
    {
        match version {
            NowOrNext::Now => self.rests.get(c),
            NowOrNext::Next => self.rests.get_next(c),
        }
    }

    /// The facts of a code point.
    pub(crate) fn facts_in(&self, version: NowOrNext, c: Point) -> FactsRef<'_>
        ensures { shown_facts result ≡ facts_at version self.now c }
    {
        let _number = c.number();
        facts_of_word(c, self.word(version, c), self.rest(version, c))
    }

    /// Whether a row of UnicodeData.txt covers a code point.
    pub(crate) fn is_assigned_in(&self, version: NowOrNext, c: Point) -> bool
        ensures { result ≡ (facts_at version self.now c).assigned }
    {
        let _number = c.number();
        is_assigned(self.word(version, c))
    }

    /// The canonical combining class of a code point.
    pub(crate) fn class_in(&self, version: NowOrNext, c: Point) -> u8
        ensures { result ≡ (facts_at version self.now c).class }
    {
        let _number = c.number();
        class_of(self.word(version, c))
    }

    /// The kind of the mapping of a code point.
    pub(crate) fn kind_in(&self, version: NowOrNext, c: Point) -> Kind
        ensures { result ≡ (facts_at version self.now c).kind }
    {
        let _number = c.number();
        kind_of(self.word(version, c))
    }

    /// The mapping of a code point.
    pub(crate) fn mapping_in(&self, version: NowOrNext, c: Point) -> &[Point]
        ensures { result.now ≡ (facts_at version self.now c).mapping }
    {
        let _number = c.number();
        self.rest(version, c).mapping()
    }

    /// The category of a code point.
    pub(crate) fn category_in(&self, version: NowOrNext, c: Point) -> Category
        ensures { result ≡ (facts_at version self.now c).category }
    {
        let _number = c.number();
        category_of(self.word(version, c))
    }

    /// Which of the properties in `Flag` a code point has.
    pub(crate) fn flags_in(&self, version: NowOrNext, c: Point) -> Flags
        ensures { has_flag result ≡ (facts_at version self.now c).flag }
    {
        let _number = c.number();
        flags_of(self.word(version, c))
    }

    /// The full folding of a code point; `None` for the point itself alone.
    pub(crate) fn folding_in(&self, version: NowOrNext, c: Point) -> Option<&[Point]>
        ensures { image_shown result ≡ (facts_at version self.now c).fold }
    {
        let _number = c.number();
        let rest = self.rest(version, c);
        folding(c, rest.full_folding(), rest.common_folding())
    }

    /// The simple folding of a code point.
    pub(crate) fn simple_folding_in(&self, version: NowOrNext, c: Point) -> Point
        ensures { result ≡ (facts_at version self.now c).simple_fold }
    {
        let _number = c.number();
        let rest = self.rest(version, c);
        simple_folding(c, rest.simple_folding(), rest.common_folding())
    }

    /// Whether a code point is its own image by each full case mapping, and by the folding. One that has no more than a
    /// decomposition mapping, as most have, is so at once.
    pub(crate) fn is_unchanged_by_casing_in(&self, version: NowOrNext, c: Point) -> bool
        ensures { result ≡ is_unchanged_by_casing (facts_at version self.now c) }
    {
        let _number = c.number();
        match self.rest(version, c).bare_mapping() {
            Some(_) => true,
            None => self.facts_in(version, c).is_unchanged_by_casing(),
        }
    }
}
