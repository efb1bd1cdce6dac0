//! The tables as a view of facts now.

ghost use Rattle.std.specs.Prelude.{◌≡◌};
ghost use Rattle.fact_tables.specs.FactTables.{tables_facts};
ghost use Rattle.fact_tables.specs.NowView.{facts_now};

use crate::fact_tables::FactTables;
use crate::now_or_next::NowOrNext;
use range_table::Table;
use ucd_facts::{Category, FactView, FactsRef, Flags, Kind, Point};

/// The facts of code points now.
#[derive(Clone, Copy)]
pub struct NowView<'a, T: Table<u64>> {
    tables: &'a FactTables<T>,
}

impl<T: Table<u64>> FactView for FactTables<T> {
    ghost facts_of = { tables_facts T.now };

    fn facts(&self, c: Point) -> FactsRef<'_> {
        self.facts_in(NowOrNext::Now, c)
    }

    fn pair(&self, s: Point, y: Point) -> Option<Point> {
        self.composite(NowOrNext::Now, s, y)
    }

    fn second(&self, y: Point) -> bool {
        self.is_second(NowOrNext::Now, y)
    }

    fn is_assigned(&self, c: Point) -> bool {
        self.is_assigned_in(NowOrNext::Now, c)
    }

    fn class(&self, c: Point) -> u8 {
        self.class_in(NowOrNext::Now, c)
    }

    fn kind(&self, c: Point) -> Kind {
        self.kind_in(NowOrNext::Now, c)
    }

    fn mapping(&self, c: Point) -> &[Point] {
        self.mapping_in(NowOrNext::Now, c)
    }

    fn category(&self, c: Point) -> Category {
        self.category_in(NowOrNext::Now, c)
    }

    fn flags(&self, c: Point) -> Flags {
        self.flags_in(NowOrNext::Now, c)
    }

    fn folding(&self, c: Point) -> Option<&[Point]> {
        self.folding_in(NowOrNext::Now, c)
    }

    fn simple_folding(&self, c: Point) -> Point {
        self.simple_folding_in(NowOrNext::Now, c)
    }

    fn is_unchanged_by_casing(&self, c: Point) -> bool {
        self.is_unchanged_by_casing_in(NowOrNext::Now, c)
    }
}

impl<T: Table<u64>> FactTables<T> {
    /// The facts now, as a view.
    pub fn now(&self) -> NowView<'_, T>
        ensures { facts_now T.now result ≡ tables_facts T.now self.now }
    {
        NowView { tables: self }
    }
}

impl<T: Table<u64>> FactView for NowView<'_, T> {
    ghost facts_of = { facts_now T.now };

    fn facts(&self, c: Point) -> FactsRef<'_> {
        self.tables.facts(c)
    }

    fn pair(&self, s: Point, y: Point) -> Option<Point> {
        self.tables.pair(s, y)
    }

    fn second(&self, y: Point) -> bool {
        self.tables.second(y)
    }

    fn is_assigned(&self, c: Point) -> bool {
        self.tables.is_assigned(c)
    }

    fn class(&self, c: Point) -> u8 {
        self.tables.class(c)
    }

    fn kind(&self, c: Point) -> Kind {
        self.tables.kind(c)
    }

    fn mapping(&self, c: Point) -> &[Point] {
        self.tables.mapping(c)
    }

    fn category(&self, c: Point) -> Category {
        self.tables.category(c)
    }

    fn flags(&self, c: Point) -> Flags {
        self.tables.flags(c)
    }

    fn folding(&self, c: Point) -> Option<&[Point]> {
        self.tables.folding(c)
    }

    fn simple_folding(&self, c: Point) -> Point {
        self.tables.simple_folding(c)
    }

    fn is_unchanged_by_casing(&self, c: Point) -> bool {
        self.tables.is_unchanged_by_casing(c)
    }
}
