//! The tables as a view of facts next.

ghost use Rattle.std.specs.Prelude.{◌≡◌};
ghost use Rattle.fact_tables.specs.FactTables.{tables_next};
ghost use Rattle.fact_tables.specs.NextView.{facts_next};

use crate::fact_tables::FactTables;
use crate::now_or_next::NowOrNext;
use range_table::Table;
use ucd_facts::{Category, FactView, FactsRef, Flags, Kind, Point};

/// The facts of code points next.
#[derive(Clone, Copy)]
pub struct NextView<'a, T: Table<u64>> {
    tables: &'a FactTables<T>,
}

impl<T: Table<u64>> FactTables<T> {
    /// The facts next, as a view.
    pub fn next(&self) -> NextView<'_, T>
        ensures { facts_next T.now result ≡ tables_next T.now self.now }
    {
        NextView { tables: self }
    }
}

impl<T: Table<u64>> FactView for NextView<'_, T> {
    ghost facts_of = { facts_next T.now };

    fn facts(&self, c: Point) -> FactsRef<'_> {
        self.tables.facts_in(NowOrNext::Next, c)
    }

    fn pair(&self, s: Point, y: Point) -> Option<Point> {
        self.tables.composite(NowOrNext::Next, s, y)
    }

    fn second(&self, y: Point) -> bool {
        self.tables.is_second(NowOrNext::Next, y)
    }

    fn is_assigned(&self, c: Point) -> bool {
        self.tables.is_assigned_in(NowOrNext::Next, c)
    }

    fn class(&self, c: Point) -> u8 {
        self.tables.class_in(NowOrNext::Next, c)
    }

    fn kind(&self, c: Point) -> Kind {
        self.tables.kind_in(NowOrNext::Next, c)
    }

    fn mapping(&self, c: Point) -> &[Point] {
        self.tables.mapping_in(NowOrNext::Next, c)
    }

    fn category(&self, c: Point) -> Category {
        self.tables.category_in(NowOrNext::Next, c)
    }

    fn flags(&self, c: Point) -> Flags {
        self.tables.flags_in(NowOrNext::Next, c)
    }

    fn folding(&self, c: Point) -> Option<&[Point]> {
        self.tables.folding_in(NowOrNext::Next, c)
    }

    fn simple_folding(&self, c: Point) -> Point {
        self.tables.simple_folding_in(NowOrNext::Next, c)
    }

    fn is_unchanged_by_casing(&self, c: Point) -> bool {
        self.tables.is_unchanged_by_casing_in(NowOrNext::Next, c)
    }
}
