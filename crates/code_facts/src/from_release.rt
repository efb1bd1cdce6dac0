//! Facts that are made of the rows of a release.

ghost use Rattle.std.specs.Prelude.{◌≡◌, ℕ, ◌<◌, false, IfOk, OnOk, OnErr};
ghost use Rattle.std.specs.List.{list_any};
ghost use Rattle.ucd_facts.specs.Facts.{Facts, facts, within};
ghost use Rattle.release_rows.specs.Releases.{rows_now, rows_next};
ghost use Rattle.release_rows.specs.Touching.{meets};
ghost use Rattle.fact_tables.specs.FactTables.{tables_facts, tables_next};
ghost use Rattle.code_facts.specs.Locality.{rows_within};
ghost use Rattle.code_facts.specs.RowTables.{ShowsRows};

use crate::row_lists::RowLists;
use crate::row_tables::row_tables;
use fact_tables::{FactTables, RowTables, disjoint_spans};
use range_table::Table;
use release_rows::{Release, speaking_rows_meet_spans};
use std::alloc::Global;
use ucd_facts::{Memory, Span, Spans};

/// Facts, now and next, that are made of the rows of a release.
pub trait FromRelease: Sized {
    // the facts of each code point now, and next
    ghost now: { Self → ℕ → Facts };

    ghost next: { Self → ℕ → Facts };

    /// The facts of the rows of a release now; next they are the same. UAX #44, sections 5.3, 5.6 and 5.7.
    ///
    /// It takes time in proportion to the number of rows, and to its logarithm: no work is done for each code point of
    /// a span, except for Hangul syllables, each of which has a mapping of its own, and for canonical mappings of two
    /// members. If a missing row gives a Word_Break value in the middle of a word, each row of WordBreakProperty.txt
    /// also takes time in proportion to the blocks of 256 code points of its span.
    /// Room that no value takes up is given back at the end.
    ///
    /// - `Memory`: memory ran out.
    fn of(alloc: Global, release: &Release) -> Result<Self, Memory>
        ensures now { IfOk result (λ tables. now tables ≡ facts (rows_now release.now)) }
        ensures next { IfOk result (λ tables. next tables ≡ facts (rows_now release.now)) };

    /// Makes what is next the facts of the rows of a release next. Outside of the touched spans those are the facts
    /// now. If none is touched, nothing is done. Otherwise the rows that speak of a touched code point are read; only
    /// the bounds of every other row are compared. Spans that overlap or touch are joined first, so that each code
    /// point is gone through once.
    ///
    /// - `Memory`: memory ran out. What is next stays.
    fn prepare(&mut self, alloc: Global, after: &Release, touched: &Spans) -> Result<(), Memory>
        requires ready { next self.old ≡ now self.old }
        requires touched { (c : ℕ) → c < 1114112 → list_any (within c) touched.now ≡ false
            → now self.old c ≡ facts (rows_next after.now) c }
        ensures now { now self.new ≡ now self.old }
        ensures ok { OnOk result (next self.new ≡ facts (rows_next after.now)) }
        ensures err { OnErr result (next self.new ≡ next self.old) };
}

impl<T: Table<u64>> FromRelease for FactTables<T> {
    ghost now = { tables_facts T.now };

    ghost next = { tables_next T.now };

    fn of(alloc: Global, release: &Release) -> Result<FactTables<T>, Memory> {
        let made = tables_of(alloc, release)?;
        let tables = FactTables::filled(alloc, &made)?;
        Ok(tables)
    }

    fn prepare(&mut self, alloc: Global, after: &Release, touched: &Spans) -> Result<(), Memory> {
        if touched.as_slice().is_empty() {
            return Ok(());
        }
        speaking_rows_meet_spans();
        let spans = disjoint_spans(alloc, touched.as_slice())?;
        let made = next_tables_touching(alloc, after, spans.as_slice())?;
        self.refill(alloc, &made, spans.as_slice())
    }
}

/// The tables of the rows of a release now.
///
/// - `Memory`: memory ran out.
fn tables_of(alloc: Global, release: &Release) -> Result<RowTables, Memory>
    ensures { IfOk result (λ made. (c : ℕ) → c < 1114112
        → ShowsRows made (rows_now release.now) c) }
{
    let rows = RowLists::of(alloc, release)?;
    let made = row_tables(alloc, &rows)?;
    Ok(made)
}

/// The tables of the rows of a release next that speak of a code point in some of the spans.
///
/// - `Memory`: memory ran out.
fn next_tables_touching(
    alloc: Global,
    release: &Release,
    spans: &[Span],
) -> Result<RowTables, Memory>
    ensures { IfOk result (λ made. (c : ℕ) → c < 1114112
        → ShowsRows made (rows_within (meets spans.now) (rows_next release.now)) c) }
{
    let rows = RowLists::next_touching(alloc, release, spans)?;
    let made = row_tables(alloc, &rows)?;
    Ok(made)
}
