//! What the rows of other files than UnicodeData.txt add to the word of each code point.

ghost use Rattle.std.specs.Prelude.{◌≡◌, ℕ, ◌+◌, ◌<◌, ◌^◌, IfOk};
ghost use Rattle.std.specs.List.{list_any};
ghost use Rattle.range_table.specs.Values.{SameValues};
ghost use Rattle.release_rows.specs.ValuesApart.{AreValuesApart};
ghost use Rattle.range_table.specs.RunTable.{values_now};
ghost use Rattle.ucd_facts.specs.Facts.{Sources, within};
ghost use Rattle.code_facts.specs.RowLists.{sources_of};
ghost use Rattle.code_facts.specs.Marks.{mark_bit, marks_at};
ghost use Rattle.code_facts.specs.MarkRows.{IsMarked, KeepsMarkRows, is_flagged};

use crate::mark::{MARKS, Mark};
use crate::mark_rows::{Flagged, MarkRows};
use crate::row_lists::RowLists;
use fact_tables::{sum_of_tables, table_of_spans};
use range_table::{RunTable, Table};
use std::alloc::Global;
use ucd_facts::{Flag, Memory, Span};

/// The sum of the marks that these rows put on each code point. UAX #44, section 5.3; UAX #29, section 4.1.
///
/// - `Memory`: memory ran out.
pub fn binary_facts(alloc: Global, rows: &RowLists<'_>) -> Result<RunTable<u64>, Memory>
    requires { AreValuesApart rows.now.word_break.items }
    ensures { IfOk result (λ table. SameValues (values_now table)
        (marks_at (sources_of rows.now))) }
{
    let spans = MarkRows::of(alloc, rows)?;
    let mut table = RunTable::filled(alloc, 0)?;
    'marks: for place in 0..MARKS {
        table = with_mark(alloc, table, &spans, Mark::at(place))?;
    }
    Ok(table)
}

/// The sum with one more mark. It takes no time if no row puts the mark.
fn with_mark(
    alloc: Global,
    table: RunTable<u64>,
    rows: &MarkRows,
    mark: Mark,
) -> Result<RunTable<u64>, Memory>
    requires { (c : ℕ) → c < 1114112 → values_now table c < 2 ^ 63 }
    ensures { (sources : Sources) → KeepsMarkRows rows.now sources
        → IfOk result (λ sum. SameValues (values_now sum)
        (λ c. values_now table c + mark_bit sources mark c)) }
{
    let spans = spans_of(alloc, rows, mark)?;
    if spans.is_empty() {
        return Ok(table);
    }
    let one = table_of_spans(alloc, spans, mark.word_bit())?;
    sum_of_tables(alloc, &table, &one)
}

/// The spans on which rows put a mark.
fn spans_of(alloc: Global, rows: &MarkRows, mark: Mark) -> Result<Vec<Span>, Memory>
    ensures { (sources : Sources) → KeepsMarkRows rows.now sources
        → IfOk result (λ spans. IsMarked mark spans.items sources) }
{
    match mark {
        Mark::Excluded => Ok(Vec::from_slice(alloc, &rows.excluded)?),
        Mark::MidWord => Ok(Vec::from_slice(alloc, &rows.mid_word)?),
        Mark::Flagged(flag) => flag_spans(alloc, &rows.flagged, flag),
    }
}

/// The spans of a flag.
fn flag_spans(alloc: Global, flagged: &[Flagged], flag: Flag) -> Result<Vec<Span>, Memory>
    ensures { IfOk result (λ spans. (c : ℕ)
        → list_any (within c) spans.items ≡ list_any (is_flagged flag c) flagged.now) }
{
    let mut spans = Vec::new(alloc);
    'flagged: for row in flagged {
        if row.flag as u32 == flag as u32 {
            spans.push(row.span)?;
        }
    }
    Ok(spans)
}
