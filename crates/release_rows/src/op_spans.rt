//! What code points an operation touches.

ghost use Rattle.std.specs.Prelude.{◌≡◌, ◌<◌, ◌≤◌, ℕ, List, [], ◌∷◌, ◌++◌, true, is_some, IfOk};
ghost use Rattle.source_rows.specs.Keys.{code_number};
ghost use Rattle.source_rows.specs.KeyNames.{has_code};
ghost use Rattle.release_rows.specs.StoredItems.{IsStored, stored_at};
ghost use Rattle.release_rows.specs.Operations.{row_spans, spans_of};

use crate::stored_item::StoredItem;
use part_list::Entry;
use source_rows::{Key, possible_rows_are_readable, rows_are_read};
use std::alloc::Global;
use ucd_facts::{Memory, Point, Row, SourceFile, Span, Spans};

/// The code point of a key, as a number; 0 if it has none.
pub fn code_or_zero(key: &Key) -> u32
    ensures { result ≡ code_number key.now.code }
{
    match key.code {
        Some(code) => code.number(),
        None => 0,
    }
}

/// Whether the rows of a file have code points.
pub fn has_code(file: SourceFile) -> bool
    ensures { result ≡ has_code file }
{
    !matches!(
        file,
        SourceFile::PropertyAliases | SourceFile::PropertyValueAliases
    )
}

/// What a row speaks of; nothing for a row of names.
pub fn row_spans(alloc: Global, row: &Row) -> Result<Spans, Memory>
    ensures { IfOk result (λ spans. spans ≡ row_spans row.now) }
{
    let mut spans = Spans::new(alloc);
    if let Some(span) = row.span() {
        spans.push(span)?;
    }
    Ok(spans)
}

/// The code points from one to another, as a list of one span; no span if there are none.
fn one_span(alloc: Global, lo: u32, hi: u32) -> Result<Spans, Memory>
    ensures { lo ≤ hi → hi < 1114112
        → IfOk result (λ spans. spans ≡ record { lo = lo; hi = hi } ∷ []) }
{
    let mut spans = Spans::new(alloc);
    if let (Some(lo), Some(hi)) = (Point::new(lo), Point::new(hi))
        && let Some(span) = Span::new(lo, hi)
    {
        spans.push(span)?;
    }
    Ok(spans)
}

/// What the row of an entry speaks of; nothing for a row of names.
pub fn entry_spans(
    alloc: Global,
    file: SourceFile,
    entry: &Entry<StoredItem>,
) -> Result<Spans, Memory>
    ensures { (text : List ℕ) → IsStored file text entry.now
        → is_some (stored_at file text entry.now).row ≡ true
        → IfOk result (λ spans. spans ≡ spans_of (stored_at file text entry.now).row) }
{
    rows_are_read();
    possible_rows_are_readable();
    if !has_code(file) {
        return Ok(Spans::new(alloc));
    }
    one_span(alloc, entry.code, entry.last)
}

/// What the row of an entry speaks of, and then what the row speaks of that takes its place.
pub fn both_spans(
    alloc: Global,
    file: SourceFile,
    entry: &Entry<StoredItem>,
    row: &Row,
) -> Result<Spans, Memory>
    ensures { (text : List ℕ) → IsStored file text entry.now
        → is_some (stored_at file text entry.now).row ≡ true
        → IfOk result (λ spans. spans ≡ spans_of (stored_at file text entry.now).row
        ++ row_spans row.now) }
{
    let mut spans = entry_spans(alloc, file, entry)?;
    let more = row_spans(alloc, row)?;
    spans.append(more.as_slice())?;
    Ok(spans)
}
