//! The rows that speak of code points in spans.

ghost use Rattle.std.specs.Prelude.{◌≡◌, [], ◌++◌, filter, map, IfOk, OnOk};
ghost use Rattle.std.specs.List.{All};
ghost use Rattle.part_list.specs.Parts.{next_in};
ghost use Rattle.release_rows.specs.FileItems.{onto_rows, rows_in};
ghost use Rattle.release_rows.specs.StoredItems.{stored_at, IsStored};
ghost use Rattle.release_rows.specs.Touching.{meets};

use crate::meeting::Meeting;
use crate::op_spans::has_code;
use crate::row_text::RowText;
use crate::span_order::SpanOrder;
use crate::stored_item::{StoredItem, content_in};
use part_list::{Entry, PartList, Passing};
use source_rows::{possible_rows_are_readable, rows_are_read};
use std::alloc::Global;
use ucd_facts::{Memory, SourceFile, Span};
use ucd_lines::is_trivia;

/// Puts the row of an entry at the end, if it is no line of trivia.
///
/// - `Memory`: memory ran out.
fn put_row<'a>(
    rows: &mut Vec<RowText<'a>>,
    file: SourceFile,
    text: &'a [u8],
    entry: &Entry<StoredItem>,
) -> Result<(), Memory>
    requires { IsStored file text.now entry.now }
    ensures { OnOk result (rows.new.items ≡ rows.old.items
        ++ onto_rows (stored_at file text.now entry.now).row []) }
{
    let content = content_in(text, entry.item);
    if is_trivia(file, content) {
        return Ok(());
    }
    rows.push(RowText::new(file, content, entry))?;
    Ok(())
}

/// The rows of entries that pass, in order.
///
/// - `Memory`: memory ran out.
fn passing_rows<'a>(
    alloc: Global,
    file: SourceFile,
    text: &'a [u8],
    mut items: Passing<'_, StoredItem, Meeting<'_>>,
) -> Result<Vec<RowText<'a>>, Memory>
    requires { All (IsStored file text.now) items }
    ensures { IfOk result (λ rows. rows.items
        ≡ rows_in (map (stored_at file text.now) items.entry)) }
{
    let mut rows = Vec::new(alloc);
    'items: while let Some(entry) = items.next() {
        put_row(&mut rows, file, text, &entry)?;
    }
    Ok(rows)
}

/// The rows of the entries next that speak of a code point in some of the spans, in order. It looks at no entry of a
/// part whose bounds meet no span.
///
/// - `Memory`: memory ran out.
pub fn next_rows_touching<'a>(
    alloc: Global,
    file: SourceFile,
    text: &'a [u8],
    items: &PartList<StoredItem>,
    spans: &[Span],
) -> Result<Vec<RowText<'a>>, Memory>
    requires { All (IsStored file text.now) (next_in items.now) }
    ensures { IfOk result (λ rows. rows.items
        ≡ filter (meets spans.now)
        (rows_in (map (stored_at file text.now) (next_in items.now)))) }
{
    rows_are_read();
    possible_rows_are_readable();
    if !has_code(file) {
        return Ok(Vec::new(alloc));
    }
    let order = SpanOrder::new(alloc, spans)?;
    let meeting = Meeting { spans: &order };
    passing_rows(alloc, file, text, items.passing(&meeting))
}
