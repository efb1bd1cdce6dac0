//! Reads what is kept of a row while its file is loaded.

ghost use Rattle.std.specs.Prelude.{◌≡◌, ◌≤◌, Ok};
ghost use Rattle.ucd_facts.specs.RowValues.{RowOk};
ghost use Rattle.source_rows.specs.Faults.{row_or_fault};
ghost use Rattle.source_rows.specs.Keys.{row_span};
ghost use Rattle.source_rows.specs.RowRefs.{row_in};
ghost use Rattle.release_rows.specs.LoadedRows.{EntersAs};
ghost use Rattle.release_rows.specs.Keys.{row_end};

use crate::brief::Brief;
use crate::loaded_row::LoadedRow;
use crate::row_key::{has_spans, key_names_text};
use crate::sort_key::SortKey;
use source_rows::{
    FieldsCache, RowRef, RowStop, possible_rows_are_readable, read_point_values_with_cache,
    read_row_ref, rows_are_read,
};
use std::alloc::Global;
use ucd_facts::SourceFile;

/// The first and the last code point of a row. A row of names has none, which 0 stands for.
fn row_points(row: &RowRef<'_>) -> (u32, u32)
    ensures first { result.0 ≡ (row_span (row_in row.now)).lo }
    ensures last { result.1 ≡ (row_span (row_in row.now)).hi }
    ensures ordered { result.0 ≤ result.1 }
{
    match row {
        RowRef::Unit(text) => (text.span.first(), text.span.last()),
        RowRef::Value(text) => (text.span.first(), text.span.last()),
        RowRef::Exclusion(row) => (row.span.first(), row.span.last()),
        RowRef::Fold(text) => (text.code.number(), text.code.number()),
        RowRef::Casing(text) => (text.code.number(), text.code.number()),
        RowRef::Alias(_) => (0, 0),
        RowRef::Missing(text) => (text.span.first(), text.span.last()),
    }
}

/// The first code point of a row, and the last one that no other row may have: for a missing row, the first.
fn row_extent(file: SourceFile, row: &RowRef<'_>) -> (u32, u32)
    ensures first { result.0 ≡ (row_span (row_in row.now)).lo }
    ensures last { result.1 ≡ row_end file (row_in row.now) }
    ensures ordered { result.0 ≤ result.1 }
{
    let (first, last) = row_points(row);
    if has_spans(file) && !matches!(row, RowRef::Missing(_)) {
        (first, last)
    } else {
        (first, first)
    }
}

/// What is kept of a row.
fn loaded_row_of(alloc: Global, file: SourceFile, row: RowRef<'_>) -> Result<LoadedRow, RowStop>
    requires { RowOk file (row_in row) }
    ensures { EntersAs file result (Ok (row_in row.entry)) }
{
    let (code, last) = row_extent(file, &row);
    let (_, reach) = row_points(&row);
    let brief = Brief::of_row_ref(&row);
    let names = key_names_text(alloc, file, row)?;
    Ok(LoadedRow {
        place: SortKey { names, code },
        last,
        reach,
        brief,
    })
}

/// What is kept of a row of any file. Only the texts of its key are copied.
fn load_other_row(alloc: Global, file: SourceFile, content: &[u8]) -> Result<LoadedRow, RowStop>
    ensures { EntersAs file result (row_or_fault file content.now) }
{
    rows_are_read();
    possible_rows_are_readable();
    match read_row_ref(file, content) {
        Ok(row) => loaded_row_of(alloc, file, row),
        Err(fault) => Err(RowStop::Fault(fault)),
    }
}

/// What is kept of a row of UnicodeData.txt. Its texts are not copied.
fn load_data_row<'a>(
    alloc: Global,
    content: &'a [u8],
    above: &mut FieldsCache<'a>,
) -> Result<LoadedRow, RowStop>
    ensures { EntersAs SourceFile.UnicodeData result
        (row_or_fault SourceFile.UnicodeData content.now) }
{
    let given = read_point_values_with_cache(content, above)?;
    Ok(LoadedRow {
        place: SortKey {
            names: Vec::new(alloc),
            code: given.span.first(),
        },
        last: given.span.last(),
        reach: given.span.last(),
        brief: Brief::of_values(&given.values),
    })
}

/// What is kept of the row of a content. What the last row of UnicodeData.txt above gave is not read again.
///
/// - `Fault(fault)`: the content is no row, and `fault` is the first rule that it breaks.
/// - `Memory`: memory ran out.
pub fn load_row<'a>(
    alloc: Global,
    file: SourceFile,
    content: &'a [u8],
    above: &mut FieldsCache<'a>,
) -> Result<LoadedRow, RowStop>
    ensures { EntersAs file result (row_or_fault file content.now) }
{
    match file {
        SourceFile::UnicodeData => load_data_row(alloc, content, above),
        _ => load_other_row(alloc, file, content),
    }
}
