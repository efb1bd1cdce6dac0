//! Writes one row.

ghost use Rattle.std.specs.Prelude.{◌≡◌, IfOk};
ghost use Rattle.ucd_facts.specs.RowTexts.{row_text};
ghost use Rattle.ucd_facts.specs.RowValues.{RowOk};

use crate::put_data::put_data;
use crate::put_rows::{put_casing, put_fold, put_missing, put_names, put_value};
use std::alloc::Global;
use ucd_facts::{Memory, Row, SourceFile, Text};
use ucd_lines::put_span;

/// The text of a row, which [`read_row`](crate::read_row) reads as the same row. For a range it is two lines with LF
/// between them; no other text holds a LF.
///
/// - `Memory`: memory ran out.
pub fn row_text(alloc: Global, file: SourceFile, row: &Row) -> Result<Text, Memory>
    requires { RowOk file row.now }
    ensures { IfOk result (λ text. text ≡ row_text file row.now) }
{
    let _ = file;
    let mut text = Text::new(alloc);
    match row {
        Row::Unit(row) => put_data(alloc, row, &mut text)?,
        Row::Value(row) => put_value(row, &mut text)?,
        Row::Exclusion(row) => put_span(row.span, &mut text)?,
        Row::Fold(row) => put_fold(row, &mut text)?,
        Row::Casing(row) => put_casing(row, &mut text)?,
        Row::Alias(row) => put_names(row.names.as_slice(), &mut text)?,
        Row::Missing(row) => put_missing(row, &mut text)?,
    }
    Ok(text)
}
