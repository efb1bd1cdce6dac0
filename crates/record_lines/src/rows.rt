//! The rows of a release that speak of code points, as they stand in their files.

ghost use Rattle.std.specs.Prelude.{◌≡◌, [], ◌∷◌, map, IfOk, OnOk};
ghost use Rattle.std.specs.List.{list_any};
ghost use Rattle.ucd_points.specs.Bounds.{within};
ghost use Rattle.ucd_points.specs.Lines.{contents};
ghost use Rattle.release_rows.specs.OperationLaws.{speaks_of};
ghost use Rattle.release_rows.specs.Releases.{items_now};
ghost use Rattle.source_rows.specs.Keys.{row_span};
ghost use Rattle.source_rows.specs.RowRefs.{row_in};
ghost use Rattle.record_lines.specs.FileLines.{place_lines};
ghost use Rattle.record_lines.specs.PointTexts.{with_more};
ghost use Rattle.record_lines.specs.RowLines.{file_rows_text, if_speaks, is_range, place_of, rows_lines, rows_text};
ghost use Rattle.record_lines.specs.declared.point_text.PointText.{PointText as Told};

use crate::file_lines::put_row_lines;
use crate::line_finder::LineFinder;
use crate::point_text::PointText;
use crate::row_place::RowPlace;
use release_rows::{Release, RowText, Rows};
use source_rows::RowRef;
use std::alloc::Global;
use ucd_model::{Memory, Point, SourceFile, Span, Text};

/// Puts the rows of a release now that speak of code points after what is put of each of them, file by file: where the file lies
/// below the folder of a release, ` line `, the number of the line, `: `, and the line as it stands there. A range has two lines.
/// Missing rows are among them; rows of names are not. UAX #44, section 4.2.
///
/// One pass over the rows of the nine files, and one over their lines, serves all code points. Only rows of these are read.
///
/// - `Memory`: memory ran out. A part of the rows may have been put then.
pub fn put_rows(alloc: Global, release: &Release, told: &mut [PointText]) -> Result<(), Memory>
    ensures { OnOk result (told.new ≡ map (with_more (rows_text release.now.current)) told.old) }
{
    'files: for file in SourceFile::all() {
        put_file_rows(alloc, release, *file, told)?;
    }
    Ok(())
}

/// Puts the rows of a file.
///
/// - `Memory`: memory ran out. A part of them may have been put then.
fn put_file_rows(
    alloc: Global,
    release: &Release,
    file: SourceFile,
    told: &mut [PointText],
) -> Result<(), Memory>
    ensures { OnOk result (told.new
        ≡ map (with_more (file_rows_text (items_now release.now file) file)) told.old) }
{
    if let Some(bytes) = release.whole_text(file) {
        return put_lines_of_rows(alloc, file, bytes, release.rows(file), told);
    }
    let bytes = release.text(alloc, file)?;
    put_lines_of_rows(alloc, file, bytes.as_slice(), release.rows(file), told)
}

/// Puts the lines of rows of a file with these bytes.
///
/// - `Memory`: memory ran out. A part of them may have been put then.
fn put_lines_of_rows(
    alloc: Global,
    file: SourceFile,
    bytes: &[u8],
    rows: Rows<'_>,
    told: &mut [PointText],
) -> Result<(), Memory>
    ensures { OnOk result (told.new
        ≡ map (with_more (rows_lines file (contents bytes.now) rows.entry)) told.old) }
{
    let mut left = rows;
    let mut lines = LineFinder::new(bytes);
    'rows: while let Some((line, row)) = left.next() {
        put_row(alloc, file, line, &row, &mut lines, told)?;
    }
    Ok(())
}

/// Puts the lines of a row behind what is told of the code points of which it speaks.
///
/// - `Memory`: memory ran out. A part of them may have been put then.
fn put_row(
    alloc: Global,
    file: SourceFile,
    line: u64,
    row: &RowText<'_>,
    lines: &mut LineFinder<'_>,
    told: &mut [PointText],
) -> Result<(), Memory>
    ensures told { OnOk result (told.new
        ≡ map (with_more (rows_lines file lines.old.lines ((line, row.now) ∷ []))) told.old) }
    ensures same { lines.new.lines ≡ lines.old.lines }
{
    if !covers_any(row, told) {
        return Ok(());
    }
    let row = row.row();
    let text = lines_of(alloc, file, line, &row, lines)?;
    put_lines_by_point(&row, text.as_slice(), told)
}

/// The lines of a row, each with where it stands.
///
/// - `Memory`: memory ran out.
fn lines_of(
    alloc: Global,
    file: SourceFile,
    line: u64,
    row: &RowRef<'_>,
    lines: &mut LineFinder<'_>,
) -> Result<Text, Memory>
    ensures text { IfOk result (λ text. text
        ≡ place_lines file lines.old.lines (place_of (line, row_in row.now))) }
    ensures same { lines.new.lines ≡ lines.old.lines }
{
    let mut text = Text::new(alloc);
    let range = is_range(row);
    put_row_lines(alloc, file, lines, RowPlace { line, range }, &mut text)?;
    Ok(text)
}

/// Whether a row covers one of the code points.
fn covers_any(row: &RowText<'_>, told: &[PointText]) -> bool
    ensures { result ≡ list_any (λ (one : Told). within one.point (row_span row.now)) told.now }
{
    told.iter().any(|one| row.covers(one.point))
}

/// Puts the lines of a row behind what is told of the code points of which it speaks.
///
/// - `Memory`: memory ran out. They may have been put at some of them then.
fn put_lines_by_point(row: &RowRef<'_>, lines: &[u8], told: &mut [PointText]) -> Result<(), Memory>
    ensures { OnOk result (told.new
        ≡ map (with_more (if_speaks (row_in row.now) lines.now)) told.old) }
{
    'told: for one in told.iter_mut() {
        if speaks_of(one.point, row) {
            one.text.append(lines)?;
        }
    }
    Ok(())
}

/// Whether a row speaks of a code point.
fn speaks_of(point: Point, row: &RowRef<'_>) -> bool
    ensures { result ≡ speaks_of point (row_in row.now) }
{
    match row {
        RowRef::Unit(row) => is_within(point, row.span),
        RowRef::Value(row) => is_within(point, row.span),
        RowRef::Exclusion(row) => is_within(point, row.span),
        RowRef::Fold(row) => row.code == point,
        RowRef::Casing(row) => row.code == point,
        RowRef::Alias(_) => false,
        RowRef::Missing(row) => is_within(point, row.span),
    }
}

/// Whether a row stands in two lines.
fn is_range(row: &RowRef<'_>) -> bool
    ensures { result ≡ is_range (row_in row.now) }
{
    match row {
        RowRef::Unit(row) => row.range,
        _ => false,
    }
}

/// Whether a code point lies in a span.
fn is_within(point: Point, span: Span) -> bool
    ensures { result ≡ within point span }
{
    span.first() <= point.number() && point.number() <= span.last()
}
