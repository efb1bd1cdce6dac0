//! Lines of a file, put with where they stand.

ghost use Rattle.std.specs.Prelude.{◌≡◌, ◌+◌, ◌++◌, Some, OnOk};
ghost use Rattle.record_lines.specs.FileLines.{line_text, numbered_line, place_lines};

use crate::line_finder::LineFinder;
use crate::row_place::RowPlace;
use std::alloc::Global;
use ucd_lines::put_decimal;
use ucd_model::{Memory, SourceFile, Text};

/// Puts the line of a row, or the two lines of a range.
///
/// - `Memory`: memory ran out. A part of them may stand at the end of the text then.
pub fn put_row_lines(
    alloc: Global,
    file: SourceFile,
    lines: &mut LineFinder<'_>,
    place: RowPlace,
    text: &mut Text,
) -> Result<(), Memory>
    ensures text { OnOk result (text.new ≡ text.old ++ place_lines file lines.old.lines place) }
    ensures same { lines.new.lines ≡ lines.old.lines }
{
    let number = place.line as usize;
    put_line(alloc, file, lines, number, text)?;
    if place.range {
        return put_line_after(alloc, file, lines, number, text);
    }
    Ok(())
}

/// Puts the line behind the one with this number, if there is one.
///
/// - `Memory`: memory ran out. A part of it may stand at the end of the text then.
fn put_line_after(
    alloc: Global,
    file: SourceFile,
    lines: &mut LineFinder<'_>,
    number: usize,
    text: &mut Text,
) -> Result<(), Memory>
    ensures text { OnOk result (text.new ≡ text.old
        ++ numbered_line file lines.old.lines (number + 1)) }
    ensures same { lines.new.lines ≡ lines.old.lines }
{
    // a file has no more lines than bytes
    if number >= lines.line_count_bound() {
        return Ok(());
    }
    put_line(alloc, file, lines, number + 1, text)
}

/// Puts the line with this number, if there is one.
///
/// - `Memory`: memory ran out. A part of it may stand at the end of the text then.
fn put_line(
    alloc: Global,
    file: SourceFile,
    lines: &mut LineFinder<'_>,
    number: usize,
    text: &mut Text,
) -> Result<(), Memory>
    ensures text { OnOk result (text.new ≡ text.old ++ numbered_line file lines.old.lines number) }
    ensures same { lines.new.lines ≡ lines.old.lines }
{
    match lines.line(number.saturating_sub(1)) {
        Some(content) => put_content(alloc, file, number, content, text),
        None => Ok(()),
    }
}

/// Puts a content with where it stands.
///
/// - `Memory`: memory ran out. A part of it may stand at the end of the text then.
fn put_content(
    alloc: Global,
    file: SourceFile,
    number: usize,
    content: &[u8],
    text: &mut Text,
) -> Result<(), Memory>
    ensures { OnOk result (text.new ≡ text.old ++ line_text file number (Some content.now)) }
{
    text.append(file.path())?;
    text.append(b" line ")?;
    put_decimal(alloc, number, text)?;
    text.append(b": ")?;
    text.append(content)?;
    text.append(b"\n")
}
