//! UnicodeData.txt. UAX #44, section 5.3, table 9, and section 4.2.3 for ranges.

ghost use Rattle.std.specs.Prelude.{◌≡◌};
ghost use Rattle.ucd_points.specs.Bounds.{Bounds};
ghost use Rattle.ucd_points.specs.Fields.{fields, field};
ghost use Rattle.ucd_points.specs.Lines.{without_return};
ghost use Rattle.source_rows.specs.Fields.{fields_of, fields_in};
ghost use Rattle.source_rows.specs.Lines.{is_first_line};
ghost use Rattle.source_rows.specs.Openings.{may_open_name};
ghost use Rattle.source_rows.specs.DataFaults.{DataTextAs, unit_or_fault, single_or_fault, single_end, are_last_fields, pair_end};
ghost use Rattle.source_rows.specs.Faults.{lines_or_fault, row_or_fault};
ghost use Rattle.source_rows.specs.RowRefs.{RefAs};

use crate::code_point::{
    is_name, is_range_first_name, is_range_last_name, is_range_name, label_of,
};
use crate::data_text::DataText;
use crate::data_values::read_values;
use crate::fault::RowFault;
use crate::fields::{cut_at_near_semicolon, field_count, two_fields};
use crate::fifteen::{DataFields, FIELDS, fifteen_fields};
use crate::lines::{holds_line_feed, without_return};
use crate::row_ref::RowRef;
use ucd_facts::{Point, SourceFile, Span};
use ucd_lines::{cut, hex, is_blank};

/// The row of a line's fields 2 to 14, of a name, and of what was found of its span; or the first fault.
#[tactic(auto, unfolding(crate::specs::DataFaults::unit_or_fault))]
fn text_or_fault<'a>(
    line: &DataFields<'a>,
    range: bool,
    name: &'a [u8],
    end: Result<Span, RowFault>,
) -> Result<DataText<'a>, RowFault>
    ensures { DataTextAs result (unit_or_fault (fields_in line.now) range name.now end) }
{
    let values = read_values(line)?;
    let span = end?;
    Ok(DataText {
        span,
        range,
        name,
        values,
        line: *line,
    })
}

/// The span of a line by itself.
pub fn span_of_single_line(point: Point, name: &[u8]) -> Result<Span, RowFault>
    ensures { result ≡ single_end point name.now }
{
    if is_range_name(name) {
        return Err(RowFault::G09);
    }
    Ok(Span::one(point))
}

/// The row of one line, or its first fault.
#[tactic(auto, unfolding(ucd_points::specs::Fields::fields, crate::specs::DataFaults::single_or_fault))]
fn read_single(content: &[u8]) -> Result<DataText<'_>, RowFault>
    ensures { DataTextAs result (single_or_fault (fields SourceFile.UnicodeData content.now)) }
{
    if field_count(content) != FIELDS {
        return Err(RowFault::G03);
    }
    let line = fifteen_fields(content);
    let Some(point) = hex(line.f0) else {
        return Err(RowFault::G04);
    };
    if !is_name(line.f1) {
        return Err(RowFault::G11);
    }
    text_or_fault(&line, false, line.f1, span_of_single_line(point, line.f1))
}

/// Whether a text begins with white space or `<`, as the text of a name that begins with `<` does.
fn may_begin_range_name(text: &[u8]) -> bool
    ensures { result ≡ may_open_name text.now }
{
    match text {
        [first, ..] => *first == b'<' || is_blank(*first),
        [] => false,
    }
}

/// Whether a line of UnicodeData.txt begins a range: it has 15 fields and the name `<Label, First>`. Most lines are ruled
/// out by the first byte behind their first `;`. UAX #44, section 4.2.3.
#[tactic(auto, unfolding(ucd_points::specs::Fields::fields))]
pub fn begins_range(content: &[u8]) -> bool
    ensures { result ≡ is_first_line content.now }
{
    let (_, others) = cut_at_near_semicolon(content);
    if !may_begin_range_name(others) {
        return false;
    }
    is_range_first_name(two_fields(content).1) && field_count(content) == FIELDS
}

/// Whether a line ends the range of a label.
#[tactic(auto, unfolding(ucd_points::specs::Fields::fields))]
fn ends_range(label: &[u8], content: &[u8]) -> bool
    ensures { result ≡ are_last_fields label.now (fields SourceFile.UnicodeData content.now) }
{
    if field_count(content) != FIELDS {
        return false;
    }
    let name = two_fields(content).1;
    is_range_last_name(name) && label_of(b", Last>", name) == label
}

/// The span of a range, by its label, its first code point and its last line.
#[tactic(auto, unfolding(ucd_points::specs::Fields::fields, crate::specs::DataFaults::pair_end))]
fn span_of_range(label: &[u8], lo: Point, last: &[u8]) -> Result<Span, RowFault>
    ensures { result ≡ pair_end label.now lo (fields SourceFile.UnicodeData last.now) }
{
    if !ends_range(label, last) {
        return Err(RowFault::G09);
    }
    let Some(hi) = hex(two_fields(last).0) else {
        return Err(RowFault::G04);
    };
    match Span::new(lo, hi) {
        Some(span) => Ok(span),
        None => Err(RowFault::G04),
    }
}

/// The row of two lines, or its first fault.
#[tactic(auto, unfolding(ucd_points::specs::Fields::fields, crate::specs::DataFaults::pair_or_fault))]
pub fn read_range<'a>(front: &'a [u8], last: &[u8]) -> Result<DataText<'a>, RowFault>
    ensures { DataTextAs result (lines_or_fault SourceFile.UnicodeData front.now last.now) }
{
    let first = without_return(front);
    if holds_line_feed(last) || !begins_range(first) {
        return Err(RowFault::G03);
    }
    let line = fifteen_fields(first);
    let Some(lo) = hex(line.f0) else {
        return Err(RowFault::G04);
    };
    let label = label_of(b", First>", line.f1);
    text_or_fault(&line, true, label, span_of_range(label, lo, last))
}

/// The row of a line, or of the two lines of a range. The rules are tested in this order:
///
/// - `G03`: there are not 15 fields; or there are two lines, and the first begins no range or the second holds a LF.
/// - `G04`: field 0 is no code point.
/// - `G11`: field 1 of one line is no name.
/// - One of the fields 2 to 14 breaks a rule: G05 to G07 or G10.
/// - `G09`: one line has the name of a range; or the second of two lines does not end the range.
/// - `G04`: field 0 of the second line is no code point, or less than that of the first.
///
/// UAX #44, sections 4.2.3 and 5.3, table 9.
#[tactic(auto, unfolding(crate::specs::Faults::row_or_fault))]
fn read_data(bytes: &[u8]) -> Result<DataText<'_>, RowFault>
    ensures { DataTextAs result (row_or_fault SourceFile.UnicodeData bytes.now) }
{
    if !holds_line_feed(bytes) {
        return read_single(bytes);
    }
    let (front, last) = cut(bytes, b'\n');
    read_range(front, last)
}

/// The row of a line of UnicodeData.txt, or of the two lines of a range, as a row of any file. `read_data` tells in which
/// order the rules are tested. UAX #44, sections 4.2.3 and 5.3, table 9.
pub fn read_data_ref(bytes: &[u8]) -> Result<RowRef<'_>, RowFault>
    ensures { RefAs result (row_or_fault SourceFile.UnicodeData bytes.now) }
{
    let text = read_data(bytes)?;
    Ok(RowRef::Unit(text))
}
