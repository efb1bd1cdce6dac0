//! Reads what a row of UnicodeData.txt gives to its code points. UAX #44, section 5.3, table 9.

ghost use Rattle.std.specs.Prelude.{◌≡◌};
ghost use Rattle.ucd_points.specs.Fields.{fields};
ghost use Rattle.source_rows.specs.DataFaults.{single_or_fault};
ghost use Rattle.source_rows.specs.Faults.{lines_or_fault, row_or_fault};
ghost use Rattle.source_rows.specs.PointValues.{PointValuesAs};
ghost use Rattle.source_rows.specs.Tails.{given_or_fault};

use crate::code_point::is_name;
use crate::data_text::DataText;
use crate::data_values::Values;
use crate::fault::RowFault;
use crate::fields::{first_field, first_short_field};
use crate::fields_cache::FieldsCache;
use crate::lines::holds_line_feed;
use crate::unicode_data::{read_range, span_of_single_line};
use ucd_facts::{SourceFile, Span};
use ucd_lines::{cut, hex};

/// What a row of UnicodeData.txt gives to its code points. UAX #44, section 5.3, table 9.
#[derive(Drop)]
pub struct PointValues<'a> {
    /// The code points.
    pub span: Span,
    /// What fields 2, 3, 5 and 12 to 14 hold.
    pub values: Values<'a>,
}

/// Values and a span; or the first fault.
fn point_values_or_fault<'a>(
    values: Result<Values<'a>, RowFault>,
    end: Result<Span, RowFault>,
) -> Result<PointValues<'a>, RowFault>
    ensures { result ≡ given_or_fault values.entry end }
{
    let values = values?;
    let span = end?;
    Ok(PointValues { span, values })
}

/// What the row of one line gives, or its first fault.
fn single_values<'a>(
    content: &'a [u8],
    above: &mut FieldsCache<'a>,
) -> Result<PointValues<'a>, RowFault>
    ensures { PointValuesAs result (single_or_fault (fields SourceFile.UnicodeData content.now)) }
{
    let (f0, rest) = first_short_field(content);
    let (f1, tail) = first_field(rest);
    let Some(values) = above.values(tail) else {
        return Err(RowFault::G03);
    };
    let Some(point) = hex(f0) else {
        return Err(RowFault::G04);
    };
    if !is_name(f1) {
        return Err(RowFault::G11);
    }
    point_values_or_fault(values, span_of_single_line(point, f1))
}

/// What the row of two lines gives, or its first fault.
fn range_values<'a>(front: &'a [u8], last: &[u8]) -> Result<PointValues<'a>, RowFault>
    ensures { PointValuesAs result (lines_or_fault SourceFile.UnicodeData front.now last.now) }
{
    let DataText { span, values, .. } = read_range(front, last)?;
    Ok(PointValues { span, values })
}

/// What a row gives to its code points, as it stands in a line of UnicodeData.txt, or in the two lines of a range: the
/// row that [`read_row`](crate::read_row) reads from them. The fields that give nothing are passed over, and no memory
/// is taken. If what stands behind the name is that of the last line without a mapping that was read so, it is not read
/// again; `above` keeps that.
///
/// A fault says that the bytes are no row, and is the first rule that they break.
///
/// UAX #44, sections 4.2.3 and 5.3, table 9.
#[tactic(auto, unfolding(crate::specs::Faults::row_or_fault))]
pub fn read_point_values_with_cache<'a>(
    bytes: &'a [u8],
    above: &mut FieldsCache<'a>,
) -> Result<PointValues<'a>, RowFault>
    ensures { PointValuesAs result (row_or_fault SourceFile.UnicodeData bytes.now) }
{
    if !holds_line_feed(bytes) {
        return single_values(bytes, above);
    }
    let (front, last) = cut(bytes, b'\n');
    range_values(front, last)
}

/// What a row gives to its code points, as it stands in a line of UnicodeData.txt, or in the two lines of a range: the row
/// that [`read_row`](crate::read_row) reads from them. The fields that give nothing are passed over, and no memory is taken.
/// Unlike [`read_point_values_with_cache`], it keeps nothing of a line for the next one.
///
/// A fault says that the bytes are no row, and is the first rule that they break.
///
/// UAX #44, sections 4.2.3 and 5.3, table 9.
pub fn read_point_values(bytes: &[u8]) -> Result<PointValues<'_>, RowFault>
    ensures { PointValuesAs result (row_or_fault SourceFile.UnicodeData bytes.now) }
{
    read_point_values_with_cache(bytes, &mut FieldsCache::with_letter_tail())
}
