//! Reads fields 2 to 14 of UnicodeData.txt, which a range has as a single line has them. UAX #44, section 5.3, table 9.

ghost use Rattle.std.specs.Prelude.{◌≡◌, ◌≤◌, true, length};
ghost use Rattle.std.specs.List.{list_all};
ghost use Rattle.ucd_points.specs.Fields.{class_of, case_of, decimal_number, is_digit};
ghost use Rattle.source_rows.specs.DataFaults.{values_or_fault};
ghost use Rattle.source_rows.specs.Fields.{fields_in};
ghost use Rattle.source_rows.specs.PointValues.{used_fields_in};

use crate::category_name::category_of;
use crate::decomposition::{Decomposition, read_decomposition};
use crate::fault::RowFault;
use crate::fifteen::DataFields;
use crate::used_fields::UsedFields;
use ucd_facts::{Category, Point};
use ucd_lines::hex;

/// What fields 2, 3, 5 and 12 to 14 hold.
#[derive(Drop)]
pub struct Values<'a> {
    /// Field 2, General_Category.
    pub category: Category,
    /// Field 3, Canonical_Combining_Class: 0 to 254.
    pub class: u8,
    /// Field 5, Decomposition_Type and Decomposition_Mapping.
    pub decomposition: Decomposition<'a>,
    /// Field 12, Simple_Uppercase_Mapping; `None` if the field is empty.
    pub upper: Option<Point>,
    /// Field 13, Simple_Lowercase_Mapping; `None` if the field is empty.
    pub lower: Option<Point>,
    /// Field 14, Simple_Titlecase_Mapping; `None` if the field is empty.
    pub title: Option<Point>,
}

/// Whether each byte is a decimal digit.
fn are_digits(text: &[u8]) -> bool
    ensures { result ≡ list_all is_digit text.now }
{
    text.iter().all(|b| (b'0'..=b'9').contains(b))
}

/// The number that at most three decimal digits write.
fn decimal_number(digits: &[u8]) -> u32
    requires short { length digits.now ≤ 3 }
    requires digits { list_all is_digit digits.now ≡ true }
    ensures { result ≡ decimal_number digits.now }
{
    let mut number = 0;
    for byte in digits {
        number = 10 * number + u32::from(*byte - b'0');
    }
    number
}

/// The number from 0 to 254 that one to three decimal digits write. `None` for all other bytes.
#[tactic(auto, unfolding(ucd_points::specs::Fields::class_of))]
fn class_of(field: &[u8]) -> Option<u8>
    ensures { result ≡ class_of field.now }
{
    if field.is_empty() || field.len() > 3 {
        return None;
    }
    if !are_digits(field) {
        return None;
    }
    let number = decimal_number(field);
    if number > 254 {
        return None;
    }
    Some(number as u8)
}

/// A simple case mapping, which may be empty. `None` for all other bytes.
fn simple_case_of(field: &[u8]) -> Option<Option<Point>>
    ensures { result ≡ case_of field.now }
{
    match field {
        [] => Some(None),
        _ => Some(Some(hex(field)?)),
    }
}

/// The values of a line's fields, as [`read_used`] reads them.
#[tactic(auto, unfolding(crate::specs::DataFaults::values_or_fault))]
pub fn read_values<'a>(line: &DataFields<'a>) -> Result<Values<'a>, RowFault>
    ensures { result ≡ values_or_fault (fields_in line.now) }
{
    let used = UsedFields {
        f2: line.f2,
        f3: line.f3,
        f5: line.f5,
        f12: line.f12,
        f13: line.f13,
        f14: line.f14,
    };
    read_used(&used)
}

/// The values of a line's fields. They are tested in this order:
///
/// - `G05`: field 2 is no category that the file names.
/// - `G06`: field 3 is no decimal number from 0 to 254.
/// - `G07`, `G10`: field 5 is bad, as [`read_decomposition`] tells it.
/// - `G07`: one of the fields 12 to 14 is neither a code point nor empty.
#[inline(always)]
#[tactic(auto, unfolding(crate::specs::DataFaults::values_or_fault))]
pub fn read_used<'a>(line: &UsedFields<'a>) -> Result<Values<'a>, RowFault>
    ensures { result ≡ values_or_fault (used_fields_in line.now) }
{
    let Some(category) = category_of(line.f2) else {
        return Err(RowFault::G05);
    };
    let Some(class) = class_of(line.f3) else {
        return Err(RowFault::G06);
    };
    let decomposition = read_decomposition(line.f5)?;
    let Some(upper) = simple_case_of(line.f12) else {
        return Err(RowFault::G07);
    };
    let Some(lower) = simple_case_of(line.f13) else {
        return Err(RowFault::G07);
    };
    let Some(title) = simple_case_of(line.f14) else {
        return Err(RowFault::G07);
    };
    Ok(Values {
        category,
        class,
        decomposition,
        upper,
        lower,
        title,
    })
}
