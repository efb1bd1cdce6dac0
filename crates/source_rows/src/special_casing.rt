//! SpecialCasing.txt. UAX #44, section 5.3, and the head of the file.

ghost use Rattle.std.specs.Prelude.{◌≡◌};
ghost use Rattle.std.specs.List.{before_first};
ghost use Rattle.ucd_points.specs.Fields.{field, is_hash};
ghost use Rattle.source_rows.specs.RowRefs.{RefAs};
ghost use Rattle.source_rows.specs.Fields.{fields_of};
ghost use Rattle.source_rows.specs.OtherFaults.{casing_or_fault, has_casing_fields};

use crate::conditions::{Conditions, conditions_of};
use crate::fault::RowFault;
use crate::fields::{field_count, first_field, three_fields, without_comment};
use crate::mapping::{Mapping, mapping_of};
use crate::row_ref::RowRef;
use ucd_facts::Point;
use ucd_lines::hex;

/// A row of SpecialCasing.txt as it stands in its line.
#[derive(Drop)]
pub struct CasingText<'a> {
    /// The code point.
    pub code: Point,
    /// Its full mapping to lower case.
    pub lower: Mapping<'a>,
    /// Its full mapping to title case.
    pub title: Mapping<'a>,
    /// Its full mapping to upper case.
    pub upper: Mapping<'a>,
    /// The conditions under which it has them.
    pub conditions: Conditions<'a>,
}

/// The fields of a line, each a part of it. A field that is not there is empty.
#[derive(Clone, Copy)]
struct CasingFields<'a> {
    code: &'a [u8],
    lower: &'a [u8],
    title: &'a [u8],
    upper: &'a [u8],
    conditions: &'a [u8],
    behind: &'a [u8],
}

fn casing_fields(text: &[u8]) -> CasingFields<'_>
    ensures code { result.code.now ≡ field (fields_of text.now) 0 }
    ensures lower { result.lower.now ≡ field (fields_of text.now) 1 }
    ensures title { result.title.now ≡ field (fields_of text.now) 2 }
    ensures upper { result.upper.now ≡ field (fields_of text.now) 3 }
    ensures conditions { result.conditions.now ≡ field (fields_of text.now) 4 }
    ensures behind { result.behind.now ≡ field (fields_of text.now) 5 }
{
    let (code, others) = first_field(text);
    let (lower, others) = first_field(others);
    let (title, others) = first_field(others);
    let (upper, conditions, behind) = three_fields(others);
    CasingFields {
        code,
        lower,
        title,
        upper,
        conditions,
        behind,
    }
}

/// The field of the conditions. A field that is not there is empty.
pub fn conditions_field(text: &[u8]) -> &[u8]
    ensures { result.now ≡ field (fields_of text.now) 4 }
{
    casing_fields(text).conditions
}

/// The row of a line.
///
/// - `G03`: there are not four to six fields, or the sixth is not empty.
/// - `G04`: the first is no code point.
/// - `G07`: the second, third or fourth is no mapping.
/// - `G11`: the fifth has a byte that no condition has.
#[tactic(auto, unfolding(crate::specs::OtherFaults::casing_or_fault))]
pub fn read_casing(content: &[u8]) -> Result<RowRef<'_>, RowFault>
    ensures { RefAs result (casing_or_fault (fields_of (before_first is_hash content.now))) }
{
    let text = without_comment(content);
    let count = field_count(text);
    let line = casing_fields(text);
    if count < 4 || count > 6 || !line.behind.is_empty() {
        return Err(RowFault::G03);
    }
    let Some(code) = hex(line.code) else {
        return Err(RowFault::G04);
    };
    let Some(lower) = mapping_of(line.lower) else {
        return Err(RowFault::G07);
    };
    let Some(title) = mapping_of(line.title) else {
        return Err(RowFault::G07);
    };
    let Some(upper) = mapping_of(line.upper) else {
        return Err(RowFault::G07);
    };
    let Some(conditions) = conditions_of(line.conditions) else {
        return Err(RowFault::G11);
    };
    Ok(RowRef::Casing(CasingText {
        code,
        lower,
        title,
        upper,
        conditions,
    }))
}
