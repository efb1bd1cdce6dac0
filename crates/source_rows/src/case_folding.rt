//! CaseFolding.txt. UAX #44, section 5.3, and the head of the file.

ghost use Rattle.std.specs.Prelude.{◌≡◌};
ghost use Rattle.std.specs.List.{before_first};
ghost use Rattle.ucd_points.specs.Fields.{is_hash, field};
ghost use Rattle.ucd_facts.specs.Mappings.{mapping_of};
ghost use Rattle.ucd_facts.specs.Names.{status_of};
ghost use Rattle.source_rows.specs.RowRefs.{RefAs};
ghost use Rattle.source_rows.specs.Fields.{fields_of};
ghost use Rattle.source_rows.specs.OtherFaults.{fold_or_fault, has_fold_fields, folds_to, of_status};

use crate::fault::RowFault;
use crate::fields::{field_count, first_field, three_fields, without_comment};
use crate::mapping::{Mapping, mapping_of};
use crate::row_ref::RowRef;
use ucd_facts::{FoldStatus, Point};
use ucd_lines::hex;

/// The status that one byte names. `None` for all other bytes.
pub fn status_of(field: &[u8]) -> Option<FoldStatus>
    ensures { result ≡ status_of field.now }
{
    match field {
        [b'C'] => Some(FoldStatus::C),
        [b'F'] => Some(FoldStatus::F),
        [b'S'] => Some(FoldStatus::S),
        [b'T'] => Some(FoldStatus::T),
        _ => None,
    }
}

/// A row of CaseFolding.txt as it stands in its line.
#[derive(Drop)]
pub struct FoldText<'a> {
    /// The code point.
    pub code: Point,
    /// The status of the folding.
    pub status: FoldStatus,
    /// What the code point folds to.
    pub mapping: Mapping<'a>,
}

/// Whether a folding of the status may have so many code points.
fn is_folding_length(status: FoldStatus, len: usize) -> bool
    ensures { result ≡ folds_to status len }
{
    match status {
        FoldStatus::C | FoldStatus::S => len == 1,
        FoldStatus::F | FoldStatus::T => len > 0,
    }
}

/// The mapping of a folding of the status. `None` for all other bytes.
fn folding_of(status: FoldStatus, field: &[u8]) -> Option<Mapping<'_>>
    ensures { result ≡ of_status status (mapping_of field.now) }
{
    let mapping = mapping_of(field)?;
    if !is_folding_length(status, mapping.len()) {
        return None;
    }
    Some(mapping)
}

/// Whether there are three fields, or four of which the last is empty.
fn has_fold_fields(text: &[u8]) -> bool
    ensures { result ≡ has_fold_fields (fields_of text.now) }
{
    let count = field_count(text);
    if count == 3 {
        return true;
    }
    count == 4 && fourth_field(text).is_empty()
}

/// The fourth field. A field that is not there is empty.
fn fourth_field(text: &[u8]) -> &[u8]
    ensures { result.now ≡ field (fields_of text.now) 3 }
{
    let (_, others) = first_field(text);
    three_fields(others).2
}

/// The row of a line.
///
/// - `G03`: there are neither three fields nor four of which the last is empty.
/// - `G04`: the first is no code point.
/// - `G08`: the second is no status.
/// - `G07`: the third is no mapping, or not of as many code points as the status has.
#[tactic(auto, unfolding(crate::specs::OtherFaults::fold_or_fault))]
pub fn read_fold(content: &[u8]) -> Result<RowRef<'_>, RowFault>
    ensures { RefAs result (fold_or_fault (fields_of (before_first is_hash content.now))) }
{
    let text = without_comment(content);
    if !has_fold_fields(text) {
        return Err(RowFault::G03);
    }
    let (code, status, mapping) = three_fields(text);
    let Some(code) = hex(code) else {
        return Err(RowFault::G04);
    };
    let Some(status) = status_of(status) else {
        return Err(RowFault::G08);
    };
    let Some(mapping) = folding_of(status, mapping) else {
        return Err(RowFault::G07);
    };
    Ok(RowRef::Fold(FoldText {
        code,
        status,
        mapping,
    }))
}
