//! CompositionExclusions.txt. UAX #44, section 5.3.

ghost use Rattle.ucd_points.specs.Fields.{is_hash};
ghost use Rattle.std.specs.List.{before_first};
ghost use Rattle.source_rows.specs.RowRefs.{RefAs};
ghost use Rattle.source_rows.specs.Fields.{fields_of};
ghost use Rattle.source_rows.specs.OtherFaults.{exclusion_or_fault};

use crate::code_point::span_of;
use crate::fault::RowFault;
use crate::fields::{field_count, first_field, without_comment};
use crate::row_ref::RowRef;
use ucd_facts::ExclusionRow;

/// The row of a line.
///
/// - `G03`: there is more than one field.
/// - `G04`: it is no code point and no span.
#[tactic(auto, unfolding(crate::specs::OtherFaults::exclusion_or_fault))]
pub fn read_exclusion(content: &[u8]) -> Result<RowRef<'_>, RowFault>
    ensures { RefAs result (exclusion_or_fault (fields_of (before_first is_hash content.now))) }
{
    let text = without_comment(content);
    if field_count(text) != 1 {
        return Err(RowFault::G03);
    }
    let Some(span) = span_of(first_field(text).0) else {
        return Err(RowFault::G04);
    };
    Ok(RowRef::Exclusion(ExclusionRow { span }))
}
