//! Reads one row.

ghost use Rattle.std.specs.Prelude.{◌≡◌, true, IfOk};
ghost use Rattle.ucd_facts.specs.RowValues.{RowOk};
ghost use Rattle.source_rows.specs.Faults.{ReadsAs, row_or_fault};
ghost use Rattle.source_rows.specs.RowRefs.{RefAs, ValuedAs, has_values};

use crate::aliases::read_names;
use crate::case_folding::read_fold;
use crate::composition_exclusions::read_exclusion;
use crate::fault::{RowFault, RowStop};
use crate::lines::holds_line_feed;
use crate::row_ref::RowRef;
use crate::special_casing::read_casing;
use crate::unicode_data::read_data_ref;
use crate::values::{Valued, read_value, read_value_or_missing, read_value_ref};
use std::alloc::Global;
use ucd_facts::{Row, SourceFile};

/// The row that a line of a source file stands for, or the two lines of a range of UnicodeData.txt, as it stands there. It
/// takes no memory. UAX #44, sections 4.2 and 5.3.
///
/// The bytes are the content of the line, without what ends it. For a range they are both lines, with LF or CR LF
/// between them; all other bytes that hold a LF are `G03`.
///
/// A fault says that the bytes are no row, and is the first rule that they break.
#[tactic(auto, unfolding(crate::specs::Faults::row_or_fault, ucd_points::specs::Fields::fields, ucd_points::specs::MissingLines::missing_rest))]
pub fn read_row_ref(file: SourceFile, bytes: &[u8]) -> Result<RowRef<'_>, RowFault>
    ensures { RefAs result (row_or_fault file bytes.now) }
{
    if file != SourceFile::UnicodeData && holds_line_feed(bytes) {
        return Err(RowFault::G03);
    }
    match file {
        SourceFile::UnicodeData => read_data_ref(bytes),
        SourceFile::PropList => read_value_ref(SourceFile::PropList, bytes),
        SourceFile::Scripts => read_value_ref(SourceFile::Scripts, bytes),
        SourceFile::WordBreakProperty => read_value_ref(SourceFile::WordBreakProperty, bytes),
        SourceFile::CompositionExclusions => read_exclusion(bytes),
        SourceFile::CaseFolding => read_fold(bytes),
        SourceFile::SpecialCasing => read_casing(bytes),
        // the short and the long name of a property
        SourceFile::PropertyAliases => read_names(2, bytes),
        // the name of a property, and the short and the long name of its value
        SourceFile::PropertyValueAliases => read_names(3, bytes),
    }
}

/// Whether the rows of a file give values: PropList.txt, Scripts.txt and WordBreakProperty.txt.
pub fn has_values(file: SourceFile) -> bool
    ensures { result ≡ has_values file }
{
    matches!(
        file,
        SourceFile::PropList | SourceFile::Scripts | SourceFile::WordBreakProperty
    )
}

/// The row that a line of PropList.txt, Scripts.txt or WordBreakProperty.txt stands for, as it stands there. It takes no
/// memory. These rows take less room than those of all files that [`read_row_ref`] gives. UAX #44, sections 4.2 and 5.3.
///
/// The bytes are the content of the line, without what ends it; all bytes that hold a LF are `G03`.
///
/// A fault says that the bytes are no row, and is the first rule that they break.
#[tactic(auto, unfolding(crate::specs::Faults::row_or_fault, ucd_points::specs::Fields::fields, ucd_points::specs::MissingLines::missing_rest))]
pub fn read_valued(file: SourceFile, bytes: &[u8]) -> Result<Valued<'_>, RowFault>
    requires { has_values file ≡ true }
    ensures { ValuedAs result (row_or_fault file bytes.now) }
{
    if holds_line_feed(bytes) {
        return Err(RowFault::G03);
    }
    match file {
        SourceFile::PropList => read_value(bytes),
        SourceFile::Scripts => read_value_or_missing(SourceFile::Scripts, bytes),
        SourceFile::WordBreakProperty => {
            read_value_or_missing(SourceFile::WordBreakProperty, bytes)
        }
        _ => unreachable!(),
    }
}

/// The row that a line of a source file stands for, or the two lines of a range of UnicodeData.txt, with copies of what
/// stands there; [`read_row_ref`] makes none. UAX #44, sections 4.2 and 5.3.
///
/// The bytes are the content of the line, without what ends it. For a range they are both lines, with LF or CR LF between
/// them; all other bytes that hold a LF are `G03`.
///
/// - `Fault(fault)`: the bytes are no row, and `fault` is the first rule that they break.
/// - `Memory`: memory ran out.
pub fn read_row(alloc: Global, file: SourceFile, bytes: &[u8]) -> Result<Row, RowStop>
    ensures reads { ReadsAs result (row_or_fault file bytes.now) }
    ensures ok { IfOk result (λ row. RowOk file row) }
{
    let row = read_row_ref(file, bytes)?.into_row(alloc)?;
    Ok(row)
}
