//! Lines of names: PropertyAliases.txt and PropertyValueAliases.txt. UAX #44, section 5.8.

ghost use Rattle.std.specs.Prelude.{◌≡◌, IfOk};
ghost use Rattle.std.specs.List.{before_first, list_all};
ghost use Rattle.ucd_points.specs.Fields.{is_hash};
ghost use Rattle.ucd_facts.specs.OtherLines.{is_name_or_empty};
ghost use Rattle.source_rows.specs.RowRefs.{NamesAs, RefAs};
ghost use Rattle.source_rows.specs.Fields.{fields_of};
ghost use Rattle.source_rows.specs.OtherFaults.{alias_or_fault};

use crate::code_point::is_name;
use crate::fault::RowFault;
use crate::fields::{field_count, first_field, without_comment};
use crate::row_ref::RowRef;
use std::alloc::Global;
use ucd_facts::{Memory, SourceFile, Text, Texts};
use ucd_lines::{Fields, fields};

/// Whether a field is a name or empty.
fn is_name_or_empty(field: &[u8]) -> bool
    ensures { result ≡ is_name_or_empty field.now }
{
    field.is_empty() || is_name(field)
}

/// The fields of a line, in order and without a copy. Both files cut off a comment.
#[tactic(auto, unfolding(ucd_points::specs::Fields::fields, ucd_points::specs::MissingLines::missing_rest))]
fn names_in(content: &[u8]) -> Fields<'_>
    ensures { result ≡ fields_of (before_first is_hash content.now) }
{
    fields(SourceFile::PropertyAliases, content)
}

/// Whether each field of a line is a name or empty.
fn are_fields_names_or_empty(content: &[u8]) -> bool
    ensures { result ≡ list_all is_name_or_empty (fields_of (before_first is_hash content.now)) }
{
    names_in(content).all(|field| is_name_or_empty(field))
}

/// The names of a line of at least so many, in order and without a copy.
///
/// - `G03`: there are fewer fields.
/// - `G11`: the first is no name, or a later one neither a name nor empty.
#[tactic(auto, unfolding(crate::specs::OtherFaults::alias_or_fault))]
pub fn names_or_fault(least: usize, content: &[u8]) -> Result<Fields<'_>, RowFault>
    ensures { NamesAs result (alias_or_fault least (fields_of (before_first is_hash content.now))) }
{
    let text = without_comment(content);
    if field_count(text) < least {
        return Err(RowFault::G03);
    }
    if !is_name(first_field(text).0) || !are_fields_names_or_empty(content) {
        return Err(RowFault::G11);
    }
    Ok(names_in(content))
}

/// The names, copied.
pub fn copied(alloc: Global, names: Fields<'_>) -> Result<Texts, Memory>
    ensures { IfOk result (λ copy. copy ≡ names.entry) }
{
    let mut copy = Texts::new(alloc);
    'names: for name in names {
        copy.push(Text::of(alloc, name)?)?;
    }
    Ok(copy)
}

/// The row of a line of at least so many names.
///
/// - `G03`: there are fewer fields.
/// - `G11`: the first is no name, or a later one neither a name nor empty.
pub fn read_names(least: usize, content: &[u8]) -> Result<RowRef<'_>, RowFault>
    ensures { RefAs result (alias_or_fault least (fields_of (before_first is_hash content.now))) }
{
    let names = names_or_fault(least, content)?;
    Ok(RowRef::Alias(names))
}
