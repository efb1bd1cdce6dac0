//! Lines of a span and a value: PropList.txt, Scripts.txt and WordBreakProperty.txt. UAX #44, sections 4.2 and 4.2.10.

ghost use Rattle.std.specs.Prelude.{Ok};
ghost use Rattle.std.specs.List.{before_first};
ghost use Rattle.ucd_points.specs.Fields.{is_hash};
ghost use Rattle.ucd_facts.specs.declared.row.Row.TheVariants.{Value as ValueLine};
ghost use Rattle.source_rows.specs.Faults.{value_line};
ghost use Rattle.source_rows.specs.Fields.{fields_of, row_fields};
ghost use Rattle.source_rows.specs.RowRefs.{RefAs, ValueAs, ValuedAs};
ghost use Rattle.source_rows.specs.Steps.{and_then};
ghost use Rattle.source_rows.specs.OtherFaults.{value_or_fault};

use crate::code_point::{is_name, span_of};
use crate::fault::RowFault;
use crate::fields::{field_count, two_fields, without_comment};
use crate::row_ref::RowRef;
use ucd_facts::{SourceFile, Span};
use ucd_lines::missing_rest;

/// The number of fields of a line.
const FIELDS: usize = 2;

/// A row of PropList.txt, Scripts.txt or WordBreakProperty.txt as it stands in its line, and what stands behind
/// `# @missing:`. UAX #44, sections 4.2 and 4.2.10.
#[derive(Clone, Copy, Debug)]
pub struct ValueText<'a> {
    /// The code points.
    pub span: Span,
    /// In PropList.txt the name of a property that they have, else that of their Script or Word_Break.
    pub value: &'a [u8],
}

/// A row of PropList.txt, Scripts.txt or WordBreakProperty.txt as it stands in its line.
#[derive(Clone, Copy, Debug)]
pub enum Valued<'a> {
    /// A row that gives its code points the value.
    Given(ValueText<'a>),
    /// A missing row of Scripts.txt or WordBreakProperty.txt.
    Missing(ValueText<'a>),
}

/// The span and the value of a text without comment.
///
/// - `G03`: there are not two fields.
/// - `G04`: the first is no code point and no span.
/// - `G11`: the second is no name.
#[tactic(auto, unfolding(crate::specs::OtherFaults::value_or_fault))]
fn value_text(text: &[u8]) -> Result<ValueText<'_>, RowFault>
    ensures { ValueAs result (value_or_fault (fields_of text.now)) }
{
    if field_count(text) != FIELDS {
        return Err(RowFault::G03);
    }
    let (span, value) = two_fields(text);
    let Some(span) = span_of(span) else {
        return Err(RowFault::G04);
    };
    if !is_name(value) {
        return Err(RowFault::G11);
    }
    Ok(ValueText { span, value })
}

/// The row of a line that is no missing line.
///
/// - `G03`: there are not two fields.
/// - `G04`: the first is no code point and no span.
/// - `G11`: the second is no name.
pub fn read_value(content: &[u8]) -> Result<Valued<'_>, RowFault>
    ensures { ValuedAs result (and_then
        (value_or_fault (fields_of (before_first is_hash content.now)))
        (λ row. Ok (ValueLine row))) }
{
    match value_text(without_comment(content)) {
        Ok(text) => Ok(Valued::Given(text)),
        Err(fault) => Err(fault),
    }
}

/// The row of a line of Scripts.txt or WordBreakProperty.txt: a missing row if the line begins with the mark of one.
///
/// - `G03`: there are not two fields.
/// - `G04`: the first is no code point and no span.
/// - `G11`: the second is no name.
pub fn read_value_or_missing(file: SourceFile, content: &[u8]) -> Result<Valued<'_>, RowFault>
    ensures { ValuedAs result (and_then (value_or_fault (row_fields file content.now))
        (λ row. Ok (value_line file content.now row))) }
{
    let Some(rest) = missing_rest(file, content) else {
        return read_value(content);
    };
    match value_text(without_comment(rest)) {
        Ok(text) => Ok(Valued::Missing(text)),
        Err(fault) => Err(fault),
    }
}

/// The row of a line of a file whose rows give values, as a row of any file. It is a missing row if the line begins with the
/// mark of one, as lines of Scripts.txt and WordBreakProperty.txt may.
///
/// - `G03`: there are not two fields.
/// - `G04`: the first is no code point and no span.
/// - `G11`: the second is no name.
pub fn read_value_ref(file: SourceFile, content: &[u8]) -> Result<RowRef<'_>, RowFault>
    ensures { RefAs result (and_then (value_or_fault (row_fields file content.now))
        (λ row. Ok (value_line file content.now row))) }
{
    match read_value_or_missing(file, content) {
        Ok(Valued::Given(text)) => Ok(RowRef::Value(text)),
        Ok(Valued::Missing(text)) => Ok(RowRef::Missing(text)),
        Err(fault) => Err(fault),
    }
}
