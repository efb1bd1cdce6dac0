//! Reads the text of a key.

ghost use Rattle.std.specs.Prelude.{◌≡◌, ◌∷◌, [], IfOk, Some};
ghost use Rattle.std.specs.List.{before_first};
ghost use Rattle.ucd_points.specs.Fields.{is_hash};
ghost use Rattle.ucd_facts.specs.Names.{status_code};
ghost use Rattle.ucd_points.specs.MissingLines.{is_missing};
ghost use Rattle.source_rows.specs.Fields.{fields_of, row_fields};
ghost use Rattle.source_rows.specs.Keys.{condition_names, missing_names};
ghost use Rattle.source_rows.specs.KeyGrammar.{ReadsKeyAs, alias_key, casing_key, code_key, fold_key, key_or_fault, missing_key, property_key, value_key};

use crate::aliases::{copied, names_or_fault};
use crate::case_folding::status_of;
use crate::code_point::{is_name, span_of};
use crate::conditions::conditions_of;
use crate::fault::{RowFault, RowStop};
use crate::fields::{field_count, two_fields, without_comment};
use crate::key::Key;
use crate::lines::holds_line_feed;
use std::alloc::Global;
use ucd_facts::{FoldStatus, Memory, Point, SourceFile, Text, Texts};
use ucd_lines::{hex, missing_rest, put_hex};

/// The list of one text.
fn one_text(alloc: Global, text: Text) -> Result<Texts, Memory>
    ensures { IfOk result (λ texts. texts ≡ text ∷ []) }
{
    let mut texts = Texts::new(alloc);
    texts.push(text)?;
    Ok(texts)
}

/// A copy of these bytes as the one name of a key.
pub fn one_name(alloc: Global, name: &[u8]) -> Result<Texts, Memory>
    ensures { IfOk result (λ names. names ≡ name.now ∷ []) }
{
    one_text(alloc, Text::of(alloc, name)?)
}

/// The letter of a status as the one name of a key.
pub fn letter_name(alloc: Global, status: FoldStatus) -> Result<Texts, Memory>
    ensures { IfOk result (λ names. names ≡ (status_code status ∷ []) ∷ []) }
{
    one_name(alloc, &[status.letter()])
}

/// The names in the key of a missing row whose span ends with this code point: `@missing`, and the digits of the code point.
pub fn missing_names(alloc: Global, last: Point) -> Result<Texts, Memory>
    ensures { IfOk result (λ names. names ≡ missing_names last) }
{
    let mut digits = Text::new(alloc);
    put_hex(last, &mut digits)?;
    let mut names = one_name(alloc, b"@missing")?;
    names.push(digits)?;
    Ok(names)
}

/// The conditions as a name of a key, and no name if there are none.
pub fn condition_names(alloc: Global, conditions: Text) -> Result<Texts, Memory>
    ensures { IfOk result (λ names. names ≡ condition_names conditions) }
{
    if conditions.as_slice().is_empty() {
        return Ok(Texts::new(alloc));
    }
    one_text(alloc, conditions)
}

/// The key of a code point and these names.
fn key_at(code: Point, names: Texts) -> Key
    ensures code { result.code ≡ Some code }
    ensures names { result.names ≡ names }
{
    Key {
        code: Some(code),
        names,
    }
}

/// A code point.
///
/// - `Fault(G03)`: there is more than one field.
/// - `Fault(G04)`: it is no code point.
#[tactic(auto, unfolding(crate::specs::KeyGrammar::code_key))]
fn read_code_key(alloc: Global, text: &[u8]) -> Result<Key, RowStop>
    ensures { ReadsKeyAs result (code_key (fields_of text.now)) }
{
    if field_count(text) != 1 {
        return Err(RowStop::Fault(RowFault::G03));
    }
    let Some(code) = hex(two_fields(text).0) else {
        return Err(RowStop::Fault(RowFault::G04));
    };
    Ok(key_at(code, Texts::new(alloc)))
}

/// A span, which is the key of a missing row.
///
/// - `Fault(G03)`: there is more than one field.
/// - `Fault(G04)`: it is no code point and no span.
/// - `Memory`: memory ran out.
#[tactic(auto, unfolding(crate::specs::KeyGrammar::missing_key))]
fn read_missing_span_key(alloc: Global, text: &[u8]) -> Result<Key, RowStop>
    ensures { ReadsKeyAs result (missing_key (fields_of text.now)) }
{
    if field_count(text) != 1 {
        return Err(RowStop::Fault(RowFault::G03));
    }
    let Some(span) = span_of(two_fields(text).0) else {
        return Err(RowStop::Fault(RowFault::G04));
    };
    Ok(key_at(span.lo, missing_names(alloc, span.hi)?))
}

/// A code point; a span behind `# @missing:`.
///
/// - `Fault(G03)`: there is more than one field.
/// - `Fault(G04)`: it is no code point, or no span.
/// - `Memory`: memory ran out.
fn read_value_key(alloc: Global, file: SourceFile, content: &[u8]) -> Result<Key, RowStop>
    ensures { ReadsKeyAs result (value_key (is_missing file content.now)
        (row_fields file content.now)) }
{
    match missing_rest(file, content) {
        Some(rest) => read_missing_span_key(alloc, without_comment(rest)),
        None => read_code_key(alloc, without_comment(content)),
    }
}

/// A code point and the name of a property.
///
/// - `Fault(G03)`: there are not two fields.
/// - `Fault(G04)`: the first is no code point.
/// - `Fault(G11)`: the second is no name.
/// - `Memory`: memory ran out.
#[tactic(auto, unfolding(crate::specs::KeyGrammar::property_key))]
fn read_property_key(alloc: Global, text: &[u8]) -> Result<Key, RowStop>
    ensures { ReadsKeyAs result (property_key (fields_of text.now)) }
{
    if field_count(text) != 2 {
        return Err(RowStop::Fault(RowFault::G03));
    }
    let (code, name) = two_fields(text);
    let Some(code) = hex(code) else {
        return Err(RowStop::Fault(RowFault::G04));
    };
    if !is_name(name) {
        return Err(RowStop::Fault(RowFault::G11));
    }
    Ok(key_at(code, one_name(alloc, name)?))
}

/// A code point and the status of a folding.
///
/// - `Fault(G03)`: there are not two fields.
/// - `Fault(G04)`: the first is no code point.
/// - `Fault(G08)`: the second is no status.
/// - `Memory`: memory ran out.
#[tactic(auto, unfolding(crate::specs::KeyGrammar::fold_key))]
fn read_fold_key(alloc: Global, text: &[u8]) -> Result<Key, RowStop>
    ensures { ReadsKeyAs result (fold_key (fields_of text.now)) }
{
    if field_count(text) != 2 {
        return Err(RowStop::Fault(RowFault::G03));
    }
    let (code, status) = two_fields(text);
    let Some(code) = hex(code) else {
        return Err(RowStop::Fault(RowFault::G04));
    };
    let Some(status) = status_of(status) else {
        return Err(RowStop::Fault(RowFault::G08));
    };
    Ok(key_at(code, letter_name(alloc, status)?))
}

/// A code point and conditions, or a code point alone.
///
/// - `Fault(G03)`: there are more than two fields.
/// - `Fault(G04)`: the first is no code point.
/// - `Fault(G11)`: the second has a byte that no condition has.
/// - `Memory`: memory ran out.
#[tactic(auto, unfolding(crate::specs::KeyGrammar::casing_key))]
fn read_casing_key(alloc: Global, text: &[u8]) -> Result<Key, RowStop>
    ensures { ReadsKeyAs result (casing_key (fields_of text.now)) }
{
    if field_count(text) > 2 {
        return Err(RowStop::Fault(RowFault::G03));
    }
    let (code, conditions) = two_fields(text);
    let Some(code) = hex(code) else {
        return Err(RowStop::Fault(RowFault::G04));
    };
    let Some(conditions) = conditions_of(conditions) else {
        return Err(RowStop::Fault(RowFault::G11));
    };
    let names = condition_names(alloc, conditions.copied(alloc)?)?;
    Ok(key_at(code, names))
}

/// So many names.
///
/// - `Fault(G03)`: there are more or fewer fields.
/// - `Fault(G11)`: the first is no name, or a later one neither a name nor empty.
/// - `Memory`: memory ran out.
#[tactic(auto, unfolding(crate::specs::KeyGrammar::alias_key, crate::specs::OtherFaults::alias_or_fault))]
fn read_alias_key(alloc: Global, count: usize, content: &[u8]) -> Result<Key, RowStop>
    ensures { ReadsKeyAs result (alias_key count (fields_of (before_first is_hash content.now))) }
{
    if field_count(without_comment(content)) != count {
        return Err(RowStop::Fault(RowFault::G03));
    }
    let names = copied(alloc, names_or_fault(count, content)?)?;
    Ok(Key { code: None, names })
}

/// The key that a text stands for, as a row of the file has it. The fields are cut and trimmed as those of a row are.
/// UAX #44, section 4.2.
///
/// UnicodeData.txt, Scripts.txt, WordBreakProperty.txt and CompositionExclusions.txt: `XXXX`, the first code point. For
/// a missing row: `# @missing: XXXX..YYYY`, its span.
/// PropList.txt: `XXXX ; Name`. CaseFolding.txt: `XXXX; S`. SpecialCasing.txt: `XXXX`, or `XXXX; conditions`.
/// PropertyAliases.txt and PropertyValueAliases.txt: the first two names and the first three, with `;` between them.
///
/// - `Fault(G03)`: a LF is among the bytes, or there are more or fewer fields.
/// - `Fault(G04)`: no code point stands where one is due.
/// - `Fault(G08)`: the status of a folding is unknown.
/// - `Fault(G11)`: no name stands where one is due, or the conditions have a byte that they may not have.
/// - `Memory`: memory ran out.
#[tactic(auto, unfolding(crate::specs::KeyGrammar::key_or_fault, ucd_points::specs::Fields::fields, ucd_points::specs::MissingLines::missing_rest))]
pub fn read_key(alloc: Global, file: SourceFile, bytes: &[u8]) -> Result<Key, RowStop>
    ensures { ReadsKeyAs result (key_or_fault file bytes.now) }
{
    if holds_line_feed(bytes) {
        return Err(RowStop::Fault(RowFault::G03));
    }
    match file {
        SourceFile::UnicodeData => read_code_key(alloc, bytes),
        SourceFile::PropList => read_property_key(alloc, without_comment(bytes)),
        SourceFile::Scripts | SourceFile::WordBreakProperty => read_value_key(alloc, file, bytes),
        SourceFile::CompositionExclusions => read_code_key(alloc, without_comment(bytes)),
        SourceFile::CaseFolding => read_fold_key(alloc, without_comment(bytes)),
        SourceFile::SpecialCasing => read_casing_key(alloc, without_comment(bytes)),
        SourceFile::PropertyAliases => read_alias_key(alloc, 2, bytes),
        SourceFile::PropertyValueAliases => read_alias_key(alloc, 3, bytes),
    }
}
