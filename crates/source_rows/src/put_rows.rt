//! Writes rows of the files beside UnicodeData.txt.

ghost use Rattle.std.specs.Prelude.{◌≡◌, ◌++◌, OnOk};
ghost use Rattle.ucd_facts.specs.RowTexts.{value_text, missing_text, exclusion_text, fold_text, casing_text, conditions_text, names_text, alias_text};
ghost use Rattle.source_rows.specs.Texts.{named};

use crate::put_points::put_mapping;
use ucd_facts::{CasingRow, FoldRow, Memory, Text, ValueRow};
use ucd_lines::{put_hex, put_span};

/// Appends a span and a value.
///
/// - `Memory`: memory ran out. A part may then stand at the end of the text.
pub fn put_value(row: &ValueRow, into: &mut Text) -> Result<(), Memory>
    ensures { OnOk result (into.new ≡ into.old ++ value_text row.now) }
{
    put_span(row.span, into)?;
    into.append(b" ; ")?;
    into.append(row.value.as_slice())
}

/// Appends the mark of a missing row, its span and its value.
///
/// - `Memory`: memory ran out. A part may then stand at the end of the text.
pub fn put_missing(row: &ValueRow, into: &mut Text) -> Result<(), Memory>
    ensures { OnOk result (into.new ≡ into.old ++ missing_text row.now) }
{
    into.append(b"# @missing: ")?;
    put_span(row.span, into)?;
    into.append(b"; ")?;
    into.append(row.value.as_slice())
}

/// Appends a folding.
///
/// - `Memory`: memory ran out. A part may then stand at the end of the text.
pub fn put_fold(row: &FoldRow, into: &mut Text) -> Result<(), Memory>
    ensures { OnOk result (into.new ≡ into.old ++ fold_text row.now) }
{
    put_hex(row.code, into)?;
    into.append(b"; ")?;
    into.push(row.status.letter())?;
    into.append(b"; ")?;
    put_mapping(row.mapping.as_slice(), into)?;
    into.push(b';')
}

/// Appends conditions behind a space, if there are some.
fn put_conditions(conditions: &[u8], into: &mut Text) -> Result<(), Memory>
    ensures { OnOk result (into.new ≡ into.old ++ conditions_text conditions.now) }
{
    match conditions {
        [] => Ok(()),
        _ => {
            into.push(b' ')?;
            into.append(conditions)?;
            into.push(b';')
        }
    }
}

/// Appends full case mappings and their conditions.
///
/// - `Memory`: memory ran out. A part may then stand at the end of the text.
pub fn put_casing(row: &CasingRow, into: &mut Text) -> Result<(), Memory>
    ensures { OnOk result (into.new ≡ into.old ++ casing_text row.now) }
{
    put_hex(row.code, into)?;
    into.append(b"; ")?;
    put_mapping(row.lower.as_slice(), into)?;
    into.append(b"; ")?;
    put_mapping(row.title.as_slice(), into)?;
    into.append(b"; ")?;
    put_mapping(row.upper.as_slice(), into)?;
    into.push(b';')?;
    put_conditions(row.conditions.as_slice(), into)
}

/// Appends each name with ` ; ` before it.
fn put_further_names(names: &[Text], into: &mut Text) -> Result<(), Memory>
    ensures { OnOk result (into.new ≡ into.old ++ named names.now) }
{
    for name in names {
        into.append(b" ; ")?;
        into.append(name.as_slice())?;
    }
    Ok(())
}

/// Appends names joined by ` ; `.
///
/// - `Memory`: memory ran out. A part may then stand at the end of the text.
pub fn put_names(names: &[Text], into: &mut Text) -> Result<(), Memory>
    ensures { OnOk result (into.new ≡ into.old ++ names_text names.now) }
{
    match names {
        [] => Ok(()),
        [first, others @ ..] => {
            into.append(first.as_slice())?;
            put_further_names(others, into)
        }
    }
}
