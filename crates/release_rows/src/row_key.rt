//! The keys and the spans of rows.

ghost use Rattle.std.specs.Prelude.{◌≡◌, ◌≤◌, true, IfOk};
ghost use Rattle.ucd_points.specs.Fields.{is_name};
ghost use Rattle.ucd_facts.specs.RowValues.{RowOk};
ghost use Rattle.source_rows.specs.Keys.{row_span, alias_count, key_names, missing_names, value_names};
ghost use Rattle.release_rows.specs.Keys.{own_end, row_end, has_spans};
ghost use Rattle.source_rows.specs.RowRefs.{row_in};
ghost use Rattle.release_rows.specs.Names.{first_names};
ghost use Rattle.release_rows.specs.Places.{names_of};

use source_rows::{Conditions, RowRef};
use std::alloc::{AllocError, Global};
use ucd_facts::{Memory, Point, Row, SourceFile, Text};
use ucd_lines::{Fields, put_hex};

/// The first code point of a row. A row of names has none, which 0 stands for.
pub fn row_start(row: &Row) -> u32
    ensures { result ≡ (row_span row.now).lo }
{
    match row {
        Row::Unit(row) => row.span.first(),
        Row::Value(row) => row.span.first(),
        Row::Exclusion(row) => row.span.first(),
        Row::Fold(row) => row.code.number(),
        Row::Casing(row) => row.code.number(),
        Row::Alias(_) => 0,
        Row::Missing(row) => row.span.first(),
    }
}

/// The last code point of a row.
pub fn row_last(row: &Row) -> u32
    ensures last { result ≡ (row_span row.now).hi }
    ensures ordered { (row_span row.now).lo ≤ result }
{
    match row {
        Row::Unit(row) => row.span.last(),
        Row::Value(row) => row.span.last(),
        Row::Exclusion(row) => row.span.last(),
        Row::Fold(row) => row.code.number(),
        Row::Casing(row) => row.code.number(),
        Row::Alias(_) => 0,
        Row::Missing(row) => row.span.last(),
    }
}

/// The last code point of a row that is its own: a missing row shares its span, and has its first code point alone.
fn own_end(row: &Row) -> u32
    ensures end { result ≡ own_end row.now }
    ensures ordered { (row_span row.now).lo ≤ result }
{
    match row {
        Row::Missing(row) => row.span.first(),
        _ => row_last(row),
    }
}

/// Whether the rows of a file have spans that may not overlap.
pub fn has_spans(file: SourceFile) -> bool
    ensures { result ≡ has_spans file }
{
    match file {
        SourceFile::UnicodeData
        | SourceFile::PropList
        | SourceFile::Scripts
        | SourceFile::WordBreakProperty
        | SourceFile::CompositionExclusions => true,
        _ => false,
    }
}

/// The last code point that no other row may have: for a row whose span may not overlap, its last one; otherwise its
/// first.
pub fn unshared_end(file: SourceFile, row: &Row) -> u32
    ensures end { result ≡ row_end file row.now }
    ensures ordered { (row_span row.now).lo ≤ result }
{
    if has_spans(file) {
        own_end(row)
    } else {
        row_start(row)
    }
}

/// How many names of an alias row its key has.
fn alias_count(file: SourceFile) -> usize
    ensures count { result ≡ alias_count file }
    ensures some { 1 ≤ result }
{
    match file {
        SourceFile::PropertyAliases => 2,
        _ => 3,
    }
}

/// The first names of a list with `;` between them, as many as there are up to the count.
fn first_names(alloc: Global, mut names: Fields<'_>, count: usize) -> Result<Vec<u8>, AllocError>
    requires { 1 ≤ count }
    ensures { IfOk result (λ text. text.items ≡ first_names count names.entry) }
{
    let Some(first) = names.next() else {
        return Ok(Vec::new(alloc));
    };
    let mut text = Vec::from_slice(alloc, first)?;
    let mut left = count - 1;
    'names: while left > 0 {
        let Some(name) = names.next() else {
            return Ok(text);
        };
        text.push(b';')?;
        text.extend_from_slice(name)?;
        left -= 1;
    }
    Ok(text)
}

/// The names in the key of a row, with `;` between them.
///
/// - `Memory`: memory ran out.
pub fn key_names_text(alloc: Global, file: SourceFile, row: RowRef<'_>) -> Result<Vec<u8>, Memory>
    requires { RowOk file (row_in row) }
    ensures { IfOk result (λ text. names_of text.items ≡ key_names file (row_in row.entry)) }
{
    match row {
        RowRef::Value(text) => Ok(value_names_text(alloc, file, text.value)?),
        RowRef::Fold(text) => Ok(Vec::from_slice(alloc, &[text.status.letter()])?),
        RowRef::Casing(text) => conditions_text(alloc, text.conditions),
        RowRef::Alias(names) => Ok(first_names(alloc, names, alias_count(file))?),
        RowRef::Missing(text) => missing_names_text(alloc, text.span.hi),
        RowRef::Unit(_) | RowRef::Exclusion(_) => Ok(Vec::new(alloc)),
    }
}

/// The names in the key of a missing row whose span ends with this code point, with `;` between them.
fn missing_names_text(alloc: Global, last: Point) -> Result<Vec<u8>, Memory>
    ensures { IfOk result (λ text. names_of text.items ≡ missing_names last) }
{
    let mut digits = Text::new(alloc);
    put_hex(last, &mut digits)?;
    let mut text = Vec::from_slice(alloc, b"@missing;")?;
    text.extend_from_slice(digits.as_slice())?;
    Ok(text)
}

/// The bytes of conditions.
fn conditions_text(alloc: Global, conditions: Conditions<'_>) -> Result<Vec<u8>, Memory>
    ensures { IfOk result (λ text. text.items ≡ conditions.entry) }
{
    let conditions = conditions.copied(alloc)?;
    Ok(Vec::from_slice(alloc, conditions.as_slice())?)
}

/// The value of a row of PropList.txt, and no name in the other files.
///
/// - `AllocError`: memory ran out.
fn value_names_text(alloc: Global, file: SourceFile, value: &[u8]) -> Result<Vec<u8>, AllocError>
    requires { is_name value.now ≡ true }
    ensures { IfOk result (λ text. names_of text.items ≡ value_names file value.now) }
{
    match file {
        SourceFile::PropList => Vec::from_slice(alloc, value),
        _ => Ok(Vec::new(alloc)),
    }
}
