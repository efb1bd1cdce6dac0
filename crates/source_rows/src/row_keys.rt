//! The key of a row.

ghost use Rattle.std.specs.Prelude.{◌≡◌, take, IfOk};
ghost use Rattle.source_rows.specs.Keys.{alias_count, key_code, key_names, key_of, value_names};

use crate::key::Key;
use crate::keys::{condition_names, letter_name, missing_names, one_name};
use std::alloc::Global;
use ucd_facts::{Memory, Point, Row, SourceFile, Texts};

/// The first code point of a row; `None` for a row of names.
fn key_code(row: &Row) -> Option<Point>
    ensures { result ≡ key_code row.now }
{
    match row {
        Row::Unit(row) => Some(row.span.lo),
        Row::Value(row) => Some(row.span.lo),
        Row::Exclusion(row) => Some(row.span.lo),
        Row::Fold(row) => Some(row.code),
        Row::Casing(row) => Some(row.code),
        Row::Alias(_) => None,
        Row::Missing(row) => Some(row.span.lo),
    }
}

/// The value of a row of PropList.txt as a name, and no name in the other files.
fn value_names(alloc: Global, file: SourceFile, value: &[u8]) -> Result<Texts, Memory>
    ensures { IfOk result (λ names. names ≡ value_names file value.now) }
{
    match file {
        SourceFile::PropList => one_name(alloc, value),
        _ => Ok(Texts::new(alloc)),
    }
}

/// How many names of an alias row its key has.
fn alias_key_name_count(file: SourceFile) -> usize
    ensures { result ≡ alias_count file }
{
    match file {
        SourceFile::PropertyAliases => 2,
        _ => 3,
    }
}

/// The first names of an alias row, as many as its key has.
fn alias_key_names(alloc: Global, file: SourceFile, names: &Texts) -> Result<Texts, Memory>
    ensures { IfOk result (λ first. first ≡ take (alias_count file) names.now) }
{
    let mut first = names.copy(alloc)?;
    first.truncate(alias_key_name_count(file));
    Ok(first)
}

/// The names in the key of a row.
fn key_names(alloc: Global, file: SourceFile, row: &Row) -> Result<Texts, Memory>
    ensures { IfOk result (λ names. names ≡ key_names file row.now) }
{
    match row {
        Row::Value(row) => value_names(alloc, file, row.value.as_slice()),
        Row::Fold(row) => letter_name(alloc, row.status),
        Row::Casing(row) => condition_names(alloc, row.conditions.copy(alloc)?),
        Row::Alias(row) => alias_key_names(alloc, file, &row.names),
        Row::Missing(row) => missing_names(alloc, row.span.hi),
        Row::Unit(_) | Row::Exclusion(_) => Ok(Texts::new(alloc)),
    }
}

/// The key of a row of the file.
///
/// - `Memory`: memory ran out.
pub fn row_key(alloc: Global, file: SourceFile, row: &Row) -> Result<Key, Memory>
    ensures { IfOk result (λ key. key ≡ key_of file row.now) }
{
    let code = key_code(row);
    let names = key_names(alloc, file, row)?;
    Ok(Key { code, names })
}
