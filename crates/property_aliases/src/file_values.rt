//! The values of the rows of a file, numbered in order of first appearance.

ghost use Rattle.std.specs.Prelude.{◌≡◌, ◌++◌, ◌∷◌, [], List, Some, fold, length, map, slice_get, IfOk, OnOk, IsTrue};
ghost use Rattle.std.specs.List.{IsDistinct};
ghost use Rattle.std.specs.Str.{bytes_eq};
ghost use Rattle.property_aliases.specs.Numbers.{AreNumbered, AreValues, names_in};
ghost use Rattle.property_aliases.specs.Sources.{add_name, listed_names, missing_row_of, numbered, unnumbered, value_row_of, valued_row_of, valued_rows};
ghost use Rattle.release_rows.specs.Releases.{rows_now};
ghost use Rattle.ucd_facts.specs.declared.row.ValueRow.{ValueRow};

use indexmap::IndexSet;
use release_rows::{Release, RowText, Rows};
use std::alloc::Global;
use ucd_facts::{Memory, SourceFile, Span};

/// A row of a span and a value, by the number of the value.
#[derive(Clone, Copy, Debug)]
pub struct NumberedRow {
    /// The number of the value.
    pub number: usize,
    /// The code points.
    pub span: Span,
}

/// The values of the rows of a file, each once, and the rows by the numbers of their values, missing rows by themselves: a
/// value has the number of the values that are named before it.
#[derive(Drop)]
pub struct FileValues {
    pub(crate) names: IndexSet<Vec<u8>>,
    pub(crate) rows: Vec<NumberedRow>,
    pub(crate) missing: Vec<NumberedRow>,
}

impl FileValues {
    /// How many values there are.
    pub fn count(&self) -> usize
        ensures count { result ≡ length self.now.names.keys }
        ensures distinct { IsDistinct (λ x y. bytes_eq x.items y.items) self.now.names.keys }
    {
        self.names.len()
    }

    /// The rows that are no missing rows, in the order of the file.
    pub fn rows(&self) -> &[NumberedRow]
        ensures { result.now ≡ self.now.rows.items }
    {
        self.rows.as_slice()
    }

    /// The missing rows, in the order of the file.
    pub fn missing(&self) -> &[NumberedRow]
        ensures { result.now ≡ self.now.missing.items }
    {
        self.missing.as_slice()
    }
}

/// Whether a value has this number.
fn has_number(names: &IndexSet<Vec<u8>>, number: usize, value: &[u8]) -> bool
    ensures { IsTrue result → slice_get (names_in names.now) number ≡ Some value.now }
{
    match names.get_index(number) {
        Some(name) => name.as_slice() == value,
        None => false,
    }
}

/// The number of a value, which goes behind the others unless it is there.
///
/// - `Memory`: memory ran out.
fn number_of(alloc: Global, names: &mut IndexSet<Vec<u8>>, value: &[u8]) -> Result<usize, Memory>
    ensures names { OnOk result (names_in names.new ≡ add_name (names_in names.old) value.now) }
    ensures number { IfOk result (λ number. slice_get (names_in names.new) number
        ≡ Some value.now) }
{
    let placed = names.insert_full(Vec::from_slice(alloc, value)?)?;
    Ok(placed.0)
}

/// The number of a value. The last row before has the number `last`, which is tried first: rows of one value mostly
/// stand together.
///
/// - `Memory`: memory ran out.
fn number_trying_last(
    alloc: Global,
    names: &mut IndexSet<Vec<u8>>,
    last: usize,
    value: &[u8],
) -> Result<usize, Memory>
    ensures names { OnOk result (names_in names.new ≡ add_name (names_in names.old) value.now) }
    ensures number { IfOk result (λ number. slice_get (names_in names.new) number
        ≡ Some value.now) }
{
    if has_number(names, last, value) {
        return Ok(last);
    }
    number_of(alloc, names, value)
}

/// The number of the last row; 0 if there is none.
fn last_number(rows: &[NumberedRow]) -> usize {
    match rows {
        [.., last] => last.number,
        [] => 0,
    }
}

/// Puts a row behind the others, and its value behind theirs unless it is there.
///
/// - `Memory`: memory ran out.
fn put_row(
    alloc: Global,
    names: &mut IndexSet<Vec<u8>>,
    rows: &mut Vec<NumberedRow>,
    span: Span,
    value: &[u8],
) -> Result<(), Memory>
    ensures names { OnOk result (names_in names.new ≡ add_name (names_in names.old) value.now) }
    ensures rows { OnOk result ((above : List ValueRow)
        → AreNumbered (names_in names.old) rows.old.items above
        → AreNumbered (names_in names.new) rows.new.items
        (above ++ record { span = span; value = value.now } ∷ [])) }
{
    let number = number_trying_last(alloc, names, last_number(rows.as_slice()), value)?;
    rows.push(NumberedRow { number, span })?;
    Ok(())
}

/// Puts a row behind the others, a missing row behind the missing rows, and its value behind the values unless it is there.
/// Rows without a value give nothing.
///
/// - `Memory`: memory ran out.
fn add_row(
    alloc: Global,
    names: &mut IndexSet<Vec<u8>>,
    rows: &mut Vec<NumberedRow>,
    missing: &mut Vec<NumberedRow>,
    row: &RowText<'_>,
) -> Result<(), Memory>
    ensures names { OnOk result (names_in names.new
        ≡ fold add_name (names_in names.old) (map (λ r. r.value) (valued_row_of row.now))) }
    ensures rows { OnOk result ((above : List ValueRow)
        → AreNumbered (names_in names.old) rows.old.items above
        → AreNumbered (names_in names.new) rows.new.items (above ++ value_row_of row.now)) }
    ensures missing { OnOk result ((above : List ValueRow)
        → AreNumbered (names_in names.old) missing.old.items above
        → AreNumbered (names_in names.new) missing.new.items
        (above ++ missing_row_of row.now)) }
{
    if let Some(text) = row.value() {
        return put_row(alloc, names, rows, text.span, text.value);
    }
    if let Some(text) = row.missing_row_value() {
        return put_row(alloc, names, missing, text.span, text.value);
    }
    Ok(())
}

/// The rows, and their values behind those that are numbered before.
///
/// - `Memory`: memory ran out.
fn with_rows(alloc: Global, names: IndexSet<Vec<u8>>, rows: Rows<'_>) -> Result<FileValues, Memory>
    ensures { IfOk result (λ values. AreValues values
        (fold add_name (names_in names)
        (map (λ r. r.value) (valued_rows (unnumbered rows.entry))))
        (unnumbered rows.entry)) }
{
    let mut left = rows;
    let mut names = names;
    let mut numbered = Vec::new(alloc);
    let mut missing = Vec::new(alloc);
    'rows: while let Some((_line, row)) = left.next() {
        add_row(alloc, &mut names, &mut numbered, &mut missing, &row)?;
    }
    numbered.shrink_to_fit();
    Ok(FileValues {
        names,
        rows: numbered,
        missing,
    })
}

/// The values of the rows of a file now, by their numbers.
///
/// - `Memory`: memory ran out.
pub(crate) fn values_of(
    alloc: Global,
    release: &Release,
    file: SourceFile,
) -> Result<FileValues, Memory>
    ensures { IfOk result (λ values. AreValues values (listed_names (rows_now release.now file))
        (rows_now release.now file)) }
{
    with_rows(alloc, IndexSet::new(alloc), release.rows(file))
}

/// The values of the rows of a file now, by their numbers, behind a default.
///
/// - `Memory`: memory ran out.
pub(crate) fn values_behind_default(
    alloc: Global,
    default: &[u8],
    release: &Release,
    file: SourceFile,
) -> Result<FileValues, Memory>
    ensures { IfOk result (λ values. AreValues values
        (numbered default.now (rows_now release.now file)) (rows_now release.now file)) }
{
    let mut names = IndexSet::new(alloc);
    number_of(alloc, &mut names, default)?;
    with_rows(alloc, names, release.rows(file))
}
