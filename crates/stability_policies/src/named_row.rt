//! The rows of UnicodeData.txt, and their names.

ghost use Rattle.std.specs.Prelude.{◌≡◌, ◌++◌, IfOk, OnOk};
ghost use Rattle.std.specs.Option.{option_to_list};
ghost use Rattle.ucd_points.specs.declared.files.SourceFile.TheVariants.{UnicodeData};
ghost use Rattle.stability_policies.specs.NamedRows.{AreAbove, named, named_in};
ghost use Rattle.release_rows.specs.Releases.{rows_now};

use release_rows::{Release, RowText};
use source_rows::{possible_rows_are_readable, rows_are_read};
use std::alloc::Global;
use ucd_model::{Memory, Row, SourceFile, Span, Text};

/// The code points of a row of UnicodeData.txt, and their name, or the label of the range.
#[derive(Drop)]
pub struct NamedRow {
    /// The code points.
    pub span: Span,
    /// The name, or the label of the range.
    pub name: Text,
}

/// The rows of UnicodeData.txt of a release now, as they stand in the file, which ascends.
///
/// - `Memory`: memory ran out.
pub fn data_rows(alloc: Global, release: &Release) -> Result<Vec<RowText<'_>>, Memory>
    ensures rows { IfOk result (λ rows. rows.items ≡ rows_now release.now UnicodeData) }
    ensures above { IfOk result (λ rows. AreAbove 0 (named rows.items)) }
{
    rows_are_read();
    possible_rows_are_readable();
    let _rows = release.rows(SourceFile::UnicodeData);
    let rows = all_rows(alloc, release)?;
    Ok(rows)
}

/// The rows of UnicodeData.txt of a release now, as they stand in the file, put into a list one by one.
///
/// - `Memory`: memory ran out.
fn all_rows(alloc: Global, release: &Release) -> Result<Vec<RowText<'_>>, Memory>
    ensures { IfOk result (λ rows. rows.items ≡ rows_now release.now UnicodeData) }
{
    let mut all = Vec::new(alloc);
    let mut rows = release.rows(SourceFile::UnicodeData);
    'rows: while let Some((_, row)) = rows.next() {
        all.push(row)?;
    }
    Ok(all)
}

/// Puts the names of rows of UnicodeData.txt, in order.
///
/// - `Memory`: memory ran out.
pub fn put_names(
    alloc: Global,
    rows: &[RowText<'_>],
    into: &mut Vec<NamedRow>,
) -> Result<(), Memory>
    ensures { OnOk result (into.new.items ≡ into.old.items ++ named rows.now) }
{
    'rows: for row in rows {
        push_named(alloc, row, into)?;
    }
    Ok(())
}

/// Puts the name of a row of UnicodeData.txt.
///
/// - `Memory`: memory ran out.
pub fn push_named(alloc: Global, row: &RowText<'_>, into: &mut Vec<NamedRow>) -> Result<(), Memory>
    ensures { OnOk result (into.new.items ≡ into.old.items ++ named_in row.now) }
{
    let row = row.read(alloc)?;
    if let Some(named) = named_of(row) {
        into.push(named)?;
    }
    Ok(())
}

/// The name of a row of UnicodeData.txt; `None` for another row.
fn named_of(row: Row) -> Option<NamedRow>
    ensures { option_to_list result ≡ named_in row }
{
    match row {
        Row::Unit(row) => Some(NamedRow {
            span: row.span,
            name: row.name,
        }),
        _ => None,
    }
}
