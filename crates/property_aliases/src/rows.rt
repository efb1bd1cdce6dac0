//! The rows that names are resolved by.

ghost use Rattle.std.specs.Prelude.{◌≡◌, ◌++◌, IfOk, OnOk};
ghost use Rattle.property_aliases.specs.Sources.{alias_of, alias_rows, unnumbered};
ghost use Rattle.release_rows.specs.Releases.{rows_now};

use release_rows::{Release, Rows};
use std::alloc::Global;
use ucd_facts::{ListOf, Memory, Row, SourceFile, Texts};

/// Puts the names of a row of an alias file at the end.
///
/// - `Memory`: memory ran out.
fn push_alias(all: &mut ListOf<Texts>, row: Row) -> Result<(), Memory>
    ensures { OnOk result (all.new ≡ all.old ++ alias_of row) }
{
    if let Row::Alias(row) = row {
        all.push(row.names)?;
    }
    Ok(())
}

/// Rows of an alias file, each as its list of names.
///
/// - `Memory`: memory ran out.
fn names_of(alloc: Global, rows: Rows<'_>) -> Result<ListOf<Texts>, Memory>
    ensures { IfOk result (λ all. all ≡ alias_rows (unnumbered rows.entry)) }
{
    let mut rows = rows;
    let mut all = ListOf::new(alloc);
    'rows: while let Some((_line, row)) = rows.next() {
        push_alias(&mut all, row.read(alloc)?)?;
    }
    Ok(all)
}

/// The rows of an alias file now, each as its list of names.
///
/// - `Memory`: memory ran out.
pub(crate) fn alias_rows(
    alloc: Global,
    release: &Release,
    file: SourceFile,
) -> Result<ListOf<Texts>, Memory>
    ensures { IfOk result (λ all. all ≡ alias_rows (rows_now release.now file)) }
{
    names_of(alloc, release.rows(file))
}
