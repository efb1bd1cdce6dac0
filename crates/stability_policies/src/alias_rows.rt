//! P17: the names of rows of alias files. UAX #44, section 5.8.

ghost use Rattle.std.specs.Prelude.{◌≡◌, ◌++◌, ◌∷◌, [], cond, map, not, true, IfOk, IsTrue, OnOk};
ghost use Rattle.std.specs.List.{list_any};
ghost use Rattle.release_rows.specs.Releases.{items_now, rows_at};
ghost use Rattle.ucd_points.specs.declared.files.SourceFile.{SourceFile};
ghost use Rattle.stability_policies.specs.Reports.{keeps_first, keeps_names, lost_in, names_in, same_first};
ghost use Rattle.stability_policies.specs.declared.breaks.Break.TheVariants.{Alias};

use crate::breaks::{Break, Breaks};
use crate::name_places::NamePlaces;
use release_rows::{Release, RowText};
use std::alloc::Global;
use std::marker::Model;
use ucd_model::{ListOf, Memory, Row, SourceFile, Text, Texts};

/// Puts the breaks of P17 by the rows of a file, by line.
///
/// - `Memory`: memory ran out.
pub fn put_lost_aliases(
    alloc: Global,
    file: SourceFile,
    old: &Release,
    new: &Release,
    into: &mut Breaks,
) -> Result<(), Memory>
    ensures { OnOk result (into.new ≡ into.old ++ lost_in file old.now new.now) }
{
    let names = all_names(alloc, file, new)?;
    let mut kept = KeptRows::of(names.as_slice());
    let mut rows = old.rows(file);
    'rows: while let Some((line, row)) = rows.next() {
        put_if_lost(alloc, file, line, &row, &mut kept, into)?;
    }
    Ok(())
}

/// Puts a break by a row, if none of the rows of the new file keeps its names.
///
/// - `Memory`: memory ran out.
fn put_if_lost(
    alloc: Global,
    file: SourceFile,
    line: u64,
    row: &RowText<'_>,
    kept: &mut KeptRows<'_>,
    into: &mut Breaks,
) -> Result<(), Memory>
    ensures lost { OnOk result (into.new ≡ into.old
        ++ cond (not (list_any (keeps_names file (names_in row.now)) kept.old))
        ((Alias file line) ∷ []) []) }
    ensures same { kept.new ≡ kept.old }
{
    let names = names_of(alloc, row)?;
    if !kept.has_keeping_row(alloc, file, names.as_slice())? {
        into.push(Break::Alias { file, line })?;
    }
    Ok(())
}

/// The names of the rows of a file, row by row.
///
/// - `Memory`: memory ran out.
fn all_names(alloc: Global, file: SourceFile, release: &Release) -> Result<ListOf<Texts>, Memory>
    ensures { IfOk result (λ names. names
        ≡ map (λ r. names_in r.1) (rows_at (items_now release.now file))) }
{
    let mut names = ListOf::new(alloc);
    let mut rows = release.rows(file);
    'rows: while let Some((_, row)) = rows.next() {
        names.push(names_of(alloc, &row)?)?;
    }
    Ok(names)
}

/// The names of a row of an alias file; none of another row.
///
/// - `Memory`: memory ran out.
fn names_of(alloc: Global, row: &RowText<'_>) -> Result<Texts, Memory>
    ensures { IfOk result (λ names. names ≡ names_in row.now) }
{
    match row.read(alloc)? {
        Row::Alias(row) => Ok(row.names),
        _ => Ok(Texts::new(alloc)),
    }
}

/// The rows of the new file, of which some may keep the names of a row. Contracts see the names of each.
#[derive(Drop)]
struct KeptRows<'a> {
    rows: &'a [Texts],
    // the place behind the row that was found last
    likely: usize,
    // made when a row is not found there
    places: Option<NamePlaces<'a>>,
}

impl<'a> Model for KeptRows<'a> {
    ghost use Rattle.std.specs.Prelude.{◌≡◌, ℕ, List, IfSome};

    ghost Value = { List (List (List ℕ)) };

    ghost view = { λ k. k.rows.now };

    ghost invariant = { λ k. IfSome k.places (λ places. places ≡ k.rows.now) };
}

impl<'a> KeptRows<'a> {
    /// Rows with these names.
    fn of(rows: &'a [Texts]) -> KeptRows<'a>
        ensures { result ≡ rows.now }
    {
        KeptRows {
            rows,
            likely: 0,
            places: None,
        }
    }

    /// Whether the row at the likely place has the same names, in the same order.
    fn is_at_likely_place(&self, names: &[Text]) -> bool
        ensures { IsTrue result → (file : SourceFile)
            → list_any (keeps_names file names.now) self.now ≡ true }
    {
        self.likely < self.rows.len() && are_same(names, self.rows[self.likely].as_slice())
    }

    /// Whether a row keeps these names.
    ///
    /// - `Memory`: memory ran out.
    fn has_keeping_row(
        &mut self,
        alloc: Global,
        file: SourceFile,
        names: &[Text],
    ) -> Result<bool, Memory>
        ensures found { IfOk result
            (λ kept. kept ≡ list_any (keeps_names file names.now) self.old) }
        ensures same { self.new ≡ self.old }
    {
        if self.is_at_likely_place(names) {
            self.likely = self.likely.saturating_add(1);
            return Ok(true);
        }
        let places = match self.places.take() {
            Some(places) => places,
            None => NamePlaces::of(alloc, self.rows)?,
        };
        let found = places.find_keeping_row(file, names);
        self.places = Some(places);
        if let Some(place) = found {
            self.likely = place.saturating_add(1);
        }
        Ok(found.is_some())
    }
}

/// Whether the names of two rows are the same, in the same order.
fn are_same(a: &[Text], b: &[Text]) -> bool
    ensures { IsTrue result → a.now ≡ b.now }
{
    if a.len() != b.len() {
        return false;
    }
    for at in 0..a.len() {
        if a[at].as_slice() != b[at].as_slice() {
            return false;
        }
    }
    true
}

/// Whether the first names are the same, if the first name of a row of this file names a property.
pub fn keeps_property_name(file: SourceFile, a: &[Text], b: &[Text]) -> bool
    ensures { result ≡ keeps_first file a.now b.now }
{
    match file {
        SourceFile::PropertyValueAliases => has_same_first(a, b),
        _ => true,
    }
}

/// Whether the first names are the same; if one row has no names, whether the other has none.
fn has_same_first(a: &[Text], b: &[Text]) -> bool
    ensures { result ≡ same_first a.now b.now }
{
    match (a, b) {
        ([first, ..], [other, ..]) => first.as_slice() == other.as_slice(),
        ([], []) => true,
        _ => false,
    }
}
