//! What names mean by a table of names and the rows of an alias file.

ghost use Rattle.std.specs.Prelude.{◌≡◌, ℕ, List, Some, IfOk, OnOk};
ghost use Rattle.property_aliases.specs.Loose.{loose};
ghost use Rattle.property_aliases.specs.NumberMaps.{found_in, number_in};
ghost use Rattle.property_aliases.specs.Resolving.{number_of};
ghost use Rattle.property_aliases.specs.ResolvingLaws.{direct, least, put, row_number, rows_number};

use crate::number_map::NumberMap;
use std::alloc::Global;
use ucd_facts::{Memory, Text, Texts};

/// The place of each name of a table, the first if two match.
///
/// - `Memory`: memory ran out.
pub(crate) fn places_of_table(alloc: Global, names: &[Text]) -> Result<NumberMap, Memory>
    ensures { IfOk result (λ map. (key : List ℕ) → number_in map key ≡ direct names.now key) }
{
    let mut map = NumberMap::new(alloc);
    let mut place = 0;
    'names: while place < names.len() {
        map.put(alloc, place, names[place].as_slice())?;
        place += 1;
    }
    Ok(map)
}

/// The lesser of two numbers, each of which may be missing.
pub(crate) fn lesser_number(first: Option<usize>, second: Option<usize>) -> Option<usize>
    ensures { result ≡ least first second }
{
    match (first, second) {
        (None, _) => second,
        (Some(_), None) => first,
        (Some(a), Some(b)) => Some(a.min(b)),
    }
}

/// The least place to which a name of a row leads.
fn least_place_of_row(direct: &NumberMap, row: &[Text]) -> Option<usize>
    ensures { result ≡ row_number (number_in direct.now) row.now }
{
    let mut number = None;
    'names: for name in row {
        number = lesser_number(number, direct.find(name.as_slice()));
    }
    number
}

/// Gives a number to each name of a row, unless it has a lesser one.
///
/// - `Memory`: memory ran out.
fn put_row(alloc: Global, rows: &mut NumberMap, number: usize, row: &[Text]) -> Result<(), Memory>
    ensures { OnOk result ((key : List ℕ)
        → number_in rows.new key ≡ least (number_in rows.old key) (put row.now key (Some number))) }
{
    'names: for name in row {
        rows.put(alloc, number, name.as_slice())?;
    }
    Ok(())
}

/// Gives the least place to which a name of a row leads to each name of the row.
///
/// - `Memory`: memory ran out.
pub(crate) fn add_row(
    alloc: Global,
    direct: &NumberMap,
    rows: &mut NumberMap,
    row: &[Text],
) -> Result<(), Memory>
    ensures { OnOk result ((key : List ℕ)
        → number_in rows.new key
        ≡ least (number_in rows.old key)
        (put row.now key (row_number (number_in direct.now) row.now))) }
{
    match least_place_of_row(direct, row) {
        Some(number) => put_row(alloc, rows, number, row),
        None => Ok(()),
    }
}

/// The least place to which the rows tie each of their names.
///
/// - `Memory`: memory ran out.
pub(crate) fn places_by_rows(
    alloc: Global,
    direct: &NumberMap,
    rows: &[Texts],
) -> Result<NumberMap, Memory>
    ensures { IfOk result (λ map. (key : List ℕ)
        → number_in map key ≡ rows_number (number_in direct.now) rows.now key) }
{
    let mut map = NumberMap::new(alloc);
    'rows: for row in rows {
        add_row(alloc, direct, &mut map, row.as_slice())?;
    }
    Ok(map)
}

/// A table of names, and the rows of an alias file that tie names to them.
#[derive(Drop)]
pub(crate) struct Names {
    pub(crate) direct: NumberMap,
    pub(crate) rows: NumberMap,
}

impl Names {
    /// The names of a table, by these rows.
    ///
    /// - `Memory`: memory ran out.
    pub(crate) fn of(alloc: Global, names: &[Text], rows: &[Texts]) -> Result<Names, Memory>
        ensures { IfOk result (λ found. (key : List ℕ)
            → found_in found.direct found.rows key ≡ number_of names.now rows.now key) }
    {
        let direct = places_of_table(alloc, names)?;
        let rows = places_by_rows(alloc, &direct, rows)?;
        Ok(Names { direct, rows })
    }
}

/// The place of the first name that this names.
pub(crate) fn find_in(direct: &NumberMap, rows: &NumberMap, name: &[u8]) -> Option<usize>
    ensures { result ≡ found_in direct.now rows.now (loose name.now) }
{
    lesser_number(direct.find(name), rows.find(name))
}
