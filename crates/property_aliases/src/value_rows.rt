//! The rows of PropertyValueAliases.txt by the property that they speak of.

ghost use Rattle.std.specs.Prelude.{◌≡◌, ◌<◌, [], ◌∷◌, ℕ, List, None, drop, length, nat_eq, IfOk, OnOk, if◌then◌else◌};
ghost use Rattle.std.specs.List.{flat_map};
ghost use Rattle.property_aliases.specs.Kinds.{kind_of, number_at};
ghost use Rattle.property_aliases.specs.NumberMaps.{index_in_names};
ghost use Rattle.property_aliases.specs.Properties.{property_by};
ghost use Rattle.property_aliases.specs.ResolvingLaws.{least, rows_number};
ghost use Rattle.property_aliases.specs.Sources.{alias_of, alias_rows, unnumbered};
ghost use Rattle.property_aliases.specs.Values.{behind, first_index};
ghost use Rattle.release_rows.specs.Releases.{rows_now};
ghost use Rattle.ucd_points.specs.declared.files.SourceFile.TheVariants.{PropertyValueAliases};

use crate::indexing::{index_in, property_by};
use crate::kinds::names_kind_of;
use crate::naming::{Names, add_row};
use crate::number_map::NumberMap;
use release_rows::{Release, RowText, Rows};
use std::alloc::Global;
use ucd_facts::{Memory, Row, SourceFile, Text};

/// The property that the first name of a row names.
fn first_index(properties: &Names, row: &[Text]) -> Option<usize>
    ensures { result ≡ first_index (index_in_names properties.now) row.now }
{
    match row {
        [name, ..] => index_in(properties, name.as_slice()),
        [] => None,
    }
}

/// The names of a row behind the first.
fn names_behind_first(row: &[Text]) -> &[Text]
    ensures { result.now ≡ drop 1 row.now }
{
    match row {
        [_first, rest @ ..] => rest,
        _ => row,
    }
}

/// Makes maps, without a name, up to the one with this index.
///
/// - `Memory`: memory ran out.
fn make_maps_up_to(alloc: Global, maps: &mut Vec<NumberMap>, index: usize) -> Result<(), Memory>
    ensures reached { OnOk result (index < length maps.new.items) }
    ensures numbers { OnOk result ((i : ℕ) (key : List ℕ)
        → number_at maps.new.items i key ≡ number_at maps.old.items i key) }
{
    'maps: while maps.len() <= index {
        maps.push(NumberMap::new(alloc))?;
    }
    Ok(())
}

/// Gives the names of a row the least place to which one of them leads, in the map of a property.
///
/// - `Memory`: memory ran out.
fn add_row_to_map(
    alloc: Global,
    kinds: &[NumberMap],
    maps: &mut Vec<NumberMap>,
    index: usize,
    row: &[Text],
) -> Result<(), Memory>
    requires kinds { length kinds.now ≡ 7 }
    ensures { OnOk result ((i : ℕ) (key : List ℕ)
        → number_at maps.new.items i key
        ≡ least (number_at maps.old.items i key)
        (rows_number (number_at kinds.now (kind_of (property_by i)))
        (if nat_eq index i then row.now ∷ [] else []) key)) }
{
    make_maps_up_to(alloc, maps, index)?;
    let direct = &kinds[names_kind_of(property_by(index))];
    add_row(alloc, direct, &mut maps[index], row)
}

/// Gives the later names of a row the least place to which one of them leads, in the map of the property that the first
/// name names.
///
/// - `Memory`: memory ran out.
fn add_value_row(
    alloc: Global,
    properties: &Names,
    kinds: &[NumberMap],
    maps: &mut Vec<NumberMap>,
    row: &[Text],
) -> Result<(), Memory>
    requires kinds { length kinds.now ≡ 7 }
    ensures { OnOk result ((i : ℕ) (key : List ℕ)
        → number_at maps.new.items i key
        ≡ least (number_at maps.old.items i key)
        (rows_number (number_at kinds.now (kind_of (property_by i)))
        (behind (index_in_names properties.now) i row.now) key)) }
{
    match first_index(properties, row) {
        Some(index) => add_row_to_map(alloc, kinds, maps, index, names_behind_first(row)),
        None => Ok(()),
    }
}

/// Gives the later names of a row of any file the least place to which one of them leads, in the map of the property that
/// the first name names. Only rows of alias files give names a place.
///
/// - `Memory`: memory ran out.
fn add_if_alias_row(
    alloc: Global,
    properties: &Names,
    kinds: &[NumberMap],
    maps: &mut Vec<NumberMap>,
    row: &Row,
) -> Result<(), Memory>
    requires kinds { length kinds.now ≡ 7 }
    ensures { OnOk result ((i : ℕ) (key : List ℕ)
        → number_at maps.new.items i key
        ≡ least (number_at maps.old.items i key)
        (rows_number (number_at kinds.now (kind_of (property_by i)))
        (flat_map (behind (index_in_names properties.now) i) (alias_of row.now)) key)) }
{
    match row {
        Row::Alias(row) => add_value_row(alloc, properties, kinds, maps, row.names.as_slice()),
        _ => Ok(()),
    }
}

/// Gives the later names of a row of any file the least place to which one of them leads, in the map of the property that
/// the first name names. Only rows of alias files give names a place. The row is read from its bytes, and let go of.
///
/// - `Memory`: memory ran out.
fn read_and_add_row(
    alloc: Global,
    properties: &Names,
    kinds: &[NumberMap],
    maps: &mut Vec<NumberMap>,
    row: &RowText<'_>,
) -> Result<(), Memory>
    requires kinds { length kinds.now ≡ 7 }
    ensures { OnOk result ((i : ℕ) (key : List ℕ)
        → number_at maps.new.items i key
        ≡ least (number_at maps.old.items i key)
        (rows_number (number_at kinds.now (kind_of (property_by i)))
        (flat_map (behind (index_in_names properties.now) i) (alias_of row.now)) key)) }
{
    let read = row.read(alloc)?;
    add_if_alias_row(alloc, properties, kinds, maps, &read)
}

/// For each property, the least place to which the rows that speak of it tie each of their later names. A row is let go of
/// before the next one is read.
///
/// - `Memory`: memory ran out.
fn numbers_of(
    alloc: Global,
    properties: &Names,
    kinds: &[NumberMap],
    rows: Rows<'_>,
) -> Result<Vec<NumberMap>, Memory>
    requires kinds { length kinds.now ≡ 7 }
    ensures { IfOk result (λ maps. (i : ℕ) (key : List ℕ)
        → number_at maps.items i key
        ≡ rows_number (number_at kinds.now (kind_of (property_by i)))
        (flat_map (behind (index_in_names properties.now) i)
        (alias_rows (unnumbered rows.entry))) key) }
{
    let mut left = rows;
    let mut maps = Vec::new(alloc);
    'rows: while let Some((_line, row)) = left.next() {
        read_and_add_row(alloc, properties, kinds, &mut maps, &row)?;
    }
    Ok(maps)
}

/// For each property, the least place to which the rows of PropertyValueAliases.txt of a release now that speak of it tie
/// each of their later names. A row is let go of before the next one is read.
///
/// - `Memory`: memory ran out.
pub(crate) fn places_by_property(
    alloc: Global,
    release: &Release,
    properties: &Names,
    kinds: &[NumberMap],
) -> Result<Vec<NumberMap>, Memory>
    requires kinds { length kinds.now ≡ 7 }
    ensures { IfOk result (λ maps. (i : ℕ) (key : List ℕ)
        → number_at maps.items i key
        ≡ rows_number (number_at kinds.now (kind_of (property_by i)))
        (flat_map (behind (index_in_names properties.now) i)
        (alias_rows (rows_now release.now PropertyValueAliases))) key) }
{
    let rows = release.rows(SourceFile::PropertyValueAliases);
    numbers_of(alloc, properties, kinds, rows)
}
