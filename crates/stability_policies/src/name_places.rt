//! Where names stand in the rows of an alias file.

ghost use Rattle.std.specs.Prelude.{◌≡◌, ◌&&◌, ◌||◌, ◌==◌, ℕ, List, is_some, length, IfOk, OnOk};
ghost use Rattle.std.specs.List.{list_any};
ghost use Rattle.std.specs.Str.{bytes_eq};
ghost use Rattle.stability_policies.specs.NamePlaces.{has_name, has_names, is_at, place_of, IsNext, IsStep};
ghost use Rattle.stability_policies.specs.Reports.{keeps_names};

use crate::alias_rows::keeps_property_name;
use std::alloc::Global;
use std::marker::Model;
use ucd_model::{Memory, SourceFile, Text, Texts};

/// The names of rows in the order of their bytes, each with the place of its row. Contracts see the rows.
#[derive(Drop)]
pub struct NamePlaces<'a> {
    rows: &'a [Texts],
    entries: Vec<(&'a [u8], usize)>,
}

impl<'a> Model for NamePlaces<'a> {
    ghost use Rattle.std.specs.Prelude.{ℕ, List};
    ghost use Rattle.stability_policies.specs.NamePlaces.{AreNames};

    ghost Value = { List (List (List ℕ)) };

    ghost view = { λ n. n.rows.now };

    ghost invariant = { λ n. AreNames n.rows.now n.entries.items };
}

/// Puts the names of the row at a place.
///
/// - `Memory`: memory ran out.
fn put_names<'a>(
    place: usize,
    row: &'a [Text],
    into: &mut Vec<(&'a [u8], usize)>,
) -> Result<(), Memory>
    ensures { OnOk result ((name : List ℕ) (p : ℕ)
        → list_any (is_at name p) into.new.items
        ≡ (list_any (is_at name p) into.old.items
        || (list_any (bytes_eq name) row.now && place == p))) }
{
    for name in row {
        into.push((name.as_slice(), place))?;
    }
    Ok(())
}

/// The place that a search ends at, whether or not something is found there.
fn place_of(found: Result<usize, usize>) -> usize
    ensures { result ≡ place_of found }
{
    match found {
        Ok(at) | Err(at) => at,
    }
}

impl<'a> NamePlaces<'a> {
    /// The names of these rows.
    ///
    /// - `Memory`: memory ran out.
    pub fn of(alloc: Global, rows: &'a [Texts]) -> Result<NamePlaces<'a>, Memory>
        ensures { IfOk result (λ places. places ≡ rows.now) }
    {
        let mut entries = Vec::new(alloc);
        for (place, row) in rows.iter().enumerate() {
            put_names(place, row.as_slice(), &mut entries)?;
        }
        entries.sort_unstable();
        Ok(NamePlaces { rows, entries })
    }

    /// The first place from `start` on at which a row has the name; `None` if none has it.
    fn next(&self, name: &[u8], start: usize) -> Option<usize>
        ensures { IsNext (has_name self.now name.now) start result }
    {
        let at = place_of(self.entries.binary_search(&(name, start)));
        match self.entries.get(at) {
            Some((other, place)) if *other == name => Some(*place),
            _ => None,
        }
    }

    /// `start`, if the row there has all of these names. Else a later place before which no row from there on has them all;
    /// `None` if no row has.
    fn step(&self, names: &[Text], start: usize) -> Option<usize>
        ensures { IsStep (has_names self.now names.now) (length self.now) start result }
    {
        let mut place = start;
        for name in names {
            match self.next(name.as_slice(), place) {
                Some(next) => place = next,
                None => return None,
            }
        }
        Some(place)
    }

    /// The first place of a row that keeps the names; `None` if no row keeps them. Its time grows with the names, with
    /// the logarithm of all names, and with the rows that have the rarest of them.
    pub fn find_keeping_row(&self, file: SourceFile, names: &[Text]) -> Option<usize>
        ensures { is_some result ≡ list_any (keeps_names file names.now) self.now }
    {
        let mut start = 0;
        'rows: while start < self.rows.len() {
            match self.step(names, start) {
                None => return None,
                Some(place) if place > start => start = place,
                Some(_) => {
                    if keeps_property_name(file, names, self.rows[start].as_slice()) {
                        return Some(start);
                    }
                    start += 1;
                }
            }
        }
        None
    }
}
