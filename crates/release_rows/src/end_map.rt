//! The keys and the spans of rows, in the order of the keys.

ghost use Rattle.std.specs.Prelude.{◌≡◌, ◌≤◌, ◌||◌, ℕ, Bool, true, Some, None, OnOk, OnErr};
ghost use Rattle.std.specs.List.{list_any};
ghost use Rattle.release_rows.specs.Extents.{Extent, conflict_with, meets};
ghost use Rattle.release_rows.specs.Places.{extent_at};
ghost use Rattle.release_rows.specs.LoadedRows.{IsFree};

use crate::conflict::Conflict;
use crate::sort_key::SortKey;
use std::alloc::Global;
use std::collections::BTreeMap;
use std::marker::Model;
use ucd_facts::Memory;

/// The extents of rows whose keys differ and that do not overlap. Each is kept as its last code point, under the key
/// of the row. Contracts see the extents in some order.
#[derive(Drop)]
pub struct EndMap {
    ends: BTreeMap<SortKey, u32>,
}

impl Model for EndMap {
    ghost use Rattle.std.specs.Prelude.{List, map};
    ghost use Rattle.release_rows.specs.Extents.{Extent};
    ghost use Rattle.release_rows.specs.Places.{extent_of, AreApart};

    ghost Value = { List Extent };

    ghost view = { λ s. map extent_of s.ends.entries };

    ghost invariant = { λ s. AreApart s.ends };
}

impl EndMap {
    /// No extents. It takes no memory.
    pub fn new(alloc: Global) -> EndMap
        ensures { (p : Extent → Bool) → list_any p result ≡ Bool.false }
    {
        EndMap {
            ends: BTreeMap::new(alloc),
        }
    }

    /// Answers the place of a row if the row, up to its last code point, breaks no rule against these extents;
    /// otherwise the rule. It takes no memory.
    pub fn checked_place(&self, place: SortKey, last: u32) -> Result<SortKey, Conflict>
        requires { place.code ≤ last }
        ensures { IsFree result place (conflict_with self.now (extent_at place last)) }
    {
        // extents of the same names lie apart: of those that begin no later than this one ends, only the last one can
        // reach it, and it does if one has the key
        let SortKey { names, code } = place;
        let end = SortKey { names, code: last };
        let Some((before, reached)) = self.ends.range(..=&end).next_back() else {
            return Ok(SortKey {
                names: end.names,
                code,
            });
        };
        if before.names == end.names && code <= *reached {
            let names = end.names;
            return Err(self.rule_at(&SortKey { names, code }));
        }
        Ok(SortKey {
            names: end.names,
            code,
        })
    }

    /// The rule that a row breaks if it shares a code point with one of these extents.
    fn rule_at(&self, place: &SortKey) -> Conflict
        ensures { (last : ℕ) → list_any (meets (extent_at place.now last)) self.now ≡ true
            → conflict_with self.now (extent_at place.now last) ≡ Some result }
    {
        if self.ends.contains_key(place) {
            Conflict::K1
        } else {
            Conflict::K4
        }
    }

    /// Takes up the extent of a row that breaks no rule.
    ///
    /// - `Memory`: memory ran out. The map stays as it was.
    pub fn insert(&mut self, place: SortKey, last: u32) -> Result<(), Memory>
        requires ordered { place.code ≤ last }
        requires apart { conflict_with self.old (extent_at place last) ≡ None }
        ensures ok { OnOk result ((p : Extent → Bool)
            → list_any p self.new ≡ (p (extent_at place last) || list_any p self.old)) }
        ensures err { OnErr result (self.new ≡ self.old) }
    {
        self.ends.insert(place, last)?;
        Ok(())
    }
}
