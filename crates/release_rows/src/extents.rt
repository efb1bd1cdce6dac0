//! The extents of the rows of a file so far.

ghost use Rattle.std.specs.Prelude.{◌≡◌, ◌≤◌, ◌||◌, Bool, None, IsSome, IfOk, OnOk, OnErr};
ghost use Rattle.std.specs.List.{list_any};
ghost use Rattle.release_rows.specs.Extents.{Extent, conflict_with};
ghost use Rattle.release_rows.specs.Places.{extent_at};
ghost use Rattle.release_rows.specs.LoadedRows.{IsFree};

use crate::conflict::Conflict;
use crate::end_map::EndMap;
use crate::nameless_span::{NamelessSpan, nameless_conflict};
use crate::sort_key::SortKey;
use std::alloc::Global;
use std::marker::Model;
use ucd_facts::{Memory, SourceFile};

/// The extents of rows whose keys differ and that do not overlap. Contracts see them in some order.
///
/// A row that begins behind the ends of all of them has no conflict. In UnicodeData.txt each row that may stand does,
/// so its rows are kept one behind the other: only a row that is a fault is compared with each of them.
#[derive(Drop)]
pub struct Extents {
    /// Whether rows without names are kept as runs.
    keeps_runs: bool,
    /// The rows that are kept as runs.
    runs: Vec<NamelessSpan>,
    /// The other rows, in the order of their keys.
    ends: EndMap,
    /// No extent begins or ends at this number or behind it.
    end: u64,
}

impl Model for Extents {
    ghost use Rattle.std.specs.Prelude.{◌++◌, List, map};
    ghost use Rattle.release_rows.specs.Extents.{Extent};
    ghost use Rattle.release_rows.specs.NamelessSpans.{nameless_extent, AllBefore};

    ghost Value = { List Extent };

    ghost view = { λ s. map nameless_extent s.runs.items ++ s.ends };

    ghost invariant = { λ s. AllBefore s.end (map nameless_extent s.runs.items ++ s.ends) };
}

impl Extents {
    /// No extents of rows of a file. It takes no memory.
    pub fn new(alloc: Global, file: SourceFile) -> Extents
        ensures { (p : Extent → Bool) → list_any p result ≡ Bool.false }
    {
        Extents {
            keeps_runs: file == SourceFile::UnicodeData,
            runs: Vec::new(alloc),
            ends: EndMap::new(alloc),
            end: 0,
        }
    }

    /// Answers the place of a row if the row, up to its last code point, breaks no rule against these extents;
    /// otherwise the rule. It takes no memory.
    fn checked_place(&self, place: SortKey, last: u32) -> Result<SortKey, Conflict>
        requires { place.code ≤ last }
        ensures { IsFree result place (conflict_with self.now (extent_at place last)) }
    {
        if self.end <= u64::from(place.code) {
            return Ok(place);
        }
        match nameless_conflict(&self.runs, &place, last) {
            None => self.ends.checked_place(place, last),
            Some(Conflict::K1) => Err(Conflict::K1),
            Some(Conflict::K4) => match self.ends.checked_place(place, last) {
                Err(Conflict::K1) => Err(Conflict::K1),
                _ => Err(Conflict::K4),
            },
        }
    }

    /// Takes up the extent of a row that breaks no rule.
    ///
    /// - `Memory`: memory ran out. The set stays as it was.
    fn insert(&mut self, place: SortKey, last: u32) -> Result<(), Memory>
        requires ordered { place.code ≤ last }
        requires apart { conflict_with self.old (extent_at place last) ≡ None }
        ensures ok { OnOk result ((p : Extent → Bool)
            → list_any p self.new ≡ (p (extent_at place last) || list_any p self.old)) }
        ensures err { OnErr result (self.new ≡ self.old) }
    {
        let end = self.end.max(u64::from(last) + 1);
        if self.keeps_runs && place.names.is_empty() {
            self.runs.push(NamelessSpan {
                first: place.code,
                last,
            })?;
            self.end = end;
            return Ok(());
        }
        self.ends.insert(place, last)?;
        self.end = end;
        Ok(())
    }

    /// Takes up the extent of a row; or answers the rule that the row breaks, and stays as it was.
    ///
    /// - `Memory`: memory ran out. The set stays as it was.
    pub fn take(&mut self, place: SortKey, last: u32) -> Result<Option<Conflict>, Memory>
        requires { place.code ≤ last }
        ensures rule { IfOk result (λ rule. rule ≡ conflict_with self.old (extent_at place last)) }
        ensures keys { OnOk result (conflict_with self.old (extent_at place last) ≡ None
            → (p : Extent → Bool)
            → list_any p self.new ≡ (p (extent_at place last) || list_any p self.old)) }
        ensures stays { IfOk result (λ rule. IsSome rule → self.new ≡ self.old) }
        ensures err { OnErr result (self.new ≡ self.old) }
    {
        match self.checked_place(place, last) {
            Ok(place) => {
                self.insert(place, last)?;
                Ok(None)
            }
            Err(rule) => Ok(Some(rule)),
        }
    }
}
