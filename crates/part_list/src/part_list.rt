//! Lists that can be edited.

ghost use Rattle.std.specs.Prelude.{◌≡◌, ◌+◌, ◌<◌, ◌≤◌, false, [], ◌∷◌, ◌++◌, length, slice_set, OnOk, OnErr};
ghost use Rattle.std.specs.List.{insert, remove};
ghost use Rattle.part_list.specs.Parts.{IsEntry, IsGap, now_in, next_in, part_at, place, spliced};
ghost use Rattle.part_list.specs.Puts.{put_entries};

use crate::change::{commit_all, discard_all, drop_empty_if_shrunk};
use crate::copy::copied_parts;
use crate::entry::Entry;
use crate::fill::{edit, push, put_first_entry};
use crate::guides::{renew, renew_all};
use crate::hints::Hints;
use crate::part::Part;
use crate::put::Put;
use crate::reach::Reach;
use crate::spot::Spot;
use std::alloc::Global;
use std::marker::Model;
use ucd_points::{Copied, Memory};

/// A list of items, each with the code points that it speaks of, twice: the list now, and the list next. Edits change
/// what is next, `commit` makes it what is now, and `discard` drops it. Contracts see the parts in which it is kept.
///
/// An edit takes time in proportion to the entries of one part; if a part is cut in two, to the number of parts. The first edit, and later
/// one after as many as half of the entries, also gathers the tags of all. If entries are in no order, an edit after 64 others gathers their
/// code points too, up to 4,096 of each, and later one does so as often. A search for a tag that no entry has ends at once. One for at most
/// 4,096 code points, of which no entry spoke since code points were gathered, ends after a look at these, 64 at once, and at 512 wide entries
/// at most. Another one looks at the bounds of each block of 16 parts, at those of the parts of blocks that may have what it looks for, and at the
/// entries of such parts; if these are in order, at those that bounds of halves do not rule out. `commit` and `discard` take no memory. If
/// something was edited they take time in proportion to the number of parts and to the entries of those that were edited; otherwise they
/// do nothing.
#[derive(Debug, Drop)]
pub struct PartList<T: Copy> {
    alloc: Global,
    pub(crate) parts: Vec<Part<T>>,
    /// Bounds of the first blocks of the parts, by which searches pass many at once.
    pub(crate) guides: Vec<Reach>,
    /// Tags, of which each entry has one now and next, and code points of which it speaks, by which searches for others end at once.
    pub(crate) hints: Hints<T>,
    /// Whether there may be a part whose entries next are others than now.
    edited: bool,
    /// Whether an entry was taken out of what is next since the last `commit` or `discard`.
    shrunk: bool,
}

impl<T: Copy> Model for PartList<T> {
    ghost use Rattle.part_list.specs.declared.entry.Entry.{Entry};
    ghost use Rattle.std.specs.Prelude.{◌≡◌, false};
    ghost use Rattle.std.specs.List.{All};
    ghost use Rattle.part_list.specs.Guides.{Covers};
    ghost use Rattle.part_list.specs.Parts.{PartLists, flat};
    ghost use Rattle.part_list.specs.PartValues.{parts_now, parts_next};
    ghost use Rattle.part_list.specs.Hints.{IsHinted};

    ghost Value = { PartLists (Entry T) };

    ghost view = { λ l. record { now = parts_now l.parts.items; next = parts_next l.parts.items } };

    ghost invariant = { λ l. Covers l.guides.items (parts_next l.parts.items) × (l.edited ≡ false → parts_now l.parts.items ≡ parts_next l.parts.items) × All (IsHinted l.hints) (flat (parts_now l.parts.items)) × All (IsHinted l.hints) (flat (parts_next l.parts.items)) };
}

impl<T: Copy> PartList<T> {
    /// The list without entries. It takes no memory.
    pub fn new(alloc: Global) -> PartList<T>
        ensures { result ≡ record { now = []; next = [] } }
    {
        PartList {
            alloc,
            parts: Vec::new(alloc),
            guides: Vec::new(alloc),
            hints: Hints::unknown(),
            edited: false,
            shrunk: false,
        }
    }

    /// Puts an entry at the end, now and next. This is how a list is loaded.
    ///
    /// - `Memory`: memory ran out. The list stays as it was.
    pub fn push(&mut self, entry: Entry<T>) -> Result<(), Memory>
        ensures now { OnOk result (now_in self.new ≡ now_in self.old ++ entry ∷ []) }
        ensures next { OnOk result (next_in self.new ≡ next_in self.old ++ entry ∷ []) }
        ensures err { OnErr result (self.new ≡ self.old) }
    {
        self.edited = true;
        self.guides.clear();
        self.hints = Hints::unknown();
        push(self.alloc, &mut self.parts, entry)
    }

    /// Puts an entry at the end next.
    ///
    /// - `Memory`: memory ran out. The list stays as it was.
    pub fn push_next(&mut self, entry: Entry<T>) -> Result<(), Memory>
        ensures now { now_in self.new ≡ now_in self.old }
        ensures ok { OnOk result (next_in self.new ≡ next_in self.old ++ entry ∷ []) }
        ensures err { OnErr result (self.new ≡ self.old) }
    {
        let Some(slot) = self.parts.len().checked_sub(1) else {
            self.edited = true;
            self.guides.clear();
            self.hints = Hints::unknown();
            return put_first_entry(self.alloc, &mut self.parts, entry);
        };
        let at = self.parts[slot].next().len();
        self.edit(Spot { slot, at }, 0, Put::one(entry))
    }

    /// Puts entries next in the place of the `removed` ones from a spot on.
    ///
    /// - `Memory`: memory ran out. The list stays as it was.
    fn edit(&mut self, spot: Spot, removed: usize, put: Put<T>) -> Result<(), Memory>
        requires part { spot.slot < length self.old.next }
        requires within { spot.at + removed ≤ length (part_at self.old.next spot.slot) }
        ensures now { now_in self.new ≡ now_in self.old }
        ensures ok { OnOk result (next_in self.new
            ≡ spliced (next_in self.old) (place self.old.next spot) removed (put_entries put)) }
        ensures err { OnErr result (self.new ≡ self.old) }
    {
        self.edited = true;
        self.hints.note(self.alloc, &self.parts, put);
        let count = self.parts.len();
        edit(self.alloc, &mut self.parts, spot, removed, put)?;
        if self.parts.len() == count && self.guides.len() > 0 {
            renew(&mut self.guides, &self.parts, spot.slot);
        } else {
            renew_all(&mut self.guides, &self.parts);
        }
        Ok(())
    }

    /// Puts an entry next before the one at a spot, or at the end of the spot's part.
    ///
    /// - `Memory`: memory ran out. The list stays as it was.
    pub fn insert(&mut self, spot: Spot, entry: Entry<T>) -> Result<(), Memory>
        requires { IsGap self.old.next spot }
        ensures now { now_in self.new ≡ now_in self.old }
        ensures ok { OnOk result (next_in self.new
            ≡ insert (next_in self.old) (place self.old.next spot) entry) }
        ensures err { OnErr result (self.new ≡ self.old) }
    {
        self.edit(spot, 0, Put::one(entry))
    }

    /// Puts an entry next in the place of the one at a spot.
    ///
    /// - `Memory`: memory ran out. The list stays as it was.
    pub fn replace(&mut self, spot: Spot, entry: Entry<T>) -> Result<(), Memory>
        requires { IsEntry self.old.next spot }
        ensures now { now_in self.new ≡ now_in self.old }
        ensures ok { OnOk result (next_in self.new
            ≡ slice_set (next_in self.old) (place self.old.next spot) entry) }
        ensures err { OnErr result (self.new ≡ self.old) }
    {
        self.edit(spot, 1, Put::one(entry))
    }

    /// Puts an entry next in the place of the one at a spot, and another one after it.
    ///
    /// - `Memory`: memory ran out. The list stays as it was.
    pub fn replace_and_insert(
        &mut self,
        spot: Spot,
        entry: Entry<T>,
        behind: Entry<T>,
    ) -> Result<(), Memory>
        requires { IsEntry self.old.next spot }
        ensures now { now_in self.new ≡ now_in self.old }
        ensures ok { let at = place self.old.next spot in
            OnOk result (next_in self.new
            ≡ insert (slice_set (next_in self.old) at entry) (at + 1) behind) }
        ensures err { OnErr result (self.new ≡ self.old) }
    {
        self.edit(spot, 1, Put::two(entry, behind))
    }

    /// Takes the entry at a spot out of what is next.
    ///
    /// - `Memory`: memory ran out. The list stays as it was.
    pub fn remove(&mut self, spot: Spot) -> Result<(), Memory>
        requires { IsEntry self.old.next spot }
        ensures now { now_in self.new ≡ now_in self.old }
        ensures ok { OnOk result (next_in self.new
            ≡ remove (next_in self.old) (place self.old.next spot)) }
        ensures err { OnErr result (self.new ≡ self.old) }
    {
        self.shrunk = true;
        self.edit(spot, 1, Put::none())
    }

    /// Whether what is next may be other than what is now: something was edited since the last `commit` or `discard`.
    pub fn is_edited(&self) -> bool
        ensures { result ≡ false → next_in self.now ≡ now_in self.now }
    {
        self.edited
    }

    /// Makes what is next what is now. It takes no memory.
    pub fn commit(&mut self)
        ensures now { now_in self.new ≡ next_in self.old }
        ensures next { next_in self.new ≡ next_in self.old }
    {
        if !self.edited {
            return;
        }
        commit_all(&mut self.parts);
        drop_empty_if_shrunk(&mut self.parts, &mut self.guides, self.shrunk);
        self.edited = false;
        self.shrunk = false;
    }

    /// Makes what is now what is next. It takes no memory.
    pub fn discard(&mut self)
        ensures now { now_in self.new ≡ now_in self.old }
        ensures next { next_in self.new ≡ now_in self.old }
    {
        if !self.edited {
            return;
        }
        self.guides.clear();
        discard_all(&mut self.parts);
        drop_empty_if_shrunk(&mut self.parts, &mut self.guides, true);
        self.edited = false;
        self.shrunk = false;
    }
}

impl<T: Copy> Copied for PartList<T> {
    fn copied(&self, alloc: Global) -> Result<PartList<T>, Memory> {
        let parts = copied_parts(alloc, &self.parts)?;
        let guides = Vec::from_slice(alloc, &self.guides)?;
        Ok(PartList {
            alloc,
            parts,
            guides,
            hints: Hints::unknown(),
            edited: self.edited,
            shrunk: self.shrunk,
        })
    }
}
