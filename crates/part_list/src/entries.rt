//! Goes over the entries of a list.

ghost use Rattle.std.specs.Prelude.{◌≡◌, [], map};
ghost use Rattle.part_list.specs.Parts.{flat};
ghost use Rattle.part_list.specs.PartValues.{shown};

use crate::entry::Entry;
use crate::now_or_next::NowOrNext;
use crate::part::Part;
use std::marker::Model;

/// The entries of a list that are left, in order. Contracts see the list of them.
#[derive(Drop)]
pub struct Entries<'a, T: Copy> {
    version: NowOrNext,
    /// The entries of the part that was begun.
    entries: &'a [Entry<T>],
    parts: &'a [Part<T>],
}

impl<'a, T: Copy> Model for Entries<'a, T> {
    ghost use Rattle.std.specs.Prelude.{List, ◌++◌, map};
    ghost use Rattle.part_list.specs.declared.entry.Entry.{Entry};
    ghost use Rattle.part_list.specs.Parts.{flat};
    ghost use Rattle.part_list.specs.PartValues.{shown};

    ghost Value = { List (Entry T) };

    ghost view = { λ e. e.entries.now ++ flat (map (shown e.version) e.parts.now) };
}

impl<'a, T: Copy> Entries<'a, T> {
    /// The entries of these parts.
    pub(crate) fn new(version: NowOrNext, parts: &'a [Part<T>]) -> Entries<'a, T>
        ensures { result ≡ flat (map (shown version) parts.now) }
    {
        Entries {
            version,
            entries: &[],
            parts,
        }
    }
}

impl<'a, T: Copy> Iterator for Entries<'a, T> {
    ghost use Rattle.std.specs.Iterator.{YieldsFirst, item_count};

    type Item = Entry<T>;

    ghost next_gives = { YieldsFirst (λ rest. rest) };

    ghost remaining = { item_count (λ rest. rest) };

    fn next(&mut self) -> Option<Entry<T>> {
        'parts: loop {
            if let [entry, rest @ ..] = self.entries {
                self.entries = rest;
                return Some(*entry);
            }
            let [part, rest @ ..] = self.parts else {
                return None;
            };
            self.entries = part.entries_in(self.version);
            self.parts = rest;
        }
    }
}
