//! Goes over the entries of a list that pass.

ghost use Rattle.std.specs.Prelude.{◌≡◌, ◌+◌, ◌<◌, [], drop, length};
ghost use Rattle.std.specs.List.{filter};
ghost use Rattle.part_list.specs.Guides.{Covers};
ghost use Rattle.part_list.specs.Parts.{flat};
ghost use Rattle.part_list.specs.PartValues.{parts_next};

use crate::entry::Entry;
use crate::find::first_in;
use crate::guides::next_candidate_slot;
use crate::part::Part;
use crate::reach::Reach;
use crate::seek::Seek;
use std::marker::Model;

/// The entries next that pass and are left, in order. Contracts see the list of them.
///
/// It looks at no entry of a part whose bounds tell that none passes.
#[derive(Drop)]
pub struct Passing<'a, T: Copy, S: Seek<T>> {
    seek: &'a S,
    /// The entries of the part that was begun.
    entries: &'a [Entry<T>],
    parts: &'a [Part<T>],
    /// Bounds of blocks of the parts.
    guides: &'a [Reach],
    /// The next part to begin, counted from 0.
    slot: usize,
}

impl<'a, T: Copy, S: Seek<T>> Model for Passing<'a, T, S> {
    ghost use Rattle.std.specs.Prelude.{List, ◌++◌, drop};
    ghost use Rattle.std.specs.List.{filter};
    ghost use Rattle.part_list.specs.declared.entry.Entry.{Entry};
    ghost use Rattle.part_list.specs.Guides.{Covers};
    ghost use Rattle.part_list.specs.Parts.{flat};
    ghost use Rattle.part_list.specs.PartValues.{parts_next};

    ghost Value = { List (Entry T) };

    ghost view = { λ p. filter (S.passing p.seek.now) (p.entries.now ++ flat (drop p.slot (parts_next p.parts.now))) };

    ghost invariant = { λ p. Covers p.guides.now (parts_next p.parts.now) };
}

/// The entries behind the one at a place.
fn entries_after<T: Copy>(entries: &[Entry<T>], at: usize) -> &[Entry<T>]
    requires { at < length entries.now }
    ensures { result.now ≡ drop (at + 1) entries.now }
{
    &entries[at + 1..]
}

impl<'a, T: Copy, S: Seek<T>> Passing<'a, T, S> {
    /// The entries next of these parts that pass. The guides bound blocks of the parts.
    pub(crate) fn new(parts: &'a [Part<T>], guides: &'a [Reach], seek: &'a S) -> Passing<'a, T, S>
        requires { Covers guides.now (parts_next parts.now) }
        ensures { result ≡ filter (S.passing seek.now) (flat (parts_next parts.now)) }
    {
        Passing {
            seek,
            entries: &[],
            parts,
            guides,
            slot: 0,
        }
    }
}

impl<'a, T: Copy, S: Seek<T>> Iterator for Passing<'a, T, S> {
    ghost use Rattle.std.specs.Iterator.{YieldsFirst, item_count};

    type Item = Entry<T>;

    ghost next_gives = { YieldsFirst (λ rest. rest) };

    ghost remaining = { item_count (λ rest. rest) };

    fn next(&mut self) -> Option<Entry<T>> {
        'parts: loop {
            if let Some(at) = first_in(self.entries, self.seek) {
                let entry = self.entries[at];
                self.entries = entries_after(self.entries, at);
                return Some(entry);
            }
            let slot = next_candidate_slot(self.guides, self.parts, self.seek, self.slot);
            if slot >= self.parts.len() {
                return None;
            }
            self.entries = self.parts[slot].candidates(self.seek);
            self.slot = slot + 1;
        }
    }
}
