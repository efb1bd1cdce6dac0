//! The code points of which the entries of a list may speak, by which a search for others ends at once.

ghost use Rattle.std.specs.Prelude.{◌≡◌, ◌≤◌, true, false};
ghost use Rattle.std.specs.List.{All};
ghost use Rattle.std.specs.Option.{option_to_list};
ghost use Rattle.part_list.specs.Covers.{AllMeet, CoversMore, HoldsMore, IsCovered, IsHeld, NoneSet};
ghost use Rattle.part_list.specs.Parts.{flat};
ghost use Rattle.part_list.specs.PartValues.{parts_now, parts_next};
ghost use Rattle.part_list.specs.Puts.{put_entries};
ghost use Rattle.part_list.specs.declared.entry.Entry.{Entry};

use crate::entry::Entry;
use crate::find::first_in;
use crate::now_or_next::NowOrNext;
use crate::part::Part;
use crate::put::Put;
use crate::seek::Seek;
use crate::seen_numbers::next_entry_count;
use number_sets::BitSet;
use std::alloc::Global;
use ucd_points::Point;

/// An entry with more code points than this is wide: those of others are put in and looked at, 64 at once.
const WIDE: u32 = 4096;
/// How many wide entries there are at most. Of those that have no code point in common there are no more than 271.
const MOST_WIDE: usize = 512;
/// How many edits there are before code points are gathered, and before those of a short list are gathered anew.
const FEW: usize = 64;

/// Some code points, among them those of all entries of a list that are not wide, and those that are wide.
#[derive(Debug, Drop)]
pub struct Known<T: Copy> {
    /// The code points.
    pub(crate) points: BitSet,
    /// Wide entries.
    pub(crate) wide: Vec<Entry<T>>,
}

/// The code points of which the entries of a list may speak; or nothing is known, and each may speak of any.
///
/// Nothing is known until there were some edits, nor while the entries of each part are in order, since searches end soon there. Edits put
/// code points in and take none out. After as many edits as half of the list's entries they are gathered anew.
#[derive(Debug, Drop)]
pub struct Cover<T: Copy> {
    /// What is known. It is in a box, so that a list grows by two words alone.
    pub(crate) known: Option<Box<Known<T>>>,
    /// How many more edits are noted before code points are gathered anew.
    pub(crate) left: usize,
}

/// Whether it is not known of some part that its entries next are in order.
fn some_unordered<T: Copy>(parts: &[Part<T>]) -> bool {
    parts.iter().any(|part| !part.is_ordered())
}

/// Whether there are code points from `first` to `last`, fewer than a wide entry has, and none of them is in.
fn are_few_and_absent(points: &BitSet, first: u32, last: u32) -> bool
    ensures some { result ≡ true → first ≤ last }
    ensures none { result ≡ true → NoneSet points.now first last }
{
    first <= last && last - first < WIDE && last < Point::COUNT && !points.has_any(first, last)
}

impl<T: Copy> Known<T> {
    /// No code points; `None` if there is no memory for them.
    fn none(alloc: Global) -> Option<Box<Known<T>>> {
        let points = BitSet::new(alloc);
        let wide = Vec::new(alloc);
        Box::new(alloc, Known { points, wide }).ok()
    }

    /// Puts an entry in. `false` if there is no room for it.
    fn put(&mut self, entry: &Entry<T>) -> bool
        ensures put { result ≡ true → IsHeld self.new entry.now }
        ensures grows { HoldsMore self.old self.new }
    {
        let last = entry.code.max(entry.last);
        if last - entry.code < WIDE {
            return last < Point::COUNT && self.points.insert_all(entry.code, last).is_ok();
        }
        self.wide.len() < MOST_WIDE && self.wide.push(*entry).is_ok()
    }

    /// Whether no entry passes that is held. Each one that passes has a code point from one to another.
    fn lacks<S: Seek<T>>(&self, first: u32, last: u32, seek: &S) -> bool
        requires { AllMeet (S.passing seek.now) first last }
        ensures { result ≡ true → (entry : Entry T) → IsHeld self.now entry
            → S.passing seek.now entry ≡ false }
    {
        are_few_and_absent(&self.points, first, last) && first_in(&self.wide, seek).is_none()
    }
}

impl<T: Copy> Cover<T> {
    /// Nothing is known. It takes no memory.
    pub fn unknown() -> Cover<T>
        ensures { (entry : Entry T) → IsCovered result entry }
    {
        Cover {
            known: None,
            left: FEW,
        }
    }

    /// Whether no entry passes that is covered.
    pub fn lacks<S: Seek<T>>(&self, seek: &S) -> bool
        ensures { result ≡ true → (entry : Entry T) → IsCovered self.now entry
            → S.passing seek.now entry ≡ false }
    {
        match (seek.points(), &self.known) {
            (Some((first, last)), Some(known)) => known.lacks(first, last, seek),
            _ => false,
        }
    }

    /// Puts an entry in. If there is no room for it, nothing is known any more.
    fn put(&mut self, entry: &Entry<T>)
        ensures put { IsCovered self.new entry.now }
        ensures grows { CoversMore self.old self.new }
    {
        let Some(known) = &mut self.known else {
            return;
        };
        if !known.put(entry) {
            self.known = None;
        }
    }

    /// Puts entries in.
    fn put_all(&mut self, entries: &[Entry<T>])
        ensures put { All (IsCovered self.new) entries.now }
        ensures grows { CoversMore self.old self.new }
    {
        'entries: for entry in entries {
            self.put(entry);
        }
    }

    /// Puts an entry in, if there is one.
    fn put_some(&mut self, entry: Option<Entry<T>>)
        ensures put { All (IsCovered self.new) (option_to_list entry) }
        ensures grows { CoversMore self.old self.new }
    {
        if let Some(entry) = entry {
            self.put(&entry);
        }
    }

    /// Puts the entries of a part in, now and next.
    fn put_part(&mut self, part: &Part<T>)
        ensures now { All (IsCovered self.new) part.now.now }
        ensures next { All (IsCovered self.new) part.now.next }
        ensures grows { CoversMore self.old self.new }
    {
        self.put_all(part.next());
        if part.is_edited() {
            self.put_all(part.entries_in(NowOrNext::Now));
        }
    }

    /// What covers the entries of parts, as far as there is memory for it. Nothing is known if each part is in order.
    fn of(alloc: Global, parts: &[Part<T>]) -> Cover<T>
        ensures now { All (IsCovered result) (flat (parts_now parts.now)) }
        ensures next { All (IsCovered result) (flat (parts_next parts.now)) }
    {
        if !some_unordered(parts) {
            return Cover::unknown();
        }
        let mut cover = Cover {
            known: Known::none(alloc),
            left: (next_entry_count(parts) / 2).saturating_add(FEW),
        };
        'parts: for part in parts {
            cover.put_part(part);
        }
        cover
    }

    /// Notes that entries are put into parts; what covers these may be gathered anew.
    pub fn note(&mut self, alloc: Global, parts: &[Part<T>], put: Put<T>)
        requires now { All (IsCovered self.old) (flat (parts_now parts.now)) }
        requires next { All (IsCovered self.old) (flat (parts_next parts.now)) }
        ensures now { All (IsCovered self.new) (flat (parts_now parts.now)) }
        ensures next { All (IsCovered self.new) (flat (parts_next parts.now)) }
        ensures put { All (IsCovered self.new) (put_entries put) }
    {
        if self.left == 0 {
            *self = Cover::of(alloc, parts);
        }
        self.left = self.left.saturating_sub(1);
        self.put_some(put.first);
        self.put_some(put.second);
    }
}
