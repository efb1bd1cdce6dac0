//! What a list has: entries at spots, those that pass, and all of them, now and next.

ghost use Rattle.std.specs.Prelude.{◌≡◌, ◌<◌, ◌^◌, false, length, slice_index_or, take};
ghost use Rattle.std.specs.List.{All, filter};
ghost use Rattle.std.specs.Option.{MatchOption};
ghost use Rattle.part_list.specs.Finds.{FirstAt, IsBefore, LastAt, StandsAt};
ghost use Rattle.part_list.specs.Parts.{IsEntry, next_in, now_in, part_at, place};

use crate::entries::Entries;
use crate::entry::Entry;
use crate::now_or_next::NowOrNext;
use crate::part_list::PartList;
use crate::passing::Passing;
use crate::search::{first_spot, first_spot_behind, last_spot, place_of, spot_at, spot_before};
use crate::seek::Seek;
use crate::spot::Spot;

impl<T: Copy> PartList<T> {
    /// The entry next at a spot.
    pub fn get(&self, spot: Spot) -> Entry<T>
        requires { IsEntry self.now.next spot }
        ensures { result ≡ slice_index_or (next_in self.now) (place self.now.next spot) result }
    {
        self.parts[spot.slot].next()[spot.at]
    }

    /// The spot of the first entry next that passes; `None` if none passes.
    pub fn first<S: Seek<T>>(&self, seek: &S) -> Option<Spot>
        ensures { FirstAt result (S.passing seek.now) self.now.next }
    {
        if self.hints.lacks(seek) {
            return None;
        }
        first_spot(&self.parts, &self.guides, seek, 0)
    }

    /// The spot of the first entry next that passes; `None` if none passes. None of the first `count` passes, and these are not looked at.
    pub fn first_behind<S: Seek<T>>(&self, count: usize, seek: &S) -> Option<Spot>
        requires { All (λ entry. S.passing seek.now entry ≡ false)
            (take count (next_in self.now)) }
        ensures { FirstAt result (S.passing seek.now) self.now.next }
    {
        if count == 0 {
            return self.first(seek);
        }
        first_spot_behind(&self.parts, &self.guides, seek, count)
    }

    /// The spot of the last entry next that passes; `None` if none passes.
    pub fn last<S: Seek<T>>(&self, seek: &S) -> Option<Spot>
        ensures { LastAt result (S.passing seek.now) self.now.next }
    {
        if self.hints.lacks(seek) {
            return None;
        }
        last_spot(&self.parts, seek)
    }

    /// The entries next that pass, in order. It looks at no entry of a part whose bounds tell that none passes.
    pub fn passing<'a, S: Seek<T>>(&'a self, seek: &'a S) -> Passing<'a, T, S>
        ensures { result ≡ filter (S.passing seek.now) (next_in self.now) }
    {
        Passing::new(&self.parts, &self.guides, seek)
    }

    /// The spot of the entry next before another one; `None` if that one is the first.
    pub fn before(&self, spot: Spot) -> Option<Spot>
        requires { IsEntry self.now.next spot }
        ensures { IsBefore result spot self.now.next }
    {
        spot_before(&self.parts, spot)
    }

    /// The spot of the entry next at a place of the list, counted from 0; `None` past the last. It takes time by the parts
    /// before it.
    pub fn at(&self, place: usize) -> Option<Spot>
        ensures { StandsAt result place self.now.next }
    {
        spot_at(&self.parts, place)
    }

    /// The place in the list of the entry next at a spot, counted from 0. It takes time by the parts before it.
    pub fn place_of(&self, spot: Spot) -> usize
        requires entry { IsEntry self.now.next spot }
        requires few { length (next_in self.now) < 2 ^ 64 }
        ensures { result ≡ place self.now.next spot }
    {
        place_of(&self.parts, spot)
    }

    /// How many parts there are, now and next.
    pub fn part_count(&self) -> usize
        ensures now { result ≡ length self.now.now }
        ensures next { result ≡ length self.now.next }
    {
        self.parts.len()
    }

    /// The entries now of a part, counted from 0.
    pub fn part(&self, slot: usize) -> &[Entry<T>]
        requires { slot < length self.now.now }
        ensures { result.now ≡ part_at self.now.now slot }
    {
        self.parts[slot].entries_in(NowOrNext::Now)
    }

    /// The entries next of a part that was edited since the last `commit` or `discard`; `None` of one that was not, which
    /// has the entries next that it has now.
    pub fn edited_part(&self, slot: usize) -> Option<&[Entry<T>]>
        requires { slot < length self.now.now }
        ensures { MatchOption result (part_at self.now.next slot ≡ part_at self.now.now slot)
            (λ entries. entries.now ≡ part_at self.now.next slot) }
    {
        let part = &self.parts[slot];
        if part.is_edited() {
            return Some(part.next());
        }
        None
    }

    /// The entries now, in order.
    pub fn entries(&self) -> Entries<'_, T>
        ensures { result ≡ now_in self.now }
    {
        Entries::new(NowOrNext::Now, &self.parts)
    }

    /// The entries next, in order.
    pub fn next_entries(&self) -> Entries<'_, T>
        ensures { result ≡ next_in self.now }
    {
        Entries::new(NowOrNext::Next, &self.parts)
    }
}
