//! A part of a list, now and next.

ghost use Rattle.std.specs.Prelude.{◌≡◌, ◌+◌, ◌<◌, ◌≤◌, [], ◌∷◌, ◌++◌, true, false, length, take, IfOk, OnOk, OnErr};
ghost use Rattle.std.specs.List.{All, filter};
ghost use Rattle.part_list.specs.Parts.{spliced};
ghost use Rattle.part_list.specs.Finds.{FirstIn, LastIn};
ghost use Rattle.part_list.specs.Orders.{IsOrdered, IsWindow};
ghost use Rattle.part_list.specs.PartValues.{committed, discarded, has_entries, shown};
ghost use Rattle.part_list.specs.Puts.{put_entries};
ghost use Rattle.part_list.specs.Reaches.{IsWithin};

use crate::entry::Entry;
use crate::find::{first_in, last_in};
use crate::now_or_next::NowOrNext;
use crate::order::{is_ordered, is_ordered_around, stays_ordered_with, window};
use crate::put::{Put, spliced};
use crate::reach::Reach;
use crate::seek::Seek;
use std::alloc::Global;
use std::marker::Model;
use ucd_points::{Copied, ListOf, Memory};

/// How many entries a part is loaded with. A file of a release has up to 35,000 rows, so it has up to 280 parts.
const LOADED: usize = 128;

/// Some entries of a list that stand together. Contracts see the entries now and next.
#[derive(Debug, Drop)]
pub struct Part<T: Copy> {
    kept: ListOf<Entry<T>>,
    /// What is next, if it was edited since the last `commit` or `discard`.
    edit: Option<ListOf<Entry<T>>>,
    /// It bounds the entries next, which are those that are looked at. Edits widen it; `truncate`, `commit` and `discard` make it
    /// as narrow as the entries are.
    reach: Reach,
    /// Whether it is known that neither first nor last code points descend from one entry next to the next.
    ordered: bool,
}

impl<T: Copy> Model for Part<T> {
    ghost use Rattle.std.specs.Option.{is_some, unwrap_or};
    ghost use Rattle.part_list.specs.declared.entry.Entry.{Entry};
    ghost use Rattle.std.specs.List.{All};
    ghost use Rattle.std.specs.Prelude.{◌≡◌, true};
    ghost use Rattle.part_list.specs.Orders.{IsOrdered};
    ghost use Rattle.part_list.specs.PartValues.{PartValue};
    ghost use Rattle.part_list.specs.Reaches.{IsWithin};

    ghost Value = { PartValue (Entry T) };

    ghost view = { λ p. record { now = p.kept; next = unwrap_or p.edit p.kept; edited = is_some p.edit } };

    ghost invariant = { λ p. All (IsWithin p.reach) (unwrap_or p.edit p.kept) × (p.ordered ≡ true → IsOrdered (unwrap_or p.edit p.kept)) };
}

impl<T: Copy> Part<T> {
    /// The part of one entry, now and next.
    ///
    /// - `Memory`: memory ran out.
    pub fn of(alloc: Global, entry: Entry<T>) -> Result<Part<T>, Memory>
        ensures { IfOk result (λ part. part
            ≡ record { now = entry ∷ []; next = entry ∷ []; edited = false }) }
    {
        let mut kept = Vec::with_capacity(alloc, LOADED)?;
        kept.push(entry)?;
        Ok(Part {
            kept: ListOf::from_vec(kept),
            edit: None,
            reach: Reach::NONE.with(&entry),
            ordered: true,
        })
    }

    /// The part that has no entries now, and these next. It takes no memory.
    pub fn with_next_only(alloc: Global, entries: ListOf<Entry<T>>) -> Part<T>
        ensures { result ≡ record { now = []; next = entries; edited = true } }
    {
        let reach = Reach::NONE.with_all(entries.as_slice());
        let ordered = is_ordered(entries.as_slice());
        Part {
            kept: ListOf::new(alloc),
            edit: Some(entries),
            reach,
            ordered,
        }
    }

    /// The entries now, or next.
    pub fn entries_in(&self, version: NowOrNext) -> &[Entry<T>]
        ensures { result.now ≡ shown version self.now }
    {
        match version {
            NowOrNext::Now => self.kept.as_slice(),
            NowOrNext::Next => self.next(),
        }
    }

    /// The entries next.
    pub fn next(&self) -> &[Entry<T>]
        ensures { result.now ≡ self.now.next }
    {
        match &self.edit {
            Some(edit) => edit.as_slice(),
            None => self.kept.as_slice(),
        }
    }

    /// Bounds of the entries next.
    pub fn reach(&self) -> Reach
        ensures { All (IsWithin result) self.now.next }
    {
        self.reach
    }

    /// Whether it is known that neither first nor last code points descend from one entry next to the next.
    pub fn is_ordered(&self) -> bool
        ensures { result ≡ true → IsOrdered self.now.next }
    {
        self.ordered
    }

    /// Whether what is next is kept apart from what is now.
    pub fn is_edited(&self) -> bool
        ensures edited { result ≡ self.now.edited }
        ensures same { result ≡ false → self.now.next ≡ self.now.now }
    {
        self.edit.is_some()
    }

    /// Whether there are entries, now or next.
    pub fn has_entries(&self) -> bool
        ensures { result ≡ has_entries self.now }
    {
        self.kept.len() > 0 || self.next().len() > 0
    }

    /// Whether the part is loaded with more entries: it was not edited, and it is not long.
    pub fn takes_more(&self) -> bool
        ensures { result ≡ true → self.now.edited ≡ false }
    {
        self.edit.is_none() && self.kept.len() < LOADED
    }

    /// Puts an entry at the end, now and next.
    ///
    /// - `Memory`: memory ran out. The part stays as it was.
    pub fn push(&mut self, entry: Entry<T>) -> Result<(), Memory>
        requires { self.old.edited ≡ false }
        ensures ok { OnOk result (self.new
            ≡ record {
              now = self.old.now ++ entry ∷ [];
              next = self.old.next ++ entry
                  ∷ [];
              edited = false;
            }) }
        ensures err { OnErr result (self.new ≡ self.old) }
    {
        let ordered = self.ordered & stays_ordered_with(self.kept.as_slice(), &entry);
        self.kept.push(entry)?;
        self.reach = self.reach.with(&entry);
        self.ordered = ordered;
        Ok(())
    }

    /// Puts entries next in the place of the `removed` ones from `at` on. All memory is taken first.
    ///
    /// - `Memory`: memory ran out. The part stays as it was.
    pub fn splice(
        &mut self,
        alloc: Global,
        at: usize,
        removed: usize,
        put: Put<T>,
    ) -> Result<(), Memory>
        requires { at + removed ≤ length self.old.next }
        ensures now { self.new.now ≡ self.old.now }
        ensures ok { OnOk result (self.new
            ≡ record {
              now = self.old.now;
              next = spliced self.old.next at removed
                  (put_entries put);
              edited = true;
            }) }
        ensures err { OnErr result (self.new ≡ self.old) }
    {
        let edit = spliced(alloc, self.next(), at, removed, put)?;
        self.reach = self.reach.with_some(put.first).with_some(put.second);
        self.ordered = self.ordered & is_ordered_around(edit.as_slice(), at);
        self.edit = Some(edit);
        Ok(())
    }

    /// Keeps the first `len` entries next, with the bounds of these. It takes no memory.
    pub fn truncate(&mut self, len: usize)
        requires { self.old.edited ≡ true }
        ensures { self.new ≡ record
            { now = self.old.now; next = take len self.old.next; edited = true } }
    {
        if let Some(mut front) = self.edit.take() {
            front.truncate(len);
            self.reach = Reach::NONE.with_all(front.as_slice());
            self.ordered = is_ordered(front.as_slice());
            self.edit = Some(front);
        }
    }

    /// Makes what is next what is now, with the bounds of that. It takes no memory. Bounds that were never made anew would
    /// grow with each edit, and stay those of the whole if a part is cut in two.
    pub fn commit(&mut self)
        ensures { self.new ≡ committed self.old }
    {
        if let Some(edit) = self.edit.take() {
            self.reach = Reach::NONE.with_all(edit.as_slice());
            self.kept = edit;
        }
    }

    /// Makes what is now what is next, with the bounds of that. It takes no memory.
    pub fn discard(&mut self)
        ensures { self.new ≡ discarded self.old }
    {
        if self.edit.take().is_some() {
            self.reach = Reach::NONE.with_all(self.kept.as_slice());
            self.ordered = is_ordered(self.kept.as_slice());
        }
    }

    /// The places among which all entries next stand that pass, as far as bounds tell: from the first one up to the second one.
    fn window<S: Seek<T>>(&self, seek: &S) -> (usize, usize)
        ensures { IsWindow (S.passing seek.now) self.now.next result.0 result.1 }
    {
        let entries = self.next();
        if seek.skips(self.reach) {
            return (0, 0);
        }
        if self.ordered {
            return window(entries, self.reach, seek);
        }
        (0, entries.len())
    }

    /// The place of the first entry next that passes.
    pub fn first<S: Seek<T>>(&self, seek: &S) -> Option<usize>
        ensures { FirstIn result (S.passing seek.now) self.now.next }
    {
        let (from, to) = self.window(seek);
        match first_in(&self.next()[from..to], seek) {
            Some(at) => Some(from + at),
            None => None,
        }
    }

    /// The place of the last entry next that passes.
    pub fn last<S: Seek<T>>(&self, seek: &S) -> Option<usize>
        ensures { LastIn result (S.passing seek.now) self.now.next }
    {
        if seek.skips(self.reach) {
            return None;
        }
        last_in(self.next(), seek)
    }

    /// Entries next that stand together, among which are all that pass.
    pub fn candidates<S: Seek<T>>(&self, seek: &S) -> &[Entry<T>]
        ensures { filter (S.passing seek.now) result.now
            ≡ filter (S.passing seek.now) self.now.next }
    {
        let (from, to) = self.window(seek);
        &self.next()[from..to]
    }
}

impl<T: Copy> Copied for Part<T> {
    fn copied(&self, alloc: Global) -> Result<Part<T>, Memory> {
        let kept = ListOf::of(alloc, self.kept.as_slice())?;
        let edit = match &self.edit {
            Some(edit) => Some(ListOf::of(alloc, edit.as_slice())?),
            None => None,
        };
        Ok(Part {
            kept,
            edit,
            reach: self.reach,
            ordered: self.ordered,
        })
    }
}
