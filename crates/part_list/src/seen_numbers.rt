//! Numbers that were seen, such as the tags of the entries of a list: a search for another one ends at once.

ghost use Rattle.std.specs.Prelude.{◌≡◌, ℕ, true, false};
ghost use Rattle.std.specs.List.{All};
ghost use Rattle.std.specs.Option.{option_to_list};
ghost use Rattle.part_list.specs.Parts.{flat};
ghost use Rattle.part_list.specs.PartValues.{parts_now, parts_next};
ghost use Rattle.part_list.specs.Puts.{put_entries};
ghost use Rattle.part_list.specs.SeenNumbers.{Grows, IsKnown, may_have};
ghost use Rattle.part_list.specs.declared.entry.Entry.{Entry};

use crate::entry::Entry;
use crate::now_or_next::NowOrNext;
use crate::part::Part;
use crate::put::Put;
use crate::seek::Seek;
use std::alloc::Global;
use std::collections::BTreeSet;

/// How many edits of a short list are noted before its tags are gathered anew.
const FEW: usize = 64;

/// Some numbers, among them the tags of all entries of a list; or nothing is known, and each number may be one of them.
///
/// An edit puts tags in and takes none out. A list gathers its tags anew after as many edits as half of its entries, so there are at most
/// some three times as many as entries. Those of others who put tags in only grow.
#[derive(Debug, Drop)]
pub struct SeenNumbers {
    /// The tags; `None` if nothing is known.
    pub(crate) seen: Option<BTreeSet<u32>>,
    /// How many more edits are noted before they are gathered anew.
    pub(crate) left: usize,
}

/// How many entries parts have next.
pub fn next_entry_count<T: Copy>(parts: &[Part<T>]) -> usize {
    let mut count: usize = 0;
    'parts: for part in parts {
        count = count.saturating_add(part.next().len());
    }
    count
}

impl SeenNumbers {
    /// Nothing is known. It takes no memory.
    pub fn unknown() -> SeenNumbers
        ensures { (tag : ℕ) → may_have result tag ≡ true }
    {
        SeenNumbers {
            seen: None,
            left: 0,
        }
    }

    /// None is one of them. It takes no memory.
    pub fn none(alloc: Global) -> SeenNumbers
        ensures { (tag : ℕ) → may_have result tag ≡ false }
    {
        SeenNumbers {
            seen: Some(BTreeSet::new(alloc)),
            left: 0,
        }
    }

    /// Whether nothing is known.
    pub fn are_unknown(&self) -> bool
        ensures { result ≡ true → (tag : ℕ) → may_have self.now tag ≡ true }
    {
        self.seen.is_none()
    }

    /// Whether a tag may be one of them.
    pub fn may_have(&self, tag: u32) -> bool
        ensures { result ≡ may_have self.now tag }
    {
        match &self.seen {
            Some(seen) => seen.contains(&tag),
            None => true,
        }
    }

    /// Whether no entry passes that has one of the tags.
    pub fn lacks<T: Copy, S: Seek<T>>(&self, seek: &S) -> bool
        ensures { result ≡ true → (entry : Entry T) → IsKnown self.now entry
            → S.passing seek.now entry ≡ false }
    {
        match seek.tag() {
            Some(tag) => !self.may_have(tag),
            None => false,
        }
    }

    /// Puts a tag in. If there is no memory for it, nothing is known any more.
    pub fn put(&mut self, tag: u32)
        ensures put { may_have self.new tag ≡ true }
        ensures grows { Grows self.old self.new }
    {
        let Some(seen) = &mut self.seen else {
            return;
        };
        if seen.insert(tag).is_err() {
            self.seen = None;
        }
    }

    /// Puts the tags of entries in.
    fn put_all<T: Copy>(&mut self, entries: &[Entry<T>])
        ensures known { All (IsKnown self.new) entries.now }
        ensures grows { Grows self.old self.new }
    {
        'entries: for entry in entries {
            self.put(entry.tag);
        }
    }

    /// Puts the tag of an entry in, if there is one.
    fn put_some<T: Copy>(&mut self, entry: Option<Entry<T>>)
        ensures known { All (IsKnown self.new) (option_to_list entry) }
        ensures grows { Grows self.old self.new }
    {
        if let Some(entry) = entry {
            self.put(entry.tag);
        }
    }

    /// Puts the tags of the entries next of a part in; one if its bounds tell that they have no other.
    fn put_next<T: Copy>(&mut self, part: &Part<T>)
        ensures known { All (IsKnown self.new) part.now.next }
        ensures grows { Grows self.old self.new }
    {
        let reach = part.reach();
        if reach.least_tag == reach.most_tag {
            self.put(reach.least_tag);
        } else {
            self.put_all(part.next());
        }
    }

    /// Puts the tags of the entries of a part in, now and next.
    fn put_part<T: Copy>(&mut self, part: &Part<T>)
        ensures now { All (IsKnown self.new) part.now.now }
        ensures next { All (IsKnown self.new) part.now.next }
        ensures grows { Grows self.old self.new }
    {
        self.put_next(part);
        if part.is_edited() {
            self.put_all(part.entries_in(NowOrNext::Now));
        }
    }

    /// The tags of the entries of parts, as far as there is memory for them.
    fn of<T: Copy>(alloc: Global, parts: &[Part<T>]) -> SeenNumbers
        ensures now { All (IsKnown result) (flat (parts_now parts.now)) }
        ensures next { All (IsKnown result) (flat (parts_next parts.now)) }
    {
        let mut tags = SeenNumbers {
            seen: Some(BTreeSet::new(alloc)),
            left: (next_entry_count(parts) / 2).saturating_add(FEW),
        };
        'parts: for part in parts {
            tags.put_part(part);
        }
        tags
    }

    /// Notes that entries are put into parts; the tags of these may be gathered anew.
    pub fn note<T: Copy>(&mut self, alloc: Global, parts: &[Part<T>], put: Put<T>)
        requires now { All (IsKnown self.old) (flat (parts_now parts.now)) }
        requires next { All (IsKnown self.old) (flat (parts_next parts.now)) }
        ensures now { All (IsKnown self.new) (flat (parts_now parts.now)) }
        ensures next { All (IsKnown self.new) (flat (parts_next parts.now)) }
        ensures put { All (IsKnown self.new) (put_entries put) }
    {
        if self.left == 0 {
            *self = SeenNumbers::of(alloc, parts);
        }
        self.left = self.left.saturating_sub(1);
        self.put_some(put.first);
        self.put_some(put.second);
    }
}
