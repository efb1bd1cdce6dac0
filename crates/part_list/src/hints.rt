//! What is told of all entries of a list, by which a search that finds none ends at once.

ghost use Rattle.std.specs.Prelude.{◌≡◌, true, false};
ghost use Rattle.std.specs.List.{All};
ghost use Rattle.part_list.specs.Hints.{IsHinted};
ghost use Rattle.part_list.specs.Parts.{flat};
ghost use Rattle.part_list.specs.PartValues.{parts_now, parts_next};
ghost use Rattle.part_list.specs.Puts.{put_entries};
ghost use Rattle.part_list.specs.declared.entry.Entry.{Entry};

use crate::cover::Cover;
use crate::part::Part;
use crate::put::Put;
use crate::seek::Seek;
use crate::seen_numbers::SeenNumbers;
use std::alloc::Global;

/// Tags that entries may have, and code points of which they may speak.
#[derive(Debug, Drop)]
pub struct Hints<T: Copy> {
    /// The tags.
    pub(crate) tags: SeenNumbers,
    /// The code points.
    pub(crate) cover: Cover<T>,
}

impl<T: Copy> Hints<T> {
    /// Nothing is known. It takes no memory.
    pub fn unknown() -> Hints<T>
        ensures { (entry : Entry T) → IsHinted result entry }
    {
        Hints {
            tags: SeenNumbers::unknown(),
            cover: Cover::unknown(),
        }
    }

    /// Whether no entry passes of which this is told.
    pub fn lacks<S: Seek<T>>(&self, seek: &S) -> bool
        ensures { result ≡ true → (entry : Entry T) → IsHinted self.now entry
            → S.passing seek.now entry ≡ false }
    {
        self.tags.lacks(seek) || self.cover.lacks(seek)
    }

    /// Notes that entries are put into parts; what is told of these may be gathered anew.
    pub fn note(&mut self, alloc: Global, parts: &[Part<T>], put: Put<T>)
        requires now { All (IsHinted self.old) (flat (parts_now parts.now)) }
        requires next { All (IsHinted self.old) (flat (parts_next parts.now)) }
        ensures now { All (IsHinted self.new) (flat (parts_now parts.now)) }
        ensures next { All (IsHinted self.new) (flat (parts_next parts.now)) }
        ensures put { All (IsHinted self.new) (put_entries put) }
    {
        self.tags.note(alloc, parts, put);
        self.cover.note(alloc, parts, put);
    }
}
