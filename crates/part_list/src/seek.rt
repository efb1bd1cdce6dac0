//! What is looked for in a list.

ghost use Rattle.std.specs.Prelude.{◌≡◌, Bool, true};
ghost use Rattle.std.specs.Option.{IfSome};
ghost use Rattle.part_list.specs.Covers.{AllMeet};
ghost use Rattle.part_list.specs.Reaches.{Skips};
ghost use Rattle.part_list.specs.declared.entry.Entry.{Entry};

use crate::entry::Entry;
use crate::reach::Reach;

/// A test of entries, which can tell of most parts by their bounds alone that no entry there passes.
pub trait Seek<T: Copy> {
    // whether an entry passes
    ghost passing: { Self → Entry T → Bool };

    /// Whether an entry passes.
    fn passes(&self, entry: &Entry<T>) -> bool
        ensures { result ≡ passing self.now entry.now };

    /// Whether it is certain that no entry within these bounds passes.
    fn skips(&self, reach: Reach) -> bool
        ensures { result ≡ true → Skips (passing self.now) reach };

    /// The tag that every entry has that passes; `None` if that is not known.
    fn tag(&self) -> Option<u32>
        ensures { IfSome result (λ tag. (entry : Entry T) → passing self.now entry ≡ true
            → entry.tag ≡ tag) }
    {
        None
    }

    /// The first and the last of some code points, of which every entry that passes has one; `None` if that is not known.
    fn points(&self) -> Option<(u32, u32)>
        ensures { IfSome result (λ points. AllMeet (passing self.now) points.0 points.1) }
    {
        None
    }
}
