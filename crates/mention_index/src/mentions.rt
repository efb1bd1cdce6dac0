//! The mentions of code points, and a listing that they can be made of.
//!
//! | bits of a key | what they say |
//! |---|---|
//! | 0 to 20 | the code point that one comes to |
//! | 21 to 41 | the code point that one goes on from |

ghost use Rattle.std.specs.Prelude.{◌≡◌, ℕ, false};
ghost use Rattle.mention_index.specs.Mentions.{is_walked, leads, puts};

use number_sets::{BitSet, KeySet};
use std::alloc::Global;

/// Which code points mention which: from a code point one goes on to each that has it in one of its mappings, and from a
/// primary composite to the first member of its mapping. So one comes to all code points whose derivation asks about it.
/// It is also kept from which code points one went on.
#[derive(Drop)]
pub struct Mentions {
    // the steps from one code point to the next one, by their keys
    pub(crate) steps: KeySet,
    // the code points from which one went on
    pub(crate) walked: BitSet,
}

/// Mentions that are put one after another.
#[derive(Drop)]
pub struct MentionsBuilder {
    pub(crate) alloc: Global,
    // the keys of the steps
    pub(crate) keys: Vec<u64>,
}

impl MentionsBuilder {
    /// No code point mentions any. It takes no memory.
    pub fn new(alloc: Global) -> MentionsBuilder
        ensures { (x c : ℕ) → puts result x c ≡ false }
    {
        MentionsBuilder {
            alloc,
            keys: Vec::new(alloc),
        }
    }

    /// The mentions that were put; one went on from no code point yet. It sorts them, and takes no memory that it cannot do
    /// without.
    pub fn finish(self) -> Mentions
        ensures steps { (x c : ℕ) → leads result x c ≡ puts self x c }
        ensures walked { (x : ℕ) → is_walked result x ≡ false }
    {
        Mentions {
            steps: KeySet::of(self.alloc, self.keys),
            walked: BitSet::new(self.alloc),
        }
    }
}
