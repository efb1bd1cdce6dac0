//! Sets of numbers: those in which the next one is looked for, and those of small numbers, a bit for each.
#![tactic(auto)]

mod bit_set;
mod buckets;
mod key_set;
mod keys;

pub use bit_set::BitSet;
pub use key_set::KeySet;
