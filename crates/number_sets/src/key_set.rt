//! Sets of keys.

ghost use Rattle.std.specs.List.Sorted.{IsStrictlyIncreasing};

use crate::buckets::Buckets;
use std::collections::BTreeSet;

/// A set of keys, in which the next one is looked for. The keys that it was made of lie in a sorted list, eight bytes each;
/// those that were put in later in a tree. The list is cut into buckets, so that a search looks at few of its keys.
#[derive(Drop)]
pub struct KeySet {
    // each key once, ascending
    pub(crate) sorted: Vec<u64>,
    pub(crate) more: BTreeSet<u64>,
    // where in the list the buckets begin
    pub(crate) buckets: Buckets,
    ghost ascends: { IsStrictlyIncreasing sorted.items },
}
