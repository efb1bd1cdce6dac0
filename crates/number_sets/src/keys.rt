//! What a set of keys has, and which key is the next one.

ghost use Rattle.std.specs.Prelude.{◌≡◌, ◌≤◌, ◌<◌, ℕ, ◌==◌, ◌||◌, false, length, slice_index_or, IfOk, IsTrue, OnErr, OnOk};
ghost use Rattle.std.specs.Ordering.{nat_cmp};
ghost use Rattle.std.specs.BTreeSet.{contains};
ghost use Rattle.std.specs.List.Sorted.{IsStrictlyIncreasing};
ghost use Rattle.number_sets.specs.Keys.{IsBetween, IsNext, has, is_in, least};

use crate::buckets::Buckets;
use crate::key_set::KeySet;
use std::alloc::Global;
use std::collections::BTreeSet;
use ucd_points::Memory;

impl KeySet {
    /// The set of no keys. It takes no memory.
    #[tactic(auto, unfolding(crate::specs::Keys::has))]
    pub fn new(alloc: Global) -> KeySet
        ensures { (k : ℕ) → has result k ≡ false }
    {
        KeySet {
            sorted: Vec::new(alloc),
            more: BTreeSet::new(alloc),
            buckets: Buckets::none(alloc),
        }
    }

    /// The set of the keys of a list, which may repeat some. It sorts the list, and gives back the room that no key takes
    /// up. What memory it takes is for buckets, which it can do without.
    #[tactic(auto, unfolding(crate::specs::Keys::has))]
    pub fn of(alloc: Global, keys: Vec<u64>) -> KeySet
        ensures { (k : ℕ) → has result k ≡ is_in keys.items k }
    {
        let sorted = sorted_distinct(keys);
        let buckets = Buckets::of(alloc, &sorted);
        KeySet {
            sorted,
            more: BTreeSet::new(alloc),
            buckets,
        }
    }

    /// A copy of the set, with the same keys.
    ///
    /// - `Memory`: memory ran out.
    #[tactic(auto, unfolding(crate::specs::Keys::has))]
    pub fn copied(&self, alloc: Global) -> Result<KeySet, Memory>
        ensures { IfOk result (λ copy. (k : ℕ) → has copy k ≡ has self.now k) }
    {
        let sorted = Vec::from_slice(alloc, &self.sorted)?;
        let more = self.more.clone()?;
        let buckets = self.buckets.copied(alloc)?;
        Ok(KeySet {
            sorted,
            more,
            buckets,
        })
    }

    /// Puts a key in. Its time grows with the logarithm of the number of keys that were put in.
    ///
    /// - `Memory`: memory ran out. The set stays as it was.
    #[tactic(auto, unfolding(crate::specs::Keys::has))]
    pub fn insert(&mut self, key: u64) -> Result<(), Memory>
        ensures ok { OnOk result ((k : ℕ) → has self.new k ≡ (has self.old k || k == key)) }
        ensures err { OnErr result ((k : ℕ) → has self.new k ≡ has self.old k) }
    {
        self.more.insert(key)?;
        Ok(())
    }

    /// The least key at or above `start`. Its time grows with the logarithm of the number of keys.
    #[tactic(auto, unfolding(crate::specs::Keys::has))]
    pub fn next(&self, start: u64) -> Option<u64>
        ensures { IsNext (has self.now) start result }
    {
        let (begin, end) = self.buckets.bucket_bounds(start, self.sorted.len());
        let listed = next_in_sorted(self.sorted.as_slice(), begin, end, start);
        if self.more.is_empty() {
            return listed;
        }
        least(listed, next_inserted(&self.more, start))
    }
}

/// The numbers of a list in ascending order, each of them once. It takes no memory, and gives back what is spare.
fn sorted_distinct(mut keys: Vec<u64>) -> Vec<u64>
    ensures same { (k : ℕ) → is_in result.items k ≡ is_in keys.items k }
    ensures ascends { IsStrictlyIncreasing result.items }
{
    keys.sort_unstable();
    keys.dedup();
    keys.shrink_to_fit();
    keys
}

/// The least number of an ascending list at or above `start`. It is looked for from `begin` to `end` first, and may stand
/// anywhere.
fn next_in_sorted(sorted: &[u64], begin: usize, end: usize, start: u64) -> Option<u64>
    requires { IsStrictlyIncreasing sorted.now }
    ensures { IsNext (is_in sorted.now) start result }
{
    let place = lower_bound(sorted, begin, end, start);
    sorted.get(place).copied()
}

/// The place of the first number of an ascending list that is not below `start`.
fn lower_bound(sorted: &[u64], begin: usize, end: usize, start: u64) -> usize
    requires { IsStrictlyIncreasing sorted.now }
    ensures { IsBetween sorted.now start result result }
{
    if is_lower_bound_between(sorted, begin, end, start) {
        return lower_bound_between(sorted, begin, end, start);
    }
    lower_bound_between(sorted, 0, sorted.len(), start)
}

/// Whether it is known by two looks that the place stands from `begin` to `end`.
fn is_lower_bound_between(sorted: &[u64], begin: usize, end: usize, start: u64) -> bool
    requires { IsStrictlyIncreasing sorted.now }
    ensures { IsTrue result → IsBetween sorted.now start begin end }
{
    begin <= end
        && end <= sorted.len()
        && is_lower_bound_from(sorted, begin, start)
        && is_lower_bound_up_to(sorted, end, start)
}

/// Whether the numbers before a place are below `start`.
fn is_lower_bound_from(sorted: &[u64], begin: usize, start: u64) -> bool
    requires ascends { IsStrictlyIncreasing sorted.now }
    requires within { begin ≤ length sorted.now }
    ensures { IsTrue result → (i d : ℕ) → i < begin → slice_index_or sorted.now i d < start }
{
    begin == 0 || sorted[begin - 1] < start
}

/// Whether the numbers from a place on are not below `start`.
fn is_lower_bound_up_to(sorted: &[u64], end: usize, start: u64) -> bool
    requires ascends { IsStrictlyIncreasing sorted.now }
    requires within { end ≤ length sorted.now }
    ensures { IsTrue result → (i d : ℕ) → end ≤ i → i < length sorted.now
        → start ≤ slice_index_or sorted.now i d }
{
    end == sorted.len() || start <= sorted[end]
}

/// The place of the first number of an ascending list that is not below `start`, which stands from `begin` to `end`.
fn lower_bound_between(sorted: &[u64], begin: usize, end: usize, start: u64) -> usize
    requires ascends { IsStrictlyIncreasing sorted.now }
    requires between { IsBetween sorted.now start begin end }
    ensures { IsBetween sorted.now start result result }
{
    let mut low = begin;
    let mut high = end;
    'halves: while low < high {
        let middle = low + (high - low) / 2;
        if sorted[middle] < start {
            low = middle + 1;
        } else {
            high = middle;
        }
    }
    low
}

/// The least number of a tree at or above `start`.
fn next_inserted(more: &BTreeSet<u64>, start: u64) -> Option<u64>
    ensures { IsNext (contains nat_cmp more.now) start result }
{
    more.range(start..).next().copied()
}

/// The lesser of two numbers, of those that are there.
fn least(a: Option<u64>, b: Option<u64>) -> Option<u64>
    ensures { result ≡ least a b }
{
    match (a, b) {
        (Some(x), Some(y)) => Some(x.min(y)),
        (Some(x), None) => Some(x),
        (None, other) => other,
    }
}
