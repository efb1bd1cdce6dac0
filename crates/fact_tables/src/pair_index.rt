//! The index of the code points that may compose the two members of their mapping.

ghost use Rattle.std.specs.Prelude.{◌≡◌, ℕ, ◌+◌, ◌%◌, ◌<◌, ◌≤◌, ◌==◌, true, IfOk, OnOk, MatchOption};
ghost use Rattle.number_sets.specs.Keys.{has, is_in, IsNext};
ghost use Rattle.fact_tables.specs.Index.{pair_key, first_key, second_key, is_listed, is_gathered, IsNextBelow};

use crate::pair_keys::{PairKeys, pair_base, second_member_base};
use crate::points::point;
use number_sets::KeySet;
use std::alloc::Global;
use ucd_facts::{Memory, Point};

/// How many keys may be put in beside very few others before all are gathered anew.
const FEW: usize = 256;

/// Code points under the two members of their mappings, and under the second ones. The index does not tell whether one
/// of them is a primary composite: that may change while the index stays. Keys are put in and never taken out, so it
/// counts them: after four times the square root of those that it was made of, and some more, it is due to be made anew.
#[derive(Drop)]
pub struct PairIndex {
    /// The keys of the pairs.
    pub pairs: KeySet,
    /// The keys of the second members.
    pub seconds: KeySet,
    /// Where the memory for keys comes from.
    pub alloc: Global,
    /// How many keys of pairs may still be put in before all are gathered anew.
    pub left: usize,
}

impl PairIndex {
    /// The index of the code points of these keys. Room that no key takes up is given back.
    pub fn of(alloc: Global, keys: PairKeys) -> PairIndex
        ensures { (a b r : ℕ) → is_listed result a b r ≡ is_gathered keys a b r }
    {
        let PairKeys { pairs, seconds } = keys;
        let root = pairs.len().isqrt();
        let left = root.saturating_mul(4).saturating_add(FEW);
        PairIndex {
            pairs: KeySet::of(alloc, pairs),
            seconds: KeySet::of(alloc, seconds),
            alloc,
            left,
        }
    }

    /// A copy of the index: it lists the same code points under the same pairs.
    ///
    /// - `Memory`: memory ran out.
    pub fn copied(&self, alloc: Global) -> Result<PairIndex, Memory>
        ensures { IfOk result (λ copy. (a b r : ℕ)
            → is_listed copy a b r ≡ is_listed self.now a b r) }
    {
        Ok(PairIndex {
            pairs: self.pairs.copied(alloc)?,
            seconds: self.seconds.copied(alloc)?,
            alloc,
            left: self.left,
        })
    }

    /// Lists the code points of these keys too.
    ///
    /// - `Memory`: memory ran out. Some of them may be listed.
    pub fn add(&mut self, keys: &PairKeys) -> Result<(), Memory>
        ensures grows { (a b r : ℕ) → is_listed self.old a b r ≡ true
            → is_listed self.new a b r ≡ true }
        ensures listed { OnOk result ((a b r : ℕ) → is_gathered keys.now a b r ≡ true
            → is_listed self.new a b r ≡ true) }
    {
        self.left = self.left.saturating_sub(keys.pairs.len());
        insert_all(&mut self.pairs, &keys.pairs)?;
        insert_all(&mut self.seconds, &keys.seconds)
    }

    /// Whether so many keys were put in that all are to be gathered anew.
    pub fn is_gathering_due(&self) -> bool
        ensures { result ≡ (self.now.left == 0) }
    {
        self.left == 0
    }

    /// Lets a few more keys be put in before all are gathered anew.
    pub fn put_off_gathering(&mut self)
        ensures { (a b r : ℕ) → is_listed self.new a b r ≡ is_listed self.old a b r }
    {
        self.left = FEW;
    }

    /// Where the memory for keys comes from.
    pub fn allocator(&self) -> Global
        ensures { result ≡ self.now.alloc }
    {
        self.alloc
    }

    /// The least key at or above `from` of a pair; `None` if there is none.
    pub fn next_pair_key(&self, from: u64) -> Option<u64>
        ensures { IsNext (has self.now.pairs) from result }
    {
        self.pairs.next(from)
    }

    /// The least code point at or above `from` that is listed under a pair; `None` if there is none.
    pub fn next_of_pair(&self, s: Point, y: Point, from: u32) -> Option<Point>
        ensures { IsNextBelow (λ k. has self.now.pairs (pair_key s y + k)) from 1114112 result }
    {
        next_listed(&self.pairs, pair_base(s, y), from)
    }

    /// The least code point at or above `from` that is listed under a second member; `None` if there is none.
    pub fn next_of_second(&self, y: Point, from: u32) -> Option<Point>
        ensures { IsNextBelow (λ k. has self.now.seconds (second_key y + k)) from 1114112 result }
    {
        next_listed(&self.seconds, second_member_base(y), from)
    }

    /// The least key at or above `from` of a pair that has `s` as its first member; `None` if there is none.
    pub fn next_key_of_first(&self, s: Point, from: u64) -> Option<u64>
        ensures { IsNextBelow (has self.now.pairs) from (first_key s + 4398046511104) result }
    {
        let key = self.pairs.next(from)?;
        if key < first_member_base(s) + 4_398_046_511_104 {
            Some(key)
        } else {
            None
        }
    }
}

/// Puts keys in. On failure some of them may be in.
fn insert_all(into: &mut KeySet, keys: &[u64]) -> Result<(), Memory>
    ensures grows { (k : ℕ) → has into.old k ≡ true → has into.new k ≡ true }
    ensures all { OnOk result ((k : ℕ) → is_in keys.now k ≡ true → has into.new k ≡ true) }
{
    'keys: for key in keys {
        insert(into, *key)?;
    }
    Ok(())
}

/// Puts a key in. On failure the keys stay.
fn insert(keys: &mut KeySet, key: u64) -> Result<(), Memory>
    ensures grows { (k : ℕ) → has keys.old k ≡ true → has keys.new k ≡ true }
    ensures added { OnOk result (has keys.new key ≡ true) }
{
    keys.insert(key)?;
    Ok(())
}

/// Where the keys of all pairs with this first member begin.
pub fn first_member_base(s: Point) -> u64
    ensures value { result ≡ first_key s }
    ensures below { result < 9223372036850000000 }
{
    u64::from(s.number()) * 4_398_046_511_104
}

/// The code point that is listed under a key; `None` if its bits are those of no code point.
pub fn listed_point(key: u64) -> Option<Point>
    ensures { MatchOption result (1114112 ≤ key % 2097152) (λ q. q ≡ key % 2097152) }
{
    Point::new((key % 2_097_152) as u32)
}

/// The least code point at or above `from` that is listed under the keys from `base` on.
fn next_listed(keys: &KeySet, base: u64, from: u32) -> Option<Point>
    requires { base < 9223372036850000000 }
    ensures { IsNextBelow (λ k. has keys.now (base + k)) from 1114112 result }
{
    let start = base + u64::from(from);
    let key = keys.next(start)?;
    let own = key - base;
    if own < 1_114_112 {
        Some(point(own as u32))
    } else {
        None
    }
}
