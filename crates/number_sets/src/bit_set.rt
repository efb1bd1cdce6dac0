//! Sets of small numbers, a bit for each.
//!
//! | bits of a word | what they say |
//! |---|---|
//! | 0 to 63 | whether the set has the numbers from 64 times its place on, in order |

ghost use Rattle.std.specs.Prelude.{◌≡◌, ◌≤◌, ℕ, ◌/◌, ◌%◌, ◌==◌, ◌||◌, false, true, length, slice_index_or, OnErr, OnOk};
ghost use Rattle.std.specs.Int.{bit_at};
ghost use Rattle.number_sets.specs.Bits.{has_number, is_between};

use std::alloc::Global;
use ucd_points::Memory;

/// A set of small numbers. It takes room up to the last one of them: for all code points 139 thousand bytes.
#[derive(Debug, Drop)]
pub struct BitSet {
    // their bits; if there is no word, none is in
    pub(crate) words: Vec<u64>,
}

impl BitSet {
    /// The set of no numbers. It takes no memory.
    pub fn new(alloc: Global) -> BitSet
        ensures { (k : ℕ) → has_number result k ≡ false }
    {
        BitSet {
            words: Vec::new(alloc),
        }
    }

    /// Whether a number is in it.
    pub fn has(&self, number: u32) -> bool
        ensures { result ≡ has_number self.now number }
    {
        match self.words.get(number as usize / 64) {
            Some(word) => (*word >> (number % 64)) & 1 == 1,
            None => false,
        }
    }

    /// Whether one of the numbers from `first` to `last` is in it, both of them looked at; `false` if they descend. Its time grows with the number of their words.
    pub fn has_any(&self, first: u32, last: u32) -> bool
        ensures none { result ≡ false → (k : ℕ) → first ≤ k → k ≤ last
            → has_number self.now k ≡ false }
        ensures some { result ≡ true
            → (k : ℕ) × (first ≤ k) × (k ≤ last) × (has_number self.now k ≡ true) }
    {
        'places: for place in first as usize / 64..last as usize / 64 + 1 {
            let Some(word) = self.words.get(place) else {
                return false;
            };
            if *word & mask(place, first, last) != 0 {
                return true;
            }
        }
        false
    }

    /// Puts a number in.
    ///
    /// - `Memory`: memory ran out. The set stays as it was.
    pub fn insert(&mut self, number: u32) -> Result<(), Memory>
        ensures ok { OnOk result ((k : ℕ)
            → has_number self.new k ≡ (has_number self.old k || k == number)) }
        ensures err { OnErr result ((k : ℕ) → has_number self.new k ≡ has_number self.old k) }
    {
        let place = number as usize / 64;
        grow(&mut self.words, place + 1)?;
        self.words[place] |= 1 << (number % 64);
        Ok(())
    }

    /// Puts all numbers from `first` to `last` in, both of them; none if they descend. Its time grows with the number of their words.
    ///
    /// - `Memory`: memory ran out. The set stays as it was.
    pub fn insert_all(&mut self, first: u32, last: u32) -> Result<(), Memory>
        ensures ok { OnOk result ((k : ℕ)
            → has_number self.new k ≡ (has_number self.old k || is_between first last k)) }
        ensures err { OnErr result ((k : ℕ) → has_number self.new k ≡ has_number self.old k) }
    {
        let end = last as usize / 64 + 1;
        grow(&mut self.words, end)?;
        'places: for place in first as usize / 64..end {
            self.words[place] |= mask(place, first, last);
        }
        Ok(())
    }
}

/// The bits of the word at a place that stand for the numbers from `first` to `last`, both of them.
fn mask(place: usize, first: u32, last: u32) -> u64
    requires from { first / 64 ≤ place }
    requires to { place ≤ last / 64 }
    ensures { (k : ℕ) → k / 64 ≡ place → (bit_at result (k % 64) == 1) ≡ is_between first last k }
{
    let from = (first as usize).saturating_sub(place * 64);
    let to = (last as usize - place * 64).min(63);
    (u64::MAX << from) & (u64::MAX >> (63 - to))
}

/// Makes the words at least so many.
///
/// - `Memory`: memory ran out. They stay as they were.
fn grow(words: &mut Vec<u64>, count: usize) -> Result<(), Memory>
    ensures same { (i : ℕ) → slice_index_or words.new.items i 0
        ≡ slice_index_or words.old.items i 0 }
    ensures ok { OnOk result (count ≤ length words.new.items) }
{
    if words.len() < count {
        words.resize(count, 0)?;
    }
    Ok(())
}
