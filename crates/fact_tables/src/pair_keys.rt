//! The keys of the code points that may compose the two members of their mapping.
//!
//! | bits of a key | what they say |
//! |---|---|
//! | 0 to 20 | the code point that has the mapping |
//! | 21 to 41 | the second member |
//! | 42 to 62 | the first member, in the keys of pairs |

ghost use Rattle.std.specs.Prelude.{◌≡◌, ℕ, ◌<◌, ◌≤◌, [], true, OnOk};
ghost use Rattle.number_sets.specs.Keys.{is_in};
ghost use Rattle.fact_tables.specs.Index.{pair_key, second_key, is_gathered};

use crate::points::point;
use std::alloc::Global;
use ucd_facts::{Memory, Point, Span};

/// The keys of code points under the two members of their mappings, and under the second ones, as they are found.
#[derive(Drop)]
pub struct PairKeys {
    /// The keys of the pairs.
    pub pairs: Vec<u64>,
    /// The keys of the second members.
    pub seconds: Vec<u64>,
}

impl PairKeys {
    /// No keys. It takes no memory.
    pub fn new(alloc: Global) -> PairKeys
        ensures pairs { result.pairs.items ≡ [] }
        ensures seconds { result.seconds.items ≡ [] }
    {
        PairKeys {
            pairs: Vec::new(alloc),
            seconds: Vec::new(alloc),
        }
    }

    /// Gathers a code point under the members of its mapping.
    ///
    /// - `Memory`: memory ran out.
    pub fn put(&mut self, s: Point, y: Point, q: Point) -> Result<(), Memory>
        ensures grows { (a b r : ℕ) → is_gathered self.old a b r ≡ true
            → is_gathered self.new a b r ≡ true }
        ensures gathered { OnOk result (is_gathered self.new s y q ≡ true) }
    {
        let own = u64::from(q.number());
        put_key(&mut self.pairs, pair_base(s, y) + own)?;
        put_key(&mut self.seconds, second_member_base(y) + own)
    }

    /// Gathers the code points of a span under the members of the mapping that they have in common.
    ///
    /// - `Memory`: memory ran out.
    pub fn put_span(&mut self, s: Point, y: Point, span: Span) -> Result<(), Memory>
        ensures grows { (a b r : ℕ) → is_gathered self.old a b r ≡ true
            → is_gathered self.new a b r ≡ true }
        ensures gathered { OnOk result ((q : ℕ) → span.lo ≤ q → q ≤ span.hi
            → is_gathered self.new s y q ≡ true) }
    {
        'points: for number in span.first()..span.last() + 1 {
            self.put(s, y, point(number))?;
        }
        Ok(())
    }
}

/// Puts a key at the end. On failure the keys stay.
fn put_key(keys: &mut Vec<u64>, key: u64) -> Result<(), Memory>
    ensures grows { (k : ℕ) → is_in keys.old.items k ≡ true → is_in keys.new.items k ≡ true }
    ensures added { OnOk result (is_in keys.new.items key ≡ true) }
{
    keys.push(key)?;
    Ok(())
}

/// Where the keys of a pair begin.
pub fn pair_base(s: Point, y: Point) -> u64
    ensures value { result ≡ pair_key s y }
    ensures below { result < 9223372036850000000 }
{
    (u64::from(s.number()) * 2_097_152 + u64::from(y.number())) * 2_097_152
}

/// Where the keys of a second member begin.
pub fn second_member_base(y: Point) -> u64
    ensures value { result ≡ second_key y }
    ensures below { result < 9223372036850000000 }
{
    u64::from(y.number()) * 2_097_152
}
