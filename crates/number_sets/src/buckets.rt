//! Buckets of a sorted list: hints where a number is to be looked for. No answer depends on them.

use std::alloc::Global;
use ucd_points::Memory;

/// How many buckets there are.
const BUCKETS: u64 = 4096;

/// How many keys are so few that they need no buckets.
const FEW: usize = 64;

/// The numbers of a bucket have the same upper bits.
#[derive(Drop)]
pub struct Buckets {
    // where in the list each bucket begins, and behind these where the last one ends; none if nothing is known
    begins: Vec<u32>,
    // how many lower bits the numbers of a bucket differ in
    bits: u32,
}

impl Buckets {
    /// Nothing is known. It takes no memory.
    pub fn none(alloc: Global) -> Buckets {
        Buckets {
            begins: Vec::new(alloc),
            bits: 0,
        }
    }

    /// The buckets of a sorted list, as far as there is memory for them.
    pub fn of(alloc: Global, sorted: &[u64]) -> Buckets {
        let mut buckets = Buckets::none(alloc);
        if sorted.len() < FEW {
            return buckets;
        }
        if let Some(last) = sorted.last() {
            buckets.bits = 52_u32.saturating_sub(last.leading_zeros());
        }
        buckets.fill(sorted);
        buckets
    }

    /// A copy of the buckets.
    ///
    /// - `Memory`: memory ran out.
    pub fn copied(&self, alloc: Global) -> Result<Buckets, Memory> {
        Ok(Buckets {
            begins: Vec::from_slice(alloc, &self.begins)?,
            bits: self.bits,
        })
    }

    /// Puts where each bucket begins, into room for just as many.
    fn fill(&mut self, sorted: &[u64]) {
        if self.begins.reserve_exact(BUCKETS as usize + 1).is_err() {
            return;
        }
        let mut at = 0;
        'buckets: for bucket in 0..BUCKETS + 1 {
            'keys: while at < sorted.len() && self.bucket(sorted[at]) < bucket {
                at += 1;
            }
            let Ok(begin) = u32::try_from(at) else {
                return;
            };
            if self.begins.push(begin).is_err() {
                return;
            }
        }
    }

    /// The bucket of a number.
    fn bucket(&self, number: u64) -> u64 {
        number >> (self.bits % 64)
    }

    /// Where the bucket of a number begins and ends in a list of so many keys; the whole list if nothing is known.
    pub fn bucket_bounds(&self, number: u64, keys: usize) -> (usize, usize) {
        let at = (self.bucket(number) % BUCKETS) as usize;
        match (self.begins.get(at), self.begins.get(at + 1)) {
            (Some(begin), Some(end)) => (*begin as usize, *end as usize),
            _ => (0, keys),
        }
    }
}
