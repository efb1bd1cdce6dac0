//! The code points that part 1 lists.

ghost use Rattle.std.specs.Prelude.{◌≡◌, ℕ, IfOk};
ghost use Rattle.number_sets.specs.Keys.{has};
ghost use Rattle.norm_conformance.specs.Misses.{is_listed};

use crate::case::Case;
use number_sets::KeySet;
use std::alloc::Global;
use ucd_model::{Memory, Point};

/// The code points that are the whole source of a case of part 1.
///
/// - `Memory`: memory ran out.
pub fn listed_points(alloc: Global, cases: &[Case]) -> Result<KeySet, Memory>
    ensures { IfOk result (λ listed. (c : ℕ) → has listed c ≡ is_listed cases.now c) }
{
    let mut numbers = Vec::new(alloc);
    'cases: for case in cases {
        if case.part == 1
            && let [c] = case.c1.as_slice()
        {
            numbers.push(u64::from(c.number()))?;
        }
    }
    Ok(KeySet::of(alloc, numbers))
}

/// Whether a code point is in the set.
pub fn is_among(listed: &KeySet, c: Point) -> bool
    ensures { result ≡ has listed.now c }
{
    let number = u64::from(c.number());
    listed.next(number) == Some(number)
}
