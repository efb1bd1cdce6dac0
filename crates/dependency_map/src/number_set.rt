//! Code points in a set of numbers.

ghost use Rattle.std.specs.Prelude.{◌≡◌, ◌+◌, ◌^◌, ◌<◌, ◌≤◌, true, MatchOption};
ghost use Rattle.number_sets.specs.Keys.{has};
ghost use Rattle.dependency_map.specs.Index.{NoneFrom};

use number_sets::KeySet;
use ucd_facts::Point;

/// The least code point at or above `from` whose number is in the set, counted from `base` on.
pub fn next_point(numbers: &KeySet, base: u64, from: u32) -> Option<Point>
    requires { base < 2 ^ 63 }
    ensures { MatchOption result (NoneFrom (λ k. has numbers.now (base + k)) from 1114112)
        (λ c. (from ≤ c) × (has numbers.now (base + c) ≡ true)
        × NoneFrom (λ k. has numbers.now (base + k)) from c) }
{
    let start = base + u64::from(from);
    let number = numbers.next(start)?;
    let own = number - base;
    if own < 1_114_112 {
        Some(Point::at(own as u32))
    } else {
        None
    }
}

/// The least code point at or above `from` whose number is in the set.
pub fn next_in(numbers: &KeySet, from: u32) -> Option<Point>
    ensures { MatchOption result (NoneFrom (has numbers.now) from 1114112)
        (λ c. (from ≤ c) × (has numbers.now c ≡ true) × NoneFrom (has numbers.now) from c) }
{
    let number = numbers.next(u64::from(from))?;
    if number < 1_114_112 {
        Some(Point::at(number as u32))
    } else {
        None
    }
}
