//! Code points that were gathered in any order.

ghost use Rattle.std.specs.Prelude.{◌≡◌, IfOk};
ghost use Rattle.number_sets.specs.Keys.{has};
ghost use Rattle.dependency_map.specs.Askers.{points_from};

use crate::number_set::next_in;
use number_sets::KeySet;
use std::alloc::Global;
use ucd_facts::{Memory, Points};

/// The code points whose numbers these are, ascending.
///
/// - `Memory`: memory ran out.
pub fn points_of_numbers(alloc: Global, numbers: &KeySet) -> Result<Points, Memory>
    ensures { IfOk result (λ points. points ≡ points_from (has numbers.now) 0) }
{
    let mut points = Points::new(alloc);
    let mut from = 0;
    'points: while let Some(c) = next_in(numbers, from) {
        points.push(c)?;
        from = c.number() + 1;
    }
    Ok(points)
}
