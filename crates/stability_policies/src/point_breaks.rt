//! The breaks of a policy of code points.

ghost use Rattle.std.specs.Prelude.{◌≡◌, ◌-◌, ◌≤◌, ◌++◌, map, OnOk};
ghost use Rattle.std.specs.List.{range_with_len};
ghost use Rattle.stability_policies.specs.BrokenStretches.{points_in, points_of};
ghost use Rattle.stability_policies.specs.declared.breaks.Break.TheVariants.{At};

use crate::breaks::{Break, Breaks};
use crate::broken_stretch::BrokenStretch;
use crate::policy::Policy;
use ucd_model::{Memory, Point};

/// Puts the breaks of a policy by the code points of the stretches that break it. No code point is looked at again.
///
/// - `Memory`: memory ran out.
pub fn put_points(
    policy: Policy,
    stretches: &[BrokenStretch],
    into: &mut Breaks,
) -> Result<(), Memory>
    ensures { OnOk result (into.new ≡ into.old
        ++ map (At policy) (points_of policy stretches.now)) }
{
    'stretches: for stretch in stretches {
        put_stretch_points(policy, *stretch, into)?;
    }
    Ok(())
}

/// Puts the breaks of a policy by the code points of a stretch, if they break it.
///
/// - `Memory`: memory ran out.
fn put_stretch_points(
    policy: Policy,
    stretch: BrokenStretch,
    into: &mut Breaks,
) -> Result<(), Memory>
    ensures { OnOk result (into.new ≡ into.old ++ map (At policy) (points_in policy stretch)) }
{
    if stretch.policies.has(policy) {
        put_all(policy, stretch.span.first(), stretch.span.last() + 1, into)?;
    }
    Ok(())
}

/// Puts the breaks of a policy by the code points from `first` to before `end`.
///
/// - `Memory`: memory ran out.
pub fn put_all(policy: Policy, first: u32, end: u32, into: &mut Breaks) -> Result<(), Memory>
    requires within { end ≤ 1114112 }
    ensures { OnOk result (into.new ≡ into.old
        ++ map (At policy) (range_with_len first (end - first))) }
{
    let mut number = first;
    'points: while number < end {
        into.push(Break::At {
            policy,
            point: Point::at(number),
        })?;
        number += 1;
    }
    Ok(())
}
