//! Whether a chain of mappings is too long, level by level.

ghost use Rattle.std.specs.Prelude.{◌≡◌, ℕ, Bool, true, is_none, IfOk};
ghost use Rattle.std.specs.List.{list_any};
ghost use Rattle.ucd_facts.specs.Expansion.{full};
ghost use Rattle.decomposition.specs.Levels.{any_member};

use crate::expansion::{LEVELS, mapping_if_counted};
use std::alloc::Global;
use ucd_facts::{FactView, Memory, Point};

/// Whether the expansion of a code point needs a chain of eight mappings or more. A level has the members of the mappings of
/// the level above, each of them once: so no branch is walked once more for its depth.
///
/// - `Memory`: memory ran out.
pub fn has_long_chain<W: FactView>(
    alloc: Global,
    view: &W,
    compat: bool,
    c: Point,
) -> Result<bool, Memory>
    ensures { IfOk result (λ long. long ≡ is_none (full (W.facts_of view.now) compat c)) }
{
    let mut level = Vec::new(alloc);
    level.push(c)?;
    let mut levels = LEVELS;
    'levels: while levels > 0 {
        level = members_of(alloc, view, compat, &level)?;
        levels -= 1;
    }
    Ok(!level.is_empty())
}

/// The members of the mappings that count of some code points, each of them once.
///
/// - `Memory`: memory ran out.
fn members_of<W: FactView>(
    alloc: Global,
    view: &W,
    compat: bool,
    points: &[Point],
) -> Result<Vec<Point>, Memory>
    ensures { IfOk result (λ members. (p : ℕ → Bool)
        → list_any p members.items ≡ any_member (W.facts_of view.now) compat p points.now) }
{
    let mut members = Vec::new(alloc);
    'points: for c in points {
        members.extend_from_slice(mapping_if_counted(view, compat, *c))?;
    }
    Ok(sorted_without_repeats(members))
}

/// Each of the items once. It takes no memory.
fn sorted_without_repeats<V: Ord + Drop>(mut points: Vec<V>) -> Vec<V>
    requires { (a b : V) → V.eq a b ≡ true → a ≡ b }
    ensures { (p : V → Bool) → list_any p result.items ≡ list_any p points.items }
{
    points.sort_unstable();
    points.dedup();
    points
}
