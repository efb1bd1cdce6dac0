//! A law of the stretches.

ghost use Rattle.std.specs.Prelude.{◌≡◌, ℕ, ◌+◌, ◌<◌, ◌≤◌, Bool, true, List, length};
ghost use Rattle.std.specs.Iterator.{Drains};
ghost use Rattle.std.specs.List.{All};
ghost use Rattle.ucd_points.specs.Bounds.{Bounds};
ghost use Rattle.point_stretches.specs.Stretches.{Follow, GivesStretch};

use crate::stretch_iter::StretchIter;
use ucd_points::Point;

/// A law: the stretches that are left follow one another without a gap, from where the first of them begins up to 10FFFF
/// (hexadecimal), and each is told. So what holds throughout each of them holds of all these code points, and there are no more
/// stretches than code points.
pub fn stretches_cover<F: Fn(Point) -> Point>(left: &StretchIter<F>)
    ensures follow { (xs : List Bounds) → Drains (GivesStretch F.post) left.now xs
        → Follow (F.post left.now.last_of) left.now.from xs 1114112 }
    ensures throughout { (xs : List Bounds) (p : ℕ → Bool)
        → Drains (GivesStretch F.post) left.now xs
        → All (λ x. (k : ℕ) → x.lo ≤ k → k ≤ x.hi → p k ≡ true) xs → (k : ℕ) → left.now.from ≤ k
        → k < 1114112 → p k ≡ true }
    ensures few { (xs : List Bounds) → Drains (GivesStretch F.post) left.now xs
        → left.now.from + length xs ≤ 1114112 }
{}
