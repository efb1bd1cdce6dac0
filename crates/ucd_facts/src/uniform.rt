//! A view of the facts that knows how far they are uniform.

ghost use Rattle.std.specs.Prelude.{◌≡◌, ◌≤◌, ◌<◌, ℕ};
ghost use Rattle.ucd_facts.specs.Uniform.{IsPlain, Uniform};

use crate::view::FactView;
use ucd_points::Point;

/// The facts of all code points, as they are now, and how far code points without a mapping have the same other facts. No
/// call takes memory. UAX #44, sections 5.6 and 5.7.
pub trait UniformFacts: FactView {
    /// A code point up to which all from `c` on are without a mapping of any kind and have the same other facts; `c`
    /// itself if it has a mapping. It need not be the last such code point.
    fn last_uniform(&self, c: Point) -> Point
        ensures from { c ≤ result }
        ensures plain { c < result → IsPlain c (Self.facts_of self.now c) }
        ensures uniform { (d : ℕ) → c < d → d ≤ result → Uniform (Self.facts_of self.now) c d }
    {
        c
    }
}
