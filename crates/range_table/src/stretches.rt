//! Tables that tell how far a value reaches.

ghost use Rattle.std.specs.Prelude.{◌≡◌, ◌≢◌, ℕ, ◌+◌, ◌%◌, ◌<◌, ◌≤◌};

use crate::table::Table;
use ucd_points::Point;

/// A table that tells, for a code point, how far equal values reach from there.
/// A stretch ends where the value changes, or at the end of a block of 256 code points: so each table can bound the work
/// by its own way to keep the values. Whoever goes from stretch to stretch passes each code point once.
pub trait Stretches<V: Copy + Eq>: Table<V> {
    /// The last code point of a stretch of values now that begins at a code point and are all equal.
    fn last_of_stretch(&self, c: Point) -> Point
        ensures from { c ≤ result }
        ensures same { (k : ℕ) → c ≤ k → k ≤ result → Self.now self.now k ≡ Self.now self.now c }
        ensures ends { result + 1 < 1114112 → (result + 1) % 256 ≢ 0 → Self.now self.now (result + 1) ≢ Self.now self.now c };

    /// The last code point of a stretch of values next that begins at a code point and are all equal.
    fn last_of_stretch_next(&self, c: Point) -> Point
        ensures from { c ≤ result }
        ensures same { (k : ℕ) → c ≤ k → k ≤ result → Self.next self.now k ≡ Self.next self.now c }
        ensures ends { result + 1 < 1114112 → (result + 1) % 256 ≢ 0 → Self.next self.now (result + 1) ≢ Self.next self.now c };
}
