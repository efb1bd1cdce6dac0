//! Invariants that a release misses.

use ucd_model::{Form, ListOf, Point};

/// An invariant of NormalizationTest.txt that a release misses. The head of that file, "CONFORMANCE".
#[derive(Clone, Copy, Debug, PartialEq, Eq, Drop)]
pub enum Miss {
    /// For the case on this line, this form of this column, from 1 to 5, is not the expected column. Invariant 1.
    Line { line: u32, form: Form, column: u8 },
    /// This form of this code point, which is assigned and not listed in part 1, is not the code point itself.
    /// Invariant 2.
    Point { point: Point, form: Form },
}

/// Invariants that a release misses, in order.
pub type Misses = ListOf<Miss>;
