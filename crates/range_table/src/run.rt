//! Runs of equal values.

use ucd_points::Point;

/// What a table tells of the maximal run of equal values that a code point lies in.
#[derive(Clone, Copy)]
pub struct Run<V> {
    /// The value.
    pub value: V,
    /// The last code point of the run.
    pub last: Point,
    /// Where to look for the run behind this one first. No answer depends on it.
    pub index: usize,
}
