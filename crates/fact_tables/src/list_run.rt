//! Stretches of code points that have the same list.

use ucd_facts::Point;

/// What lists tell of a stretch of code points.
#[derive(Clone, Copy)]
pub struct ListRun<'a> {
    /// The list that each of them has.
    pub points: &'a [Point],
    /// The last code point of the stretch.
    pub last: Point,
    /// Where to look for the stretch behind this one first. No answer depends on it.
    pub index: usize,
}
