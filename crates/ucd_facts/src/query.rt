//! Questions about the facts of code points.

use std::alloc::Global;
use ucd_points::{Copied, ListOf, Memory, Point};

/// A question that the derivation of a code point asks. Questions are ordered by their kind, and then by their code
/// points.
#[derive(Clone, Copy, Debug, PartialEq, Eq, PartialOrd, Ord)]
pub enum Query {
    /// The facts of a code point.
    Row(Point),
    /// The primary composite of two code points.
    Pair(Point, Point),
    /// Whether a code point is the second member of a primary composite's mapping.
    Second(Point),
}

/// Questions.
pub type Queries = ListOf<Query>;

impl Copied for Query {
    fn copied(&self, _alloc: Global) -> Result<Query, Memory> {
        Ok(*self)
    }
}
