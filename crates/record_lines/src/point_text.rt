//! What is told of a code point.

use ucd_model::{Point, Text};

/// A code point, and the text of what is told of it.
#[derive(Debug, Drop)]
pub struct PointText {
    /// The code point.
    pub point: Point,
    /// What is told of it so far.
    pub text: Text,
}
