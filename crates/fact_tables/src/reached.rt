//! What an edit reaches, gone through point by point.

use ucd_facts::{Point, Query};

/// What was found so far of an edit: questions that are answered differently, and pairs that may be.
#[derive(Drop)]
pub struct Reached {
    /// Questions that now and next do not answer alike.
    pub queries: Vec<Query>,
    /// The members of mappings of primary composites, now or next.
    pub pairs: Vec<(Point, Point)>,
}
