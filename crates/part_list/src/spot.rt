//! Where an entry stands in a list in parts.

/// The spot of an entry, or of the gap before it. It serves until the list changes.
#[derive(Clone, Copy, Debug, PartialEq, Eq)]
pub struct Spot {
    /// The part, counted from 0.
    pub slot: usize,
    /// The entry in the part, counted from 0.
    pub at: usize,
}
