//! Places in a pool.

/// A part of a pool.
#[derive(Clone, Copy, PartialEq, Eq)]
pub struct PoolRange {
    /// The index where it begins, counted from 0.
    pub start: u32,
    /// The index behind its last.
    pub end: u32,
}
