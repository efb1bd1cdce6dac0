//! The rules that a row keeps beside the other rows of its file.

/// What a row breaks against the rows above it.
#[derive(Clone, Copy, PartialEq, Eq)]
pub enum Conflict {
    /// A row with this key is there already.
    K1,
    /// The row overlaps another one.
    K4,
}
