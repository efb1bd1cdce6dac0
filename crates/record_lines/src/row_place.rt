//! Where a row stands in its file.

/// Where a row stands in its file.
#[derive(Clone, Copy)]
pub struct RowPlace {
    /// The number of its first line, counted from 1.
    pub line: u64,
    /// Whether it stands in two lines.
    pub range: bool,
}
