//! What is kept of a row while its file is loaded.

use crate::brief::Brief;
use crate::sort_key::SortKey;

/// The key of a row, its last code points, and what is kept of what the row gives.
#[derive(Drop)]
pub struct LoadedRow {
    /// The key.
    pub place: SortKey,
    /// The last code point that no other row may have, not less than the first.
    pub last: u32,
    /// The last code point that the row speaks of.
    pub reach: u32,
    /// What is kept of what the row gives.
    pub brief: Brief,
}
