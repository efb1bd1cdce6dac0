//! What an accepted group changes.

use ucd_model::Points;

/// A group of operations that was carried out.
#[derive(Debug, Drop)]
pub struct Accepted {
    /// The code points whose records differ before the group and after it, ascending.
    pub changed: Points,
}
