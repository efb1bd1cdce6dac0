//! Which rows of a release are meant.

/// The rows of a release now, or those next.
#[derive(Clone, Copy)]
pub enum NowOrNext {
    /// The rows now.
    Now,
    /// The rows next.
    Next,
}
