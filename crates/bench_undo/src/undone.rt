//! What an undo answers.

use edit_session::Accepted;

/// What an undo answers.
#[derive(Debug, Drop)]
pub enum Undone {
    /// The latest group that is kept was undone.
    Back(Accepted),
    /// No group is kept.
    Nothing,
}
