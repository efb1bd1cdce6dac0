//! What a desk answers.

use edit_session::Refused;
use ucd_model::{ListOf, Points};

/// The reply to one event. Revisions are counted from 1: a revision is the number of an accepted group.
#[derive(Debug, Drop)]
pub enum Reply {
    /// The editor is present from now on.
    Entered {
        /// The last revision; 0 before the first.
        revision: u32,
    },
    /// The group was carried out.
    Accepted {
        /// The revision that it makes.
        revision: u32,
        /// The code points whose records differ before the group and after it, ascending.
        changed: Points,
    },
    /// The editor is no longer present.
    Left,
    /// The editor who comes is present already.
    Present,
    /// The editor who proposes or leaves is not present.
    Absent,
    /// The proposal names a revision that does not exist yet.
    Ahead {
        /// The last revision; 0 before the first.
        revision: u32,
    },
    /// The proposal has an operation on a row that was touched after the revision that it names.
    Stale {
        /// The last revision that touched a row of any of its operations.
        revision: u32,
        /// The first such operation, counted from 1.
        op: u32,
    },
    /// The group breaks a rule.
    Refused(Refused),
}

/// Replies, in the order of the events.
pub type Replies = ListOf<Reply>;
