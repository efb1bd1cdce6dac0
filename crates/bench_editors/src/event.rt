//! What editors do at a desk.

use release_rows::Ops;

/// One event at a desk. It is handled whole before the next one.
#[derive(Debug, Drop)]
pub enum Event {
    /// An editor comes to the desk.
    Enter {
        /// The editor's number.
        editor: u32,
    },
    /// An editor proposes a group of operations.
    Propose {
        /// The editor's number.
        editor: u32,
        /// The last revision that the editor has seen; 0 before the first.
        base: u32,
        /// The operations, in order: at most 4,096.
        group: Ops,
    },
    /// An editor leaves the desk.
    Leave {
        /// The editor's number.
        editor: u32,
    },
}
