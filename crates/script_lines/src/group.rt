//! A group that is open.

use release_rows::Ops;

/// A group that is not closed yet.
#[derive(Drop)]
pub struct OpenGroup {
    /// The line of its `begin`, counted from 1.
    pub line: u32,
    /// Its operations so far.
    pub ops: Ops,
}
