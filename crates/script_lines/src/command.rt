//! The commands of a script.

use release_rows::Ops;
use ucd_facts::{ListOf, Text};

/// What a command asks for.
#[derive(Debug, Drop)]
pub enum What {
    /// The operations of a group, which are carried out together or not at all.
    Group(Ops),
    /// The members of a UnicodeSet, by its text. The text may be empty, and need not be that of a set. UTS #35.
    Question(Text),
}

/// A command of a script.
#[derive(Debug, Drop)]
pub struct Command {
    /// The line of the script on which the command begins, counted from 1.
    pub line: u32,
    /// What it asks for.
    pub what: What,
}

/// The commands of a script, in order.
pub type Commands = ListOf<Command>;
