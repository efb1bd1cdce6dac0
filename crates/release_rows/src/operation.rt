//! Operations on the rows of a release.

ghost use Rattle.std.specs.Prelude.{◌≡◌};
ghost use Rattle.release_rows.specs.Operations.{op_file};

use crate::key_rule::KeyRule;
use source_rows::Key;
use std::alloc::AllocFailed;
use ucd_facts::{ListOf, Memory, Row, SourceFile, Text};

/// One operation on the rows of a file.
#[derive(Debug, Drop)]
pub enum Op {
    /// The row is put where its key has its place among the rows of its group.
    Add {
        /// The file.
        file: SourceFile,
        /// The row.
        row: Row,
        /// What the row is read from: a line without its end, or the two lines of a range.
        bytes: Text,
    },
    /// The row takes the place of the row that has its key.
    Change {
        /// The file.
        file: SourceFile,
        /// The row.
        row: Row,
        /// What the row is read from: a line without its end, or the two lines of a range.
        bytes: Text,
    },
    /// The row that has the key is taken out.
    Withdraw {
        /// The file.
        file: SourceFile,
        /// The key.
        key: Key,
    },
}

impl Op {
    /// The file of the operation.
    pub fn file(&self) -> SourceFile
        ensures { result ≡ op_file self.now }
    {
        match self {
            Op::Add { file, .. } | Op::Change { file, .. } | Op::Withdraw { file, .. } => *file,
        }
    }
}

/// Operations, in order.
pub type Ops = ListOf<Op>;

/// Why an operation was not carried out.
#[derive(Clone, Copy, Debug, PartialEq, Eq, Drop)]
pub enum OpStop {
    /// The rule that the operation breaks.
    Key(KeyRule),
    /// Memory ran out.
    Memory,
}

/// A rule that is broken is `OpStop::Key`.
impl From<KeyRule> for OpStop {
    ghost use Rattle.release_rows.specs.declared.operation.OpStop.TheVariants.{Key};

    ghost from_gives = { λ rule e. e ≡ Key rule };

    fn from(rule: KeyRule) -> OpStop {
        OpStop::Key(rule)
    }
}

/// Running out of memory is `OpStop::Memory`.
impl From<Memory> for OpStop {
    ghost use Rattle.release_rows.specs.declared.operation.OpStop.TheVariants.{Memory};

    ghost from_gives = { λ _ e. e ≡ Memory };

    fn from(_e: Memory) -> OpStop {
        OpStop::Memory
    }
}

/// Running out of memory in a call that hands back what it could not put is `OpStop::Memory`. What it hands back is dropped.
impl<T: Drop> From<AllocFailed<T>> for OpStop {
    ghost use Rattle.release_rows.specs.declared.operation.OpStop.TheVariants.{Memory};

    ghost from_gives = { λ _ e. e ≡ Memory };

    fn from(_e: AllocFailed<T>) -> OpStop {
        OpStop::Memory
    }
}
