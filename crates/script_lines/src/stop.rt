//! Why a text is no script.

ghost use Rattle.std.specs.Prelude.{◌≡◌};

use source_rows::RowFault;
use std::alloc::{AllocError, AllocFailed};
use thiserror::Error;
use ucd_facts::Memory;

/// The rule that a script breaks. On one line they are tested in this order; `E2` comes only if there is no other.
#[derive(Clone, Copy, Debug, PartialEq, Eq, Drop, Error)]
pub enum ScriptRule {
    /// The line is no command, its file is unknown, `end` closes no group, or `last` follows no first line of a range.
    #[error("the line is no command")]
    E1,
    /// The script ends inside a group.
    #[error("the group is not closed")]
    E2,
    /// `begin` stands inside a group.
    #[error("a group is open already")]
    E3,
    /// `set` stands inside a group.
    #[error("a question stands inside a group")]
    E4,
    /// The group has 4,096 operations already.
    #[error("the group has too many operations")]
    E5,
    /// The row or the key is out of the grammar of its file, by this rule.
    #[error("the line is out of the grammar of its file: {0:?}")]
    E6(RowFault),
}

/// Why there are no commands.
#[derive(Clone, Copy, Debug, PartialEq, Eq, Drop, Error)]
pub enum ScriptStop {
    /// The first line that breaks a rule, counted from 1, and the first rule that it breaks. The line of `E2` is that
    /// of the group's `begin`.
    #[error("line {line}: {rule}")]
    Fault { line: u32, rule: ScriptRule },
    /// Memory ran out.
    #[error("out of memory")]
    Memory,
}

/// Running out of memory is `ScriptStop::Memory`.
impl From<Memory> for ScriptStop {
    ghost use Rattle.script_lines.specs.declared.stop.ScriptStop.TheVariants.{Memory};

    ghost from_gives = { λ _ e. e ≡ Memory };

    fn from(_e: Memory) -> ScriptStop {
        ScriptStop::Memory
    }
}

/// Running out of memory, as an allocator answers it, is `ScriptStop::Memory`.
impl From<AllocError> for ScriptStop {
    ghost use Rattle.script_lines.specs.declared.stop.ScriptStop.TheVariants.{Memory};

    ghost from_gives = { λ _ e. e ≡ Memory };

    fn from(_e: AllocError) -> ScriptStop {
        ScriptStop::Memory
    }
}

/// Running out of memory in a call that hands back what it could not put is `ScriptStop::Memory`. What it hands back is dropped.
impl<T: Drop> From<AllocFailed<T>> for ScriptStop {
    ghost use Rattle.script_lines.specs.declared.stop.ScriptStop.TheVariants.{Memory};

    ghost from_gives = { λ _ e. e ≡ Memory };

    fn from(_e: AllocFailed<T>) -> ScriptStop {
        ScriptStop::Memory
    }
}
