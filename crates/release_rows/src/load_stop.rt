//! Why a file was not loaded.

ghost use Rattle.std.specs.Prelude.{◌≡◌};

use source_rows::RowFault;
use std::alloc::AllocFailed;
use thiserror::Error;
use ucd_facts::Memory;

/// The rule that a file breaks.
#[derive(Clone, Copy, Debug, PartialEq, Eq, Drop, Error)]
pub enum LoadRule {
    /// The file has more than 33,554,432 bytes.
    #[error("the file is longer than the limit")]
    G02,
    /// A line is no row of the file, by this rule.
    #[error("the line is no row: {0:?}")]
    Row(RowFault),
    /// A row above has the same key.
    #[error("a row above has this key")]
    K1,
    /// The row overlaps a row above: in UnicodeData.txt, Scripts.txt, WordBreakProperty.txt and
    /// CompositionExclusions.txt any row, in PropList.txt one of the same property.
    #[error("the row overlaps a row above")]
    K4,
    /// In UnicodeData.txt the row begins below the row before it.
    #[error("the row begins below the row before it")]
    K5,
}

/// Why a file was not loaded.
#[derive(Clone, Copy, Debug, PartialEq, Eq, Drop, Error)]
pub enum LoadStop {
    /// The first line that breaks a rule, counted from 1, and the first rule that it breaks. The line of `G02` is 0.
    #[error("line {line}: {rule}")]
    Fault { line: u32, rule: LoadRule },
    /// Memory ran out.
    #[error("out of memory")]
    Memory,
}

/// Running out of memory is `LoadStop::Memory`.
impl From<Memory> for LoadStop {
    ghost use Rattle.release_rows.specs.declared.load_stop.LoadStop.TheVariants.{Memory};

    ghost from_gives = { λ _ e. e ≡ Memory };

    fn from(_e: Memory) -> LoadStop {
        LoadStop::Memory
    }
}

/// Running out of memory in a call that hands back what it could not put is `LoadStop::Memory`. What it hands back is dropped.
impl<T: Drop> From<AllocFailed<T>> for LoadStop {
    ghost use Rattle.release_rows.specs.declared.load_stop.LoadStop.TheVariants.{Memory};

    ghost from_gives = { λ _ e. e ≡ Memory };

    fn from(_e: AllocFailed<T>) -> LoadStop {
        LoadStop::Memory
    }
}
