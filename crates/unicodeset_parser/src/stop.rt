//! Why a text is no UnicodeSet.

ghost use Rattle.std.specs.Prelude.{◌≡◌};

use std::alloc::{AllocError, AllocFailed};
use thiserror::Error;
use ucd_points::Memory;

/// The rule that a text breaks. UTS #35, "Unicode Sets".
#[derive(Clone, Copy, Debug, PartialEq, Eq, Drop, Error)]
pub enum SetRule {
    /// The text is not UTF-8 from this place on.
    #[error("the text is not UTF-8")]
    S1,
    /// The text ends where a set or an element lacks its end, or where a set is due.
    #[error("the text ends too early")]
    S2,
    /// The character is not allowed here.
    #[error("the character is not allowed here")]
    S3,
    /// The second character of a range is less than its first.
    #[error("the second character of the range is less than its first")]
    S4,
    /// The escape is none of those that are known, lacks digits, or gives a number above 10FFFF.
    #[error("the escape gives no code point")]
    S5,
    /// More than 64 bracket sets are open at once.
    #[error("more than 64 bracket sets are open at once")]
    S6,
    /// Strings, variables, names of characters, the not-equal sign and patterns as values are not read.
    #[error("the form is not read")]
    S7,
}

/// Why there is no tree of a text.
#[derive(Clone, Copy, Debug, PartialEq, Eq, Drop, Error)]
pub enum SetStop {
    /// The fault with the least place, in bytes counted from 0. The place of `S2` is the length of the text.
    #[error("byte {at}: {rule}")]
    Fault { rule: SetRule, at: usize },
    /// Memory ran out.
    #[error("out of memory")]
    Memory,
}

/// Running out of memory is `SetStop::Memory`.
impl From<Memory> for SetStop {
    ghost use Rattle.unicodeset_parser.specs.declared.stop.SetStop.TheVariants.{Memory};

    ghost from_gives = { λ _ e. e ≡ Memory };

    fn from(_e: Memory) -> SetStop {
        SetStop::Memory
    }
}

/// Running out of memory, as an allocator answers it, is `SetStop::Memory`.
impl From<AllocError> for SetStop {
    ghost use Rattle.unicodeset_parser.specs.declared.stop.SetStop.TheVariants.{Memory};

    ghost from_gives = { λ _ e. e ≡ Memory };

    fn from(_e: AllocError) -> SetStop {
        SetStop::Memory
    }
}

/// Running out of memory in a call that hands back what it could not put is `SetStop::Memory`. What it hands back is dropped.
impl<T: Drop> From<AllocFailed<T>> for SetStop {
    ghost use Rattle.unicodeset_parser.specs.declared.stop.SetStop.TheVariants.{Memory};

    ghost from_gives = { λ _ e. e ≡ Memory };

    fn from(_e: AllocFailed<T>) -> SetStop {
        SetStop::Memory
    }
}
