//! Why a UnicodeSet has no answer.

ghost use Rattle.std.specs.Prelude.{◌≡◌};

use std::alloc::{AllocError, AllocFailed};
use thiserror::Error;
use ucd_model::Memory;

/// The rule that a name breaks. UTS #35, "Unicode Sets".
#[derive(Clone, Copy, Debug, PartialEq, Eq, Drop, Error)]
pub enum NameRule {
    /// No property has the name, or the name that stands alone means nothing.
    #[error("the property is not known")]
    S8,
    /// The property has no such value.
    #[error("the value is not known")]
    S9,
}

/// Why there are no spans.
#[derive(Clone, Copy, Debug, PartialEq, Eq, Drop, Error)]
pub enum EvalStop {
    /// The first name without meaning, and where its property begins in the text, in bytes counted from 0.
    #[error("byte {at}: {rule}")]
    Fault { rule: NameRule, at: usize },
    /// Memory ran out.
    #[error("out of memory")]
    Memory,
}

/// Running out of memory is `EvalStop::Memory`.
impl From<Memory> for EvalStop {
    ghost use Rattle.unicodeset_eval.specs.declared.stop.EvalStop.TheVariants.{Memory};

    ghost from_gives = { λ _ e. e ≡ Memory };

    fn from(_e: Memory) -> EvalStop {
        EvalStop::Memory
    }
}

/// Running out of memory, as an allocator answers it, is `EvalStop::Memory`.
impl From<AllocError> for EvalStop {
    ghost use Rattle.unicodeset_eval.specs.declared.stop.EvalStop.TheVariants.{Memory};

    ghost from_gives = { λ _ e. e ≡ Memory };

    fn from(_e: AllocError) -> EvalStop {
        EvalStop::Memory
    }
}

/// Running out of memory in a call that hands back what it could not put is `EvalStop::Memory`. What it hands back is dropped.
impl<T: Drop> From<AllocFailed<T>> for EvalStop {
    ghost use Rattle.unicodeset_eval.specs.declared.stop.EvalStop.TheVariants.{Memory};

    ghost from_gives = { λ _ e. e ≡ Memory };

    fn from(_e: AllocFailed<T>) -> EvalStop {
        EvalStop::Memory
    }
}
