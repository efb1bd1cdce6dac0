//! Why code points are not derived again.

ghost use Rattle.std.specs.Prelude.{◌≡◌};

use std::alloc::AllocFailed;
use ucd_model::{Bad, Memory, Point};

/// Why code points are not derived again.
#[derive(Clone, Copy, Debug, PartialEq, Eq)]
pub enum AgainStop {
    /// A code point breaks a rule of a valid release.
    Broken {
        /// The first rule that it breaks, in the order of `Bad`.
        rule: Bad,
        /// The first of the code points that breaks a rule.
        point: Point,
    },
    /// Memory ran out.
    Memory,
}

/// Running out of memory is `AgainStop::Memory`.
impl From<Memory> for AgainStop {
    ghost use Rattle.record_turns.specs.declared.again_stop.AgainStop.TheVariants.{Memory};

    ghost from_gives = { λ _ e. e ≡ Memory };

    fn from(_e: Memory) -> AgainStop {
        AgainStop::Memory
    }
}

/// Running out of memory in a call that hands back what it could not put is `AgainStop::Memory`. What it hands back is dropped.
impl<T: Drop> From<AllocFailed<T>> for AgainStop {
    ghost use Rattle.record_turns.specs.declared.again_stop.AgainStop.TheVariants.{Memory};

    ghost from_gives = { λ _ e. e ≡ Memory };

    fn from(_e: AllocFailed<T>) -> AgainStop {
        AgainStop::Memory
    }
}
