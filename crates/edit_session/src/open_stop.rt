//! Why a bench is not opened.

ghost use Rattle.std.specs.Prelude.{◌≡◌};

use ucd_model::{Bad, Memory, Point};

/// Why a bench is not opened.
#[derive(Clone, Copy, Debug, PartialEq, Eq)]
pub enum OpenStop {
    /// A code point breaks a rule of a valid release.
    Invalid {
        /// The first rule that it breaks, in the order of `Bad`.
        rule: Bad,
        /// The least code point that breaks a rule.
        point: Point,
    },
    /// Memory ran out.
    Memory,
}

/// Running out of memory is `OpenStop::Memory`.
impl From<Memory> for OpenStop {
    ghost use Rattle.edit_session.specs.declared.open_stop.OpenStop.TheVariants.{Memory};

    ghost from_gives = { λ _ e. e ≡ Memory };

    fn from(_e: Memory) -> OpenStop {
        OpenStop::Memory
    }
}
