//! Why a run stops before it writes.

ghost use Rattle.std.specs.Prelude.{◌≡◌};

use ucd_points::{Memory, Text};

/// Why a run stops before it writes anything, with the line that it then prints.
#[derive(Debug, Drop)]
pub enum Stop {
    /// What was read is refused.
    Refused(Text),
    /// A file could not be read.
    ReadFailed(Text),
    /// Memory ran out.
    Memory,
}

/// Running out of memory is `Stop::Memory`.
impl From<Memory> for Stop {
    ghost use Rattle.run_endings.specs.declared.stop.Stop.TheVariants.{Memory};

    ghost from_gives = { λ _ e. e ≡ Memory };

    fn from(_e: Memory) -> Stop {
        Stop::Memory
    }
}
