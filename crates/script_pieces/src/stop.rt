//! Why a piece of a file has no commands.

ghost use Rattle.std.specs.Prelude.{◌≡◌};

use script_lines::ScriptRule;
use ucd_points::Memory;

/// The rule that a piece breaks.
#[derive(Clone, Copy, Debug, PartialEq, Eq)]
pub enum PieceRule {
    /// The mark has no listed form, or the piece does not fit its mark. Which marks there are, a program says.
    E7,
    /// The script of the piece breaks this rule.
    Script(ScriptRule),
}

/// Why there are no commands.
#[derive(Clone, Copy, Debug, PartialEq, Eq)]
pub enum PieceStop {
    /// The line that breaks a rule, counted from 1 in the file, and the rule.
    Fault { line: u32, rule: PieceRule },
    /// Memory ran out.
    Memory,
}

/// Running out of memory is `PieceStop::Memory`.
impl From<Memory> for PieceStop {
    ghost use Rattle.script_pieces.specs.declared.stop.PieceStop.TheVariants.{Memory};

    ghost from_gives = { λ _ e. e ≡ Memory };

    fn from(_e: Memory) -> PieceStop {
        PieceStop::Memory
    }
}
