//! The script of a piece.

ghost use Rattle.std.specs.Prelude.{◌≡◌, ◌+◌, ◌<◌, ◌^◌, length};
ghost use Rattle.script_pieces.specs.Scripts.{PieceCommandsAs, misfit_line, piece_script};
ghost use Rattle.script_pieces.specs.Views.{piece_of};

use crate::piece::Piece;
use crate::stop::{PieceRule, PieceStop};
use script_lines::{Command, Commands, ScriptStop, commands_from};
use std::alloc::Global;

/// The commands of a piece, in order. Their lines are counted in the file.
///
/// - `Fault { line, rule }`: the first line that breaks a rule of a script, and the first rule that it breaks.
/// - `Memory`: memory ran out.
pub fn piece_commands(alloc: Global, piece: Piece<'_>) -> Result<Commands, PieceStop>
    requires { piece.first_line + length piece.body.now < 2 ^ 32 }
    ensures { PieceCommandsAs result (piece_script (piece_of piece.entry)) }
{
    match commands_from(alloc, piece.first_line, piece.body) {
        Ok(commands) => Ok(commands),
        Err(ScriptStop::Fault { line, rule }) => Err(PieceStop::Fault {
            line,
            rule: PieceRule::Script(rule),
        }),
        Err(ScriptStop::Memory) => Err(PieceStop::Memory),
    }
}

/// The line that is named if a piece with these commands does not fit its mark: the mark's, or that of its first command if it
/// stands after no mark.
pub fn misfit_line(piece: Piece<'_>, commands: &[Command]) -> u32
    ensures { result ≡ misfit_line (piece_of piece.entry) commands.now }
{
    match (piece.mark, commands) {
        (Some(mark), _) => mark.line,
        (None, [first, ..]) => first.line,
        (None, []) => piece.first_line,
    }
}
