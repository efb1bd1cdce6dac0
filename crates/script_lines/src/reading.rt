//! Reads the commands of a script.

ghost use Rattle.std.specs.Prelude.{◌≡◌, ◌+◌, ◌<◌, ◌≤◌, ◌^◌, length};
ghost use Rattle.ucd_points.specs.Limits.{file_limit};
ghost use Rattle.script_lines.specs.Pieces.{piece_of};
ghost use Rattle.script_lines.specs.Scripts.{CommandsAs, StepsAs, closed_by, piece_lines, script_from, script_or_fault, step};

use crate::command::Commands;
use crate::line::{Line, line_of};
use crate::operation::{row_op, withdraw_op};
use crate::piece::{Piece, next_piece};
use crate::script::Script;
use crate::stop::{ScriptRule, ScriptStop};
use std::alloc::Global;
use ucd_lines::items;

/// How many lines a piece has.
fn piece_lines(piece: Piece<'_>) -> u32
    ensures { result ≡ piece_lines (piece_of piece.entry) }
{
    match piece.next {
        Some(_) => 2,
        None => 1,
    }
}

/// Puts what a piece says into the script. The piece's line has this number.
fn take_piece(
    alloc: Global,
    script: &mut Script,
    line: u32,
    piece: Piece<'_>,
) -> Result<(), ScriptStop>
    requires { line + 1 < 2 ^ 32 }
    ensures { StepsAs result script.new (step line script.old (piece_of piece.entry)) }
{
    match line_of(piece.line) {
        Line::Skipped => Ok(()),
        Line::Begin => script.begin(alloc, line),
        Line::End => script.end(line),
        Line::Set(text) => script.ask(alloc, line, text),
        Line::Other => Err(ScriptStop::Fault {
            line,
            rule: ScriptRule::E1,
        }),
        _ if script.is_group_full() => Err(ScriptStop::Fault {
            line,
            rule: ScriptRule::E5,
        }),
        Line::Row(put, file, text) => {
            let op = row_op(alloc, line, put, file, text, piece.next)?;
            Ok(script.put(alloc, line, op)?)
        }
        Line::Withdraw(file, text) => {
            let op = withdraw_op(alloc, line, file, text)?;
            Ok(script.put(alloc, line, op)?)
        }
    }
}

/// The commands of a script whose lines are all read.
fn closed_script(script: Script) -> Result<Commands, ScriptStop>
    ensures { CommandsAs result (closed_by script.commands script.group) }
{
    let Script { commands, group } = script;
    match group {
        Some(group) => Err(ScriptStop::Fault {
            line: group.line,
            rule: ScriptRule::E2,
        }),
        None => Ok(commands),
    }
}

/// The commands of an edit script, in order.
///
/// Lines end by LF or CR LF. Blank lines are skipped, and so are lines whose first byte other than space and tab is
/// `#`. The others are `add FILE LINE`, `change FILE LINE`, `withdraw FILE KEY`, `begin`, `end`, `set TEXT`, and `last
/// LINE` behind an `add` or `change` of the first line of a range, whose second line it holds. FILE is the path of a
/// source file below the folder of a release. Operations between `begin` and `end` are one group, any other is a group
/// of its own. TEXT is the question of a UnicodeSet; whether it is the text of one is not looked at.
///
/// - `Fault { line, rule }`: the first line that breaks a rule, and the first rule that it breaks: `E1`, `E3`, `E4`,
///   `E5`, `E6`; if no line breaks one, `E2` with the line of the group that is open at the end.
/// - `Memory`: memory ran out.
#[tactic(auto, unfolding(ucd_points::specs::Limits::file_limit))]
pub fn commands(alloc: Global, bytes: &[u8]) -> Result<Commands, ScriptStop>
    requires { length bytes.now ≤ file_limit }
    ensures { CommandsAs result (script_or_fault bytes.now) }
{
    commands_from(alloc, 1, bytes)
}

/// [`commands`] of a script whose first line has this number, as a script has that begins within a file.
#[tactic(auto, unfolding(crate::specs::Scripts::script_from))]
pub fn commands_from(alloc: Global, first_line: u32, bytes: &[u8]) -> Result<Commands, ScriptStop>
    requires { first_line + length bytes.now < 2 ^ 32 }
    ensures { CommandsAs result (script_from first_line bytes.now) }
{
    let mut lines = items(bytes);
    let mut script = Script::new(alloc);
    let mut line = first_line;
    'pieces: while let Some(piece) = next_piece(&mut lines) {
        take_piece(alloc, &mut script, line, piece)?;
        line += piece_lines(piece);
    }
    closed_script(script)
}
