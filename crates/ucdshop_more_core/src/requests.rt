//! What editors ask for at a desk, by a file of events.

ghost use Rattle.std.specs.Prelude.{◌≡◌, ◌+◌, ◌<◌, ◌≤◌, ◌^◌, None, IfOk, length, ⊤};
ghost use Rattle.std.specs.List.{All};
ghost use Rattle.std.specs.Option.{MatchOption};
ghost use Rattle.ucd_points.specs.Limits.{file_limit};
ghost use Rattle.script_lines.specs.Groups.{IsWellFormed};
ghost use Rattle.run_inputs.specs.Verdict.{and_then};
ghost use Rattle.script_pieces.specs.Scripts.{piece_script};
ghost use Rattle.script_pieces.specs.Views.{mark_of as seen_mark, piece_of};
ghost use Rattle.ucdshop_more_core.specs.Marks.{mark_of};
ghost use Rattle.ucdshop_more_core.specs.Sessions.{AreFew, AreWellFormed};
ghost use Rattle.ucdshop_more_core.specs.Turns.{MarkedAs, PutAs, TurnAs, TurnsAs, before_marks, behind_mark, piece_turn, request_turns, turns_or_fault};

use crate::desk_mark::{DeskMark, fits, mark_of};
use script_lines::{Commands, groups_are_well_formed};
use script_pieces::{
    Mark, Piece, PieceRule, PieceStop, misfit_line, piece_commands, piece_line_numbers_fit,
    pieces_are_few, pieces_of,
};
use std::alloc::Global;
use ucd_model::ListOf;

/// What an editor asks for: a mark, and the commands behind it.
#[derive(Drop)]
pub struct Request {
    /// The number of the mark's line, counted from 1.
    pub line: u32,
    /// The mark.
    pub mark: DeskMark,
    /// The commands behind it: a group if it is that of a proposal, else none.
    pub commands: Commands,
}

/// Requests, in the order of their marks.
pub type Requests = ListOf<Request>;

/// The requests of a file of events, in order.
///
/// - `Fault { line, rule }`: the first fault of the first piece that has one.
/// - `Memory`: memory ran out.
#[tactic(auto, unfolding(crate::specs::Turns::turns_or_fault, ucd_points::specs::Limits::file_limit))]
pub fn read_requests(alloc: Global, bytes: &[u8]) -> Result<Requests, PieceStop>
    requires { length bytes.now ≤ file_limit }
    ensures turns { TurnsAs result (turns_or_fault bytes.now) }
    ensures ready { IfOk result AreWellFormed }
    ensures few { IfOk result AreFew }
{
    piece_line_numbers_fit();
    pieces_are_few();
    let mut requests = Requests::new(alloc);
    'pieces: for piece in pieces_of(bytes) {
        put_request(alloc, piece, &mut requests)?;
    }
    Ok(requests)
}

/// Puts the request of a piece, if it has one, behind those of the pieces before it.
///
/// - `Fault { line, rule }`: the first fault of the piece.
/// - `Memory`: memory ran out.
fn put_request(alloc: Global, piece: Piece<'_>, requests: &mut Requests) -> Result<(), PieceStop>
    requires { piece.first_line + length piece.body.now < 2 ^ 32 }
    ensures turn { PutAs result (request_turns requests.old) (request_turns requests.new)
        (piece_turn (piece_of piece.entry)) }
    ensures ready { AreWellFormed requests.old → AreWellFormed requests.new }
    ensures few { length requests.new ≤ length requests.old + 1 }
{
    match piece_request(alloc, piece)? {
        Some(request) => Ok(requests.push(request)?),
        None => Ok(()),
    }
}

/// The request of a piece; `None` for what stands before the first mark.
///
/// - `Fault { line, rule }`: `E7`, if the mark is none of a desk; else the first fault of the script behind it; else `E7`, if the
///   script does not fit the mark.
/// - `Memory`: memory ran out.
fn piece_request(alloc: Global, piece: Piece<'_>) -> Result<Option<Request>, PieceStop>
    requires { piece.first_line + length piece.body.now < 2 ^ 32 }
    ensures turn { TurnAs result (piece_turn (piece_of piece.entry)) }
    ensures ready { IfOk result (λ found. MatchOption found ⊤
        (λ request. All IsWellFormed request.commands)) }
{
    match piece.mark {
        Some(mark) => {
            let request = marked_request(alloc, mark, piece)?;
            Ok(Some(request))
        }
        None => refuse_commands_before_mark(alloc, piece),
    }
}

/// The request of a piece behind this mark.
fn marked_request(alloc: Global, mark: Mark<'_>, piece: Piece<'_>) -> Result<Request, PieceStop>
    requires { piece.first_line + length piece.body.now < 2 ^ 32 }
    ensures turn { MarkedAs result
        (behind_mark (seen_mark mark.entry) (mark_of mark.entry.content.now)
        (piece_script (piece_of piece.entry))) }
    ensures ready { IfOk result (λ request. All IsWellFormed request.commands) }
{
    groups_are_well_formed();
    let fault = PieceStop::Fault {
        line: mark.line,
        rule: PieceRule::E7,
    };
    let Some(is) = mark_of(mark.content) else {
        return Err(fault);
    };
    let commands = piece_commands(alloc, piece)?;
    if fits(is, commands.as_slice()) {
        Ok(Request {
            line: mark.line,
            mark: is,
            commands,
        })
    } else {
        Err(fault)
    }
}

/// Sees that no command stands before the first mark.
fn refuse_commands_before_mark(
    alloc: Global,
    piece: Piece<'_>,
) -> Result<Option<Request>, PieceStop>
    requires { piece.first_line + length piece.body.now < 2 ^ 32 }
    ensures turn { TurnAs result (and_then (piece_script (piece_of piece.entry))
        (before_marks (piece_of piece.entry))) }
    ensures none { IfOk result (λ found. found ≡ None) }
{
    let commands = piece_commands(alloc, piece)?;
    if commands.len() == 0 {
        return Ok(None);
    }
    Err(PieceStop::Fault {
        line: misfit_line(piece, commands.as_slice()),
        rule: PieceRule::E7,
    })
}
