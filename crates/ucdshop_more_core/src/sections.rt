//! What a script asks of a history, section by section.

ghost use Rattle.std.specs.Prelude.{◌≡◌, ◌+◌, ◌<◌, ◌≤◌, ◌^◌, IfOk, length};
ghost use Rattle.std.specs.List.{All};
ghost use Rattle.ucd_points.specs.Limits.{file_limit};
ghost use Rattle.script_lines.specs.Groups.{IsWellFormed};
ghost use Rattle.script_pieces.specs.Scripts.{piece_script};
ghost use Rattle.script_pieces.specs.Views.{piece_of};
ghost use Rattle.script_pieces.specs.declared.stop.PieceRule.TheVariants.{E7};
ghost use Rattle.script_pieces.specs.declared.stop.PieceStop.TheVariants.{Fault};
ghost use Rattle.ucdshop_more_core.specs.Drafts.{AreWellFormed};
ghost use Rattle.ucdshop_more_core.specs.Moves.{PutAs, SectionAs, SectionsAs, all_moves, are_groups, is_undo, mark_line, moves_by, moves_or_fault, piece_moves};

use crate::groups::is_group;
use script_lines::{Command, Commands, groups_are_well_formed};
use script_pieces::{
    Piece, PieceRule, PieceStop, misfit_line, piece_commands, piece_line_numbers_fit, pieces_of,
};
use std::alloc::Global;
use ucd_model::ListOf;

/// A section of a script: the groups behind a mark, or before the first.
#[derive(Drop)]
pub struct Section {
    /// The number of the mark's line, counted from 1: the latest group is taken back there. `None` before the first mark.
    pub undo: Option<u32>,
    /// The groups.
    pub commands: Commands,
}

/// Sections, in the order in which they stand.
pub type Sections = ListOf<Section>;

/// The sections of a script, in order.
///
/// - `Fault { line, rule }`: the first fault of the first piece that has one.
/// - `Memory`: memory ran out.
#[tactic(auto, unfolding(crate::specs::Moves::moves_or_fault, ucd_points::specs::Limits::file_limit))]
pub fn read_sections(alloc: Global, bytes: &[u8]) -> Result<Sections, PieceStop>
    requires { length bytes.now ≤ file_limit }
    ensures moves { SectionsAs result (moves_or_fault bytes.now) }
    ensures ready { IfOk result AreWellFormed }
{
    piece_line_numbers_fit();
    let mut sections = Sections::new(alloc);
    'pieces: for piece in pieces_of(bytes) {
        put_section(alloc, piece, &mut sections)?;
    }
    Ok(sections)
}

/// Puts the section of a piece behind those of the pieces before it.
///
/// - `Fault { line, rule }`: the first fault of the piece.
/// - `Memory`: memory ran out.
fn put_section(alloc: Global, piece: Piece<'_>, sections: &mut Sections) -> Result<(), PieceStop>
    requires { piece.first_line + length piece.body.now < 2 ^ 32 }
    ensures moves { PutAs result (all_moves sections.old) (all_moves sections.new)
        (piece_moves (piece_of piece.entry)) }
    ensures ready { AreWellFormed sections.old → AreWellFormed sections.new }
{
    let section = piece_section(alloc, piece)?;
    Ok(sections.push(section)?)
}

/// The section of a piece.
///
/// - `Fault { line, rule }`: `E7`, if the mark is not `@ undo`; else the first fault of the script behind it; else `E7`, if there is
///   a question in it.
/// - `Memory`: memory ran out.
fn piece_section(alloc: Global, piece: Piece<'_>) -> Result<Section, PieceStop>
    requires { piece.first_line + length piece.body.now < 2 ^ 32 }
    ensures moves { SectionAs result (piece_moves (piece_of piece.entry)) }
    ensures ready { IfOk result (λ section. All IsWellFormed section.commands) }
{
    let Some(mark) = piece.mark else {
        return section_by(alloc, piece, None);
    };
    if !is_undo(mark.content) {
        return Err(fault_at(mark.line));
    }
    section_by(alloc, piece, Some(mark.line))
}

/// The section of a piece by its script, behind a mark on this line.
///
/// - `Fault { line, rule }`: the first fault of the script; else `E7`, if there is a question in it.
/// - `Memory`: memory ran out.
fn section_by(alloc: Global, piece: Piece<'_>, undo: Option<u32>) -> Result<Section, PieceStop>
    requires room { piece.first_line + length piece.body.now < 2 ^ 32 }
    requires mark { undo ≡ mark_line (piece_of piece) }
    ensures moves { SectionAs result
        (moves_by (piece_of piece.entry) (piece_script (piece_of piece.entry))) }
    ensures ready { IfOk result (λ section. All IsWellFormed section.commands) }
{
    groups_are_well_formed();
    let commands = piece_commands(alloc, piece)?;
    if are_groups(commands.as_slice()) {
        Ok(Section { undo, commands })
    } else {
        Err(fault_at(misfit_line(piece, commands.as_slice())))
    }
}

/// The fault `E7` on this line.
fn fault_at(line: u32) -> PieceStop
    ensures { result ≡ Fault line E7 }
{
    PieceStop::Fault {
        line,
        rule: PieceRule::E7,
    }
}

/// Whether a mark is that of an undo.
fn is_undo(content: &[u8]) -> bool
    ensures { result ≡ is_undo content.now }
{
    content == b"@ undo".as_slice()
}

/// Whether each command is a group.
fn are_groups(commands: &[Command]) -> bool
    ensures { result ≡ are_groups commands.now }
{
    commands.iter().all(|command| is_group(command))
}
