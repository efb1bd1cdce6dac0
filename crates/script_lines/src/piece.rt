//! Cuts a script into pieces: a line each, or the two lines of a range.

ghost use Rattle.std.specs.Prelude.{◌≡◌, ◌+◌, ◌∷◌, [], length};
ghost use Rattle.std.specs.Option.{MatchOption};
ghost use Rattle.script_lines.specs.Lines.{said_by};
ghost use Rattle.script_lines.specs.Pieces.{piece_of};
ghost use Rattle.script_lines.specs.Scripts.{opens_range, piece_lines, script_pieces};

use crate::line::{Line, line_of};
use source_rows::begins_range;
use ucd_facts::SourceFile;
use ucd_lines::Items;

/// A line, and the one behind it if the first begins a range.
#[derive(Clone, Copy)]
pub struct Piece<'a> {
    /// The content of the line.
    pub line: &'a [u8],
    /// The content of the next line, if the first one begins a range and is not the last of the script.
    pub next: Option<&'a [u8]>,
}

/// Whether a line puts a row of UnicodeData.txt, and holds the first line of a range. UAX #44, section 4.2.3.
fn opens_range(line: Line<'_>) -> bool
    ensures { result ≡ opens_range (said_by line.entry) }
{
    match line {
        Line::Row(_, SourceFile::UnicodeData, text) => begins_range(text),
        _ => false,
    }
}

/// Takes the first piece off the lines; `None` if there are no lines.
pub fn next_piece<'a>(lines: &mut Items<'a>) -> Option<Piece<'a>>
    ensures piece { MatchOption result (script_pieces lines.old ≡ [])
        (λ p. script_pieces lines.old ≡ piece_of p ∷ script_pieces lines.new) }
    ensures lines { MatchOption result (lines.old ≡ [])
        (λ p. length lines.old ≡ piece_lines (piece_of p) + length lines.new) }
{
    let line = lines.next()?.content;
    if !opens_range(line_of(line)) {
        return Some(Piece { line, next: None });
    }
    match lines.next() {
        Some(next) => Some(Piece {
            line,
            next: Some(next.content),
        }),
        None => Some(Piece { line, next: None }),
    }
}
