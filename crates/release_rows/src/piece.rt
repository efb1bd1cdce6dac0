//! Cuts a file into pieces: a line each, or the two lines of a range.

ghost use Rattle.std.specs.Prelude.{◌≡◌, ◌+◌, ◌<◌, ◌≤◌, ◌^◌, ◌∷◌, ◌++◌, [], length};
ghost use Rattle.std.specs.Option.{MatchOption};
ghost use Rattle.ucd_points.specs.Lines.{ending_bytes, joined};
ghost use Rattle.ucd_lines.specs.Items.{ending_of};
ghost use Rattle.release_rows.specs.Briefs.{no_brief};
ghost use Rattle.release_rows.specs.Pieces.{pieces, opens_range, piece_bytes, piece_content, piece_ending, piece_lines};
ghost use Rattle.release_rows.specs.StoredItems.{content_at, piece_of};

use crate::brief::Brief;
use crate::stored_item::{StoredItem, content_in};
use source_rows::begins_range;
use ucd_facts::SourceFile;
use ucd_lines::{Ending, Item, Items, is_trivia};

/// A line, or a line that opens a range and the one behind it. UAX #44, section 4.2.3.
#[derive(Clone, Copy)]
pub struct RowLines<'a> {
    /// The line, or the one that opens the range.
    pub first: Item<'a>,
    /// The line behind one that opens a range; `None` for other lines, and at the end of the file.
    pub last: Option<Item<'a>>,
}

/// Whether a line opens a range. Most lines begin none, and are not asked for more.
fn opens_range(file: SourceFile, content: &[u8]) -> bool
    ensures { result ≡ opens_range file content.now }
{
    match file {
        SourceFile::UnicodeData => begins_range(content) && !is_trivia(file, content),
        _ => false,
    }
}

/// Takes the first piece off the lines; `None` if there are no lines. UAX #44, section 4.2.3.
pub fn next_piece<'a>(file: SourceFile, lines: &mut Items<'a>) -> Option<RowLines<'a>>
    ensures piece { MatchOption result (pieces file lines.old ≡ [])
        (λ p. pieces file lines.old ≡ piece_of p ∷ pieces file lines.new) }
    ensures bytes { MatchOption result (joined lines.old ≡ [])
        (λ p. joined lines.old ≡ piece_bytes (piece_of p) ++ joined lines.new) }
    ensures lines { MatchOption result (lines.old ≡ [])
        (λ p. length lines.old ≡ piece_lines (piece_of p) + length lines.new) }
{
    let first = lines.next()?;
    if opens_range(file, first.content) {
        let last = lines.next();
        return Some(RowLines { first, last });
    }
    Some(RowLines { first, last: None })
}

/// How many bytes an ending has.
pub fn ending_len(ending: Ending) -> u32
    ensures { result ≡ length (ending_bytes (ending_of ending)) }
{
    match ending {
        Ending::None => 0,
        Ending::Lf => 1,
        Ending::CrLf => 2,
    }
}

/// How many bytes stand before the ending.
fn content_len(piece: RowLines<'_>) -> usize
    requires { length (piece_content (piece_of piece)) < 2 ^ 32 }
    ensures { result ≡ length (piece_content (piece_of piece.entry)) }
{
    match piece.last {
        None => piece.first.content.len(),
        Some(last) => {
            let first = piece.first.content.len() + ending_len(piece.first.ending) as usize;
            first + last.content.len()
        }
    }
}

/// The content, which an item says where to find in the text. That of one line is at hand.
pub fn content_of<'a>(text: &'a [u8], stored: StoredItem, piece: RowLines<'a>) -> &'a [u8]
    requires { content_at text.now stored ≡ piece_content (piece_of piece) }
    ensures { result.now ≡ piece_content (piece_of piece.entry) }
{
    match piece.last {
        None => piece.first.content,
        Some(_) => content_in(text, stored),
    }
}

/// What ends the last line.
fn ending_of(piece: RowLines<'_>) -> Ending
    ensures { ending_of result ≡ piece_ending (piece_of piece.entry) }
{
    match piece.last {
        None => piece.first.ending,
        Some(last) => last.ending,
    }
}

/// How many lines there are: 1 or 2.
fn lines_of(piece: RowLines<'_>) -> u8
    ensures count { result ≡ piece_lines (piece_of piece.entry) }
    ensures some { 1 ≤ result }
    ensures few { result ≤ 2 }
{
    match piece.last {
        None => 1,
        Some(_) => 2,
    }
}

/// Where a piece stands whose first byte has this place. Nothing is kept of its row yet.
pub fn stored_item_of(start: u32, piece: RowLines<'_>) -> StoredItem
    requires { length (piece_content (piece_of piece)) < 2 ^ 32 }
    ensures start { result.start ≡ start }
    ensures len { result.len ≡ length (piece_content (piece_of piece.entry)) }
    ensures ending { ending_of result.ending ≡ piece_ending (piece_of piece.entry) }
    ensures lines { result.lines ≡ piece_lines (piece_of piece.entry) }
    ensures some { 1 ≤ result.lines }
    ensures few { result.lines ≤ 2 }
    ensures brief { result.brief ≡ no_brief }
{
    StoredItem {
        start,
        len: content_len(piece) as u32,
        ending: ending_of(piece),
        lines: lines_of(piece),
        brief: Brief::none(),
    }
}
