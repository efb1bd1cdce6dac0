//! Cuts a file of scripts before each mark.

ghost use Rattle.std.specs.Prelude.{◌≡◌, ℕ, ◌+◌, ◌<◌, ◌≤◌, ◌∷◌, ◌++◌, [], ◌^◌, Option, None, length, ⊤};
ghost use Rattle.std.specs.Option.{MatchOption};
ghost use Rattle.ucd_points.specs.Limits.{file_limit};
ghost use Rattle.ucd_points.specs.Lines.{item_bytes, items_of};
ghost use Rattle.ucd_lines.specs.Items.{item_of};
ghost use Rattle.script_pieces.specs.Pieces.{Mark as MarkValue, is_mark, pieces, pieces_from};
ghost use Rattle.script_pieces.specs.Views.{FitsIn, left};

use crate::piece::{Mark, Piece};
use std::marker::Model;
use ucd_lines::{
    Ending, Item, empty_text_has_no_line, endings_are_told_apart, items, lines_are_unique,
    no_line_feed_inside, only_the_last_is_unended,
};

/// A mark, or the begin of the file, and the text behind it.
#[derive(Clone, Copy, Debug)]
pub struct Head<'a> {
    /// The mark; `None` at the begin of the file.
    pub mark: Option<Mark<'a>>,
    /// The number of the line behind it.
    pub first_line: u32,
    /// The text from that line on.
    pub rest: &'a [u8],
}

/// The pieces of a file that are left, in order: what [`pieces_of`] gives. Contracts see their list.
#[derive(Debug, Drop)]
pub struct Pieces<'a> {
    /// The head of the next piece.
    head: Option<Head<'a>>,
}

impl<'a> Model for Pieces<'a> {
    ghost use Rattle.std.specs.Prelude.{List, ◌^◌};
    ghost use Rattle.script_pieces.specs.Pieces.{Piece};
    ghost use Rattle.script_pieces.specs.Views.{FitsIn, left};

    ghost Value = { List Piece };

    ghost view = { λ s. left s.head };

    ghost invariant = { λ s. FitsIn (2 ^ 32) s.head };
}

impl<'a> Iterator for Pieces<'a> {
    ghost use Rattle.std.specs.Iterator.{YieldsFirstBy, item_count};
    ghost use Rattle.script_pieces.specs.Views.{piece_of};

    type Item = Piece<'a>;

    ghost next_gives = { YieldsFirstBy piece_of (λ rest. rest) };

    ghost remaining = { item_count (λ rest. rest) };

    fn next(&mut self) -> Option<Piece<'a>> {
        let Some(head) = self.head else {
            return None;
        };
        let (body, behind) = first_piece(head.rest, head.first_line);
        self.head = behind;
        Some(Piece {
            mark: head.mark,
            first_line: head.first_line,
            body,
        })
    }
}

/// The pieces of a file, in order and without a copy: what stands before the first mark, which may have no bytes, and a piece
/// for each mark. A mark is a line that begins with `@`.
#[tactic(auto, unfolding(ucd_points::specs::Limits::file_limit))]
pub fn pieces_of(bytes: &[u8]) -> Pieces<'_>
    requires { length bytes.now ≤ file_limit }
    ensures { result ≡ pieces bytes.now }
{
    Pieces {
        head: Some(Head {
            mark: None,
            first_line: 1,
            rest: bytes,
        }),
    }
}

/// The bytes of a text before its first mark, and that mark with the text behind it. The first line has this number.
fn first_piece(text: &[u8], first_line: u32) -> (&[u8], Option<Head<'_>>)
    requires { first_line + length text.now < 2 ^ 32 }
    ensures pieces { (mark : Option MarkValue)
        → pieces_from mark first_line (items_of text.now)
        ≡ record { mark = mark; first_line = first_line; body = result.0.now } ∷ left result.1 }
    ensures fits { FitsIn (first_line + length text.now + 1) result.1 }
{
    empty_text_has_no_line();
    let mut rest = text;
    let mut line = first_line;
    'lines: while let Some((item, behind)) = next_line(rest) {
        if is_mark(item) {
            let head = Head {
                mark: Some(Mark {
                    line,
                    content: item.content,
                }),
                first_line: line + 1,
                rest: behind,
            };
            return (&text[..text.len() - rest.len()], Some(head));
        }
        rest = behind;
        line += 1;
    }
    (text, None)
}

/// The first line of a text, and the text behind it; `None` for no bytes.
fn next_line(text: &[u8]) -> Option<(Item<'_>, &[u8])>
    ensures lines { MatchOption result (text.now ≡ [])
        (λ found. items_of text.now ≡ item_of found.0 ∷ items_of found.1.now) }
    ensures bytes { MatchOption result ⊤
        (λ found. text.now ≡ item_bytes (item_of found.0) ++ found.1.now) }
    ensures some { MatchOption result ⊤ (λ found. length found.1.now < length text.now) }
{
    lines_are_unique();
    no_line_feed_inside();
    only_the_last_is_unended();
    endings_are_told_apart();
    let mut lines = items(text);
    let item = lines.next()?;
    Some((item, &text[item_len(item)..]))
}

/// How many bytes a line has, with what ends it.
fn item_len(item: Item<'_>) -> usize
    ensures { result ≡ length (item_bytes (item_of item.entry)) }
{
    item.content.len()
        + match item.ending {
            Ending::None => 0,
            Ending::Lf => 1,
            Ending::CrLf => 2,
        }
}

/// Whether a line is a mark.
fn is_mark(item: Item<'_>) -> bool
    ensures { result ≡ is_mark (item_of item.entry) }
{
    item.content.first() == Some(&b'@')
}
