//! White space. UAX #31, section 4, "Pattern_White_Space".

ghost use Rattle.std.specs.Prelude.{◌≡◌, ◌≤◌, length};
ghost use Rattle.unicodeset_parser.specs.Blanks.{is_white, blank_size, closes};

use crate::bytes::{begins_with, bytes_behind, first_char};

/// Whether a character is white space.
#[inline]
#[tactic(auto, unfolding(crate::specs::Blanks::is_white))]
fn is_white(character: char) -> bool
    ensures { result ≡ is_white character }
{
    matches!(
        character,
        '\u{9}'..='\u{d}' | ' ' | '\u{85}' | '\u{200e}' | '\u{200f}' | '\u{2028}' | '\u{2029}'
    )
}

/// How many bytes the first character takes if it is white space, else 0.
#[inline]
#[tactic(auto, unfolding(crate::specs::Blanks::blank_size))]
pub(crate) fn first_blank_size(text: &[u8]) -> usize
    ensures size { result ≡ blank_size text.now }
    ensures within { result ≤ length text.now }
{
    let (first, size) = first_char(text);
    match first {
        Some(character) => { if is_white(character) { size } else { 0 } }
        None => 0,
    }
}

/// Whether a `]` follows after white space.
pub(crate) fn begins_with_closing_bracket(text: &[u8]) -> bool
    ensures { result ≡ closes 0 text.now }
{
    let mut rest = text;
    let mut blanks = first_blank_size(rest);
    'blanks: while blanks > 0 {
        rest = bytes_behind(rest, blanks);
        blanks = first_blank_size(rest);
    }
    begins_with(rest, b']')
}
