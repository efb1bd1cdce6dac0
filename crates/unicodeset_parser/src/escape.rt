//! Escapes of characters.

ghost use Rattle.std.specs.Prelude.{◌≡◌, ◌<◌, ◌≤◌, IfSome};
ghost use Rattle.unicodeset_parser.specs.Escapes.{bad_escape, spelled, fixed_digits, braced_digits, any_digits, control_of, is_letter_or_digit, plain_escape};
ghost use Rattle.unicodeset_parser.specs.TokenViews.{lexeme_view};
ghost use Rattle.ucd_points.specs.Fields.{if_point};

use crate::bytes::{begins_with, bytes_behind};
use crate::token::{BadToken, Lexeme, Token};
use ucd_lines::{first_at, hex_number};
use ucd_points::Point;

/// An escape that gives no code point.
pub(crate) fn bad_escape() -> Lexeme
    ensures { lexeme_view result ≡ bad_escape }
{
    Lexeme {
        token: Token::Wrong(BadToken::BadEscape),
        size: 1,
    }
}

/// The letter of a number that digits write, with the size of its escape.
pub(crate) fn letter_of_escape(size: usize, number: Option<u32>) -> Lexeme
    ensures { lexeme_view result ≡ spelled size (if_point number) }
{
    let Some(number) = number else {
        return bad_escape();
    };
    match Point::new(number) {
        Some(point) => Lexeme {
            token: Token::Letter(point),
            size,
        },
        None => bad_escape(),
    }
}

/// The escape whose digits, so many of them, stand first in the text.
#[tactic(auto, unfolding(crate::specs::Escapes::fixed_digits))]
pub(crate) fn fixed_digits(count: usize, text: &[u8]) -> Lexeme
    requires { count ≤ 8 }
    ensures { lexeme_view result ≡ fixed_digits count text.now }
{
    if text.len() < count {
        return bad_escape();
    }
    letter_of_escape(2 + count, hex_number(&text[..count]))
}

/// The escape whose one to six digits a `}` ends.
#[tactic(auto, unfolding(crate::specs::Escapes::braced_digits))]
fn braced_digits(text: &[u8]) -> Lexeme
    ensures { lexeme_view result ≡ braced_digits text.now }
{
    let count = first_at(text, b'}');
    if count == text.len() || count == 0 || count > 6 {
        return bad_escape();
    }
    letter_of_escape(4 + count, hex_number(&text[..count]))
}

/// The escape with so many digits, or with one to six between braces.
pub(crate) fn fixed_or_braced_digits(count: usize, text: &[u8]) -> Lexeme
    requires { count ≤ 8 }
    ensures { lexeme_view result ≡ any_digits count text.now }
{
    if begins_with(text, b'{') {
        braced_digits(bytes_behind(text, 1))
    } else {
        fixed_digits(count, text)
    }
}

/// What a letter behind `\` stands for, if it is one of `abtnvfr`.
#[tactic(auto, unfolding(crate::specs::Escapes::control_of))]
fn control_of(character: char) -> Option<u32>
    ensures value { result ≡ control_of character }
    ensures small { IfSome result (λ c. c < 14) }
{
    match character {
        'a' => Some(0x7),
        'b' => Some(0x8),
        't' => Some(0x9),
        'n' => Some(0xa),
        'v' => Some(0xb),
        'f' => Some(0xc),
        'r' => Some(0xd),
        _ => None,
    }
}

/// Whether a character is an ASCII letter or digit.
#[tactic(auto, unfolding(crate::specs::Escapes::is_letter_or_digit))]
fn is_letter_or_digit(character: char) -> bool
    ensures { result ≡ is_letter_or_digit character }
{
    matches!(character, '0'..='9' | 'A'..='Z' | 'a'..='z')
}

/// The escape of a character, which takes so many bytes, that has no digits.
#[tactic(auto, unfolding(crate::specs::Escapes::plain_escape))]
pub(crate) fn plain_escape(character: char, size: usize) -> Lexeme
    requires { size < 8 }
    ensures { lexeme_view result ≡ plain_escape character size }
{
    if let Some(control) = control_of(character) {
        return letter_of_escape(2, Some(control));
    }
    if is_letter_or_digit(character) {
        return bad_escape();
    }
    letter_of_escape(1 + size, Some(u32::from(character)))
}
