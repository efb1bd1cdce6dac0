//! Cuts a text into tokens.

ghost use Rattle.std.specs.Prelude.{◌≡◌, ◌<◌, ◌≤◌, length, IfOk};
ghost use Rattle.unicodeset_parser.specs.Lexing.{colon, opening, escape, hyphen, lexed};
ghost use Rattle.unicodeset_parser.specs.Tokens.{sized, letter};
ghost use Rattle.unicodeset_parser.specs.TokenViews.{sign_view, lexeme_view};

use crate::blank::begins_with_closing_bracket;
use crate::bytes::{begins_with, bytes_behind, first_char};
use crate::escape::{fixed_digits, fixed_or_braced_digits, letter_of_escape, plain_escape};
use crate::property::{braced_property, property_at};
use crate::token::{BadToken, Lexeme, Token};
use std::alloc::Global;
use ucd_points::Memory;

/// A token of one byte.
fn one_byte(token: Token) -> Lexeme
    ensures token { result.token ≡ token }
    ensures size { result.size ≡ 1 }
{
    Lexeme { token, size: 1 }
}

/// The property behind `[:`.
fn colon_property(alloc: Global, at: usize, text: &[u8]) -> Result<Lexeme, Memory>
    ensures { IfOk result (λ l. lexeme_view l ≡ colon at text.now) }
{
    if begins_with(text, b'^') {
        property_at(alloc, at, true, 3, b":]", bytes_behind(text, 1))
    } else {
        property_at(alloc, at, false, 2, b":]", text)
    }
}

/// The token that begins with `[`, from what stands behind it.
#[tactic(auto, unfolding(crate::specs::Lexing::opening))]
fn opening(alloc: Global, at: usize, text: &[u8]) -> Result<Lexeme, Memory>
    ensures { IfOk result (λ l. lexeme_view l ≡ opening at text.now) }
{
    if begins_with(text, b':') {
        return colon_property(alloc, at, bytes_behind(text, 1));
    }
    if begins_with(text, b'^') {
        return Ok(Lexeme {
            token: Token::Open(true),
            size: 2,
        });
    }
    Ok(one_byte(Token::Open(false)))
}

/// The token that begins with `\`, from what stands behind it.
#[tactic(auto, unfolding(crate::specs::Lexing::escape))]
fn escape(alloc: Global, at: usize, text: &[u8]) -> Result<Lexeme, Memory>
    ensures { IfOk result (λ l. lexeme_view l ≡ escape at text.now) }
{
    let (first, size) = first_char(text);
    let Some(first) = first else {
        return Ok(one_byte(Token::Wrong(BadToken::Cut)));
    };
    match first {
        'p' => braced_property(alloc, at, false, bytes_behind(text, 1)),
        'P' => braced_property(alloc, at, true, bytes_behind(text, 1)),
        'N' => Ok(one_byte(Token::Wrong(BadToken::CharacterName))),
        'u' => Ok(fixed_or_braced_digits(4, bytes_behind(text, 1))),
        'x' => Ok(fixed_or_braced_digits(2, bytes_behind(text, 1))),
        'U' => Ok(fixed_digits(8, bytes_behind(text, 1))),
        _ => Ok(plain_escape(first, size)),
    }
}

/// A `-`, from what stands behind it.
fn hyphen(text: &[u8]) -> Token
    ensures { sign_view result ≡ hyphen text.now }
{
    if begins_with_closing_bracket(text) {
        letter_of_escape(1, Some(0x2d)).token
    } else {
        Token::Dash
    }
}

/// The first token of a text that is UTF-8 and begins with no white space. Its place in the whole text is `at`.
#[tactic(auto, unfolding(crate::specs::Lexing::lexed))]
pub(crate) fn first_token(alloc: Global, at: usize, text: &[u8]) -> Result<Lexeme, Memory>
    ensures { IfOk result (λ l. lexeme_view l ≡ lexed at text.now) }
{
    let (first, size) = first_char(text);
    let Some(first) = first else {
        return Ok(one_byte(Token::Wrong(BadToken::Other)));
    };
    match first {
        '[' => opening(alloc, at, bytes_behind(text, 1)),
        ']' => Ok(one_byte(Token::Close)),
        '&' => Ok(one_byte(Token::And)),
        '-' => Ok(one_byte(hyphen(bytes_behind(text, 1)))),
        '\\' => escape(alloc, at, bytes_behind(text, 1)),
        '{' | '$' => Ok(one_byte(Token::Wrong(BadToken::Special))),
        '}' | '^' => Ok(one_byte(Token::Wrong(BadToken::Other))),
        _ => Ok(letter(first, size)),
    }
}

/// A character that stands for itself, which takes so many bytes.
fn letter(character: char, size: usize) -> Lexeme
    ensures { lexeme_view result ≡ sized size (letter character) }
{
    letter_of_escape(size, Some(u32::from(character)))
}
