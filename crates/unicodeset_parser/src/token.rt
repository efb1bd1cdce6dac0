//! The tokens of a text.

use crate::expr::Expr;
use ucd_points::Point;

/// What may stand in no text. Which rule it breaks depends on the place where it stands.
#[derive(Clone, Copy)]
pub(crate) enum BadToken {
    /// A property that is never closed, or a `\p` or `\P` at the end of the text.
    Unclosed,
    /// A name with the not-equal sign, or with a value that begins with `/`.
    RefusedName,
    /// An escape that gives no code point.
    BadEscape,
    /// `\N`, which names a character.
    CharacterName,
    /// `{` or `$`.
    Special,
    /// A `\` at the end of the text.
    Cut,
    /// Any other character that stands for itself nowhere: `}`, and `^` anywhere but behind `[`.
    Other,
}

/// A token. White space is no part of it.
#[derive(Drop)]
pub(crate) enum Token {
    /// `[`, or `[^` if it is negated.
    Open(bool),
    /// `]`
    Close,
    /// A `-` that no `]` follows after white space.
    Dash,
    /// `&`
    And,
    /// A character that stands for itself, an escape, or a `-` that a `]` follows after white space.
    Letter(Point),
    /// A whole property.
    Property(Expr),
    /// What stands in no text.
    Wrong(BadToken),
}

/// A token and how many bytes it takes.
#[derive(Drop)]
pub(crate) struct Lexeme {
    pub(crate) token: Token,
    pub(crate) size: usize,
}
