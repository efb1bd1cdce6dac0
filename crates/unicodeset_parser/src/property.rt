//! Properties.

ghost use Rattle.std.specs.Prelude.{◌≡◌, ◌<◌, ◌≤◌, ◌+◌, ◌^◌, length, IfOk};
ghost use Rattle.unicodeset_parser.specs.Trees.{named, valued, negated_by};
ghost use Rattle.unicodeset_parser.specs.Tokens.{property};
ghost use Rattle.unicodeset_parser.specs.Properties.{parted, property_sign, property_at, braces};
ghost use Rattle.unicodeset_parser.specs.TokenViews.{sign_view, lexeme_view};
ghost use Rattle.unicodeset_parser.specs.Views.{tree_view};

use crate::bytes::{begins_with, bytes_behind, found_at};
use crate::escape::bad_escape;
use crate::expr::{Expr, NamedProperty, ValuedProperty};
use crate::token::{BadToken, Lexeme, Token};
use std::alloc::Global;
use ucd_lines::{cut, first_at};
use ucd_points::{Memory, Text};

/// The bytes of 2260, the not-equal sign.
const NOT_EQUAL: &[u8] = b"\xe2\x89\xa0";

/// The set, or its complement.
pub(crate) fn negated_by(alloc: Global, negated: bool, expr: Expr) -> Result<Expr, Memory>
    ensures { IfOk result (λ made. tree_view made ≡ negated_by negated (tree_view expr)) }
{
    if negated {
        Ok(Expr::Not(Box::new(alloc, expr)?))
    } else {
        Ok(expr)
    }
}

/// The property that is named alone.
fn property_without_value(
    alloc: Global,
    negated: bool,
    name: &[u8],
    at: usize,
) -> Result<Token, Memory>
    ensures { IfOk result
        (λ token. sign_view token ≡ property (negated_by negated (named name.now at))) }
{
    let name = Text::of(alloc, name)?;
    let property = Box::new(alloc, NamedProperty { name, at })?;
    Ok(Token::Property(negated_by(alloc, negated, Expr::Named(property))?))
}

/// The property of a name with a `=`, which parts property and value.
#[tactic(auto, unfolding(crate::specs::Properties::parted))]
fn property_with_value(
    alloc: Global,
    negated: bool,
    name: &[u8],
    at: usize,
) -> Result<Token, Memory>
    ensures { IfOk result (λ token. sign_view token ≡ parted negated name.now at) }
{
    let (property, value) = cut(name, b'=');
    if begins_with(value, b'/') {
        return Ok(Token::Wrong(BadToken::RefusedName));
    }
    let property = Text::of(alloc, property)?;
    let value = Text::of(alloc, value)?;
    let property = Box::new(
        alloc,
        ValuedProperty {
            property,
            value,
            at,
        },
    )?;
    Ok(Token::Property(negated_by(alloc, negated, Expr::Valued(property))?))
}

/// The property of a name.
#[tactic(auto, unfolding(crate::specs::Properties::property_sign))]
fn property_token(alloc: Global, negated: bool, name: &[u8], at: usize) -> Result<Token, Memory>
    ensures { IfOk result (λ token. sign_view token ≡ property_sign negated name.now at) }
{
    if found_at(name, NOT_EQUAL).is_some() {
        return Ok(Token::Wrong(BadToken::RefusedName));
    }
    if first_at(name, b'=') < name.len() {
        property_with_value(alloc, negated, name, at)
    } else {
        property_without_value(alloc, negated, name, at)
    }
}

/// The property whose name goes to the first `closing`. So many bytes, `before`, stand before the name.
#[tactic(auto, unfolding(crate::specs::Properties::property_at))]
pub(crate) fn property_at(
    alloc: Global,
    at: usize,
    negated: bool,
    before: usize,
    closing: &[u8],
    text: &[u8],
) -> Result<Lexeme, Memory>
    requires some { 0 < length closing.now }
    requires small { before ≤ 3 }
    ensures { IfOk result
        (λ l. lexeme_view l ≡ property_at at negated before closing.now text.now) }
{
    let Some(len) = found_at(text, closing) else {
        return Ok(Lexeme {
            token: Token::Wrong(BadToken::Unclosed),
            size: 1,
        });
    };
    Ok(Lexeme {
        token: property_token(alloc, negated, &text[..len], at)?,
        size: before + len + closing.len(),
    })
}

/// The form `\p{NAME}` or `\P{NAME}`, from what stands behind its `p`.
pub(crate) fn braced_property(
    alloc: Global,
    at: usize,
    negated: bool,
    text: &[u8],
) -> Result<Lexeme, Memory>
    ensures { IfOk result (λ l. lexeme_view l ≡ braces at negated text.now) }
{
    if text.is_empty() {
        return Ok(Lexeme {
            token: Token::Wrong(BadToken::Unclosed),
            size: 1,
        });
    }
    if !begins_with(text, b'{') {
        return Ok(bad_escape());
    }
    property_at(alloc, at, negated, 3, b"}", bytes_behind(text, 1))
}
