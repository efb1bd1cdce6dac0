//! Reads tokens from left to right, with the open bracket sets on a stack of its own.

ghost use Rattle.std.specs.Prelude.{◌≡◌, Ok, Err};
ghost use Rattle.unicodeset_parser.specs.Tokens.{placed};
ghost use Rattle.unicodeset_parser.specs.TokenViews.{sign_view};
ghost use Rattle.unicodeset_parser.specs.Machine.{begun, operand, element, first_element, operator, behind_letter, range_end, inside, step, finished, too_late};
ghost use Rattle.unicodeset_parser.specs.Parsed.{Gives, stop_of};
ghost use Rattle.unicodeset_parser.specs.StateViews.{frame_view, frames_view, mode_view, state_view};
ghost use Rattle.unicodeset_parser.specs.Views.{tree_view};

use crate::expr::{Expr, Join};
use crate::faults::{element_fault, fault, late_fault, range_fault, set_fault};
use crate::frames::{closed, empty_frame, opened, put_span, put_step};
use crate::state::{Mode, Nest, State};
use crate::stop::{SetRule, SetStop};
use crate::token::Token;
use std::alloc::Global;
use ucd_points::{Point, Span};

/// The first token of the text.
fn after_first_token(alloc: Global, end: usize, at: usize, token: Token) -> Result<State, SetStop>
    ensures { Gives state_view result (begun end (placed at (sign_view token))) }
{
    match token {
        Token::Open(negated) => Ok(State::Within(
            Mode::First,
            Nest {
                frame: empty_frame(alloc, negated, Join::Union),
                around: Vec::new(alloc),
            },
        )),
        Token::Property(expr) => Ok(State::After(expr)),
        Token::Wrong(wrong) => Err(set_fault(end, at, wrong)),
        _ => Err(fault(SetRule::S3, at)),
    }
}

/// A token behind an operator.
fn operand(
    alloc: Global,
    end: usize,
    join: Join,
    nest: Nest,
    at: usize,
    token: Token,
) -> Result<State, SetStop>
    ensures { Gives state_view result
        (operand join end (frame_view nest.frame) (frames_view nest.around.items)
        (placed at (sign_view token))) }
{
    match token {
        Token::Open(negated) => opened(alloc, at, negated, join, nest),
        Token::Property(expr) => Ok(State::Within(
            Mode::BehindSet,
            put_step(alloc, join, expr, nest)?,
        )),
        Token::Wrong(wrong) => Err(set_fault(end, at, wrong)),
        _ => Err(fault(SetRule::S3, at)),
    }
}

/// A token where an element is due.
fn element(alloc: Global, end: usize, nest: Nest, at: usize, token: Token) -> Result<State, SetStop>
    ensures { Gives state_view result
        (element end (frame_view nest.frame) (frames_view nest.around.items)
        (placed at (sign_view token))) }
{
    match token {
        Token::Open(negated) => opened(alloc, at, negated, Join::Union, nest),
        Token::Property(expr) => Ok(State::Within(
            Mode::BehindSet,
            put_step(alloc, Join::Union, expr, nest)?,
        )),
        Token::Close => closed(alloc, nest),
        Token::Letter(letter) => Ok(State::Within(Mode::Pending(letter), nest)),
        Token::Wrong(wrong) => Err(element_fault(end, at, wrong)),
        Token::Dash | Token::And => Err(fault(SetRule::S3, at)),
    }
}

/// The hyphen.
fn hyphen() -> Point
    ensures { result ≡ 45 }
{
    Point::new(0x2d).unwrap()
}

/// A token where the first element is due.
fn first_element(
    alloc: Global,
    end: usize,
    nest: Nest,
    at: usize,
    token: Token,
) -> Result<State, SetStop>
    ensures { Gives state_view result
        (first_element end (frame_view nest.frame) (frames_view nest.around.items)
        (placed at (sign_view token))) }
{
    match token {
        Token::Dash => Ok(State::Within(Mode::Pending(hyphen()), nest)),
        _ => element(alloc, end, nest, at, token),
    }
}

/// A token behind a set.
fn operator(
    alloc: Global,
    end: usize,
    nest: Nest,
    at: usize,
    token: Token,
) -> Result<State, SetStop>
    ensures { Gives state_view result
        (operator end (frame_view nest.frame) (frames_view nest.around.items)
        (placed at (sign_view token))) }
{
    match token {
        Token::Dash => Ok(State::Within(Mode::Due(Join::Minus), nest)),
        Token::And => Ok(State::Within(Mode::Due(Join::Meet), nest)),
        _ => element(alloc, end, nest, at, token),
    }
}

/// A token behind a character that may begin a range.
fn behind_letter(
    alloc: Global,
    end: usize,
    letter: Point,
    nest: Nest,
    at: usize,
    token: Token,
) -> Result<State, SetStop>
    ensures { Gives state_view result
        (behind_letter letter end (frame_view nest.frame) (frames_view nest.around.items)
        (placed at (sign_view token))) }
{
    match token {
        Token::Dash => Ok(State::Within(Mode::Lacking(letter), nest)),
        _ => element(alloc, end, put_span(Span::one(letter), nest)?, at, token),
    }
}

/// A token where the last character of a range is due.
fn range_end(
    end: usize,
    first: Point,
    nest: Nest,
    at: usize,
    token: Token,
) -> Result<State, SetStop>
    ensures { Gives state_view result
        (range_end first end (frame_view nest.frame) (frames_view nest.around.items)
        (placed at (sign_view token))) }
{
    match token {
        Token::Letter(last) => {
            let Some(span) = Span::new(first, last) else {
                return Err(fault(SetRule::S4, at));
            };
            Ok(State::Within(Mode::Elsewhere, put_span(span, nest)?))
        }
        Token::Wrong(wrong) => Err(range_fault(end, at, wrong)),
        _ => Err(fault(SetRule::S3, at)),
    }
}

/// A token in a bracket set.
fn inside_bracket_set(
    alloc: Global,
    end: usize,
    mode: Mode,
    nest: Nest,
    at: usize,
    token: Token,
) -> Result<State, SetStop>
    ensures { Gives state_view result
        (inside (mode_view mode) end (frame_view nest.frame) (frames_view nest.around.items)
        (placed at (sign_view token))) }
{
    match mode {
        Mode::First => first_element(alloc, end, nest, at, token),
        Mode::BehindSet => operator(alloc, end, nest, at, token),
        Mode::Elsewhere => element(alloc, end, nest, at, token),
        Mode::Pending(letter) => behind_letter(alloc, end, letter, nest, at, token),
        Mode::Lacking(first) => range_end(end, first, nest, at, token),
        Mode::Due(join) => operand(alloc, end, join, nest, at, token),
    }
}

/// A token behind the whole set.
fn too_late(at: usize, token: Token) -> SetStop
    ensures { result ≡ stop_of (too_late (placed at (sign_view token))) }
{
    match token {
        Token::Wrong(wrong) => late_fault(at, wrong),
        _ => fault(SetRule::S3, at),
    }
}

/// The state behind one more token, which begins at `at` in a text of `end` bytes.
pub(crate) fn step(
    alloc: Global,
    end: usize,
    state: State,
    at: usize,
    token: Token,
) -> Result<State, SetStop>
    ensures { Gives state_view result (step end (state_view state) (placed at (sign_view token))) }
{
    match state {
        State::Before => after_first_token(alloc, end, at, token),
        State::Within(mode, nest) => { inside_bracket_set(alloc, end, mode, nest, at, token) }
        State::After(_) => Err(too_late(at, token)),
    }
}

/// The tree at the end of the text, which is `end` bytes long.
pub(crate) fn finished(end: usize, state: State) -> Result<Expr, SetStop>
    ensures { Gives tree_view result (finished end (state_view state)) }
{
    match state {
        State::After(expr) => Ok(expr),
        _ => Err(fault(SetRule::S2, end)),
    }
}
