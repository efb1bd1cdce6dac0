//! Bracket sets that are open.

ghost use Rattle.std.specs.Prelude.{◌≡◌, [], ◌∷◌, ◌++◌, map, Ok, Err, IfOk};
ghost use Rattle.unicodeset_parser.specs.Trees.{bracket, chars, steps_of};
ghost use Rattle.unicodeset_parser.specs.declared.expr.Join.TheVariants.{Union};
ghost use Rattle.unicodeset_parser.specs.Machine.{put, fresh, opened, closed, within};
ghost use Rattle.unicodeset_parser.specs.Parsed.{Gives};
ghost use Rattle.unicodeset_parser.specs.StateViews.{frame_view, frames_view, mode_view, state_view};
ghost use Rattle.unicodeset_parser.specs.Views.{tree_view, part_view, parts_view, united};

use crate::expr::{Expr, Join, Part, Parts};
use crate::faults::fault;
use crate::property::negated_by;
use crate::state::{Frame, Mode, Nest, State};
use crate::stop::{SetRule, SetStop};
use std::alloc::Global;
use std::mem::replace;
use ucd_points::{Memory, Span, Spans};

/// How many bracket sets may stand around an open one. UTS #35 has no limit; this one is the project's.
const AROUND: usize = 63;

/// How many spans are copied rather than moved.
const FEW: usize = 64;

/// A bracket set without steps.
pub(crate) fn empty_frame(alloc: Global, negated: bool, join: Join) -> Frame
    ensures { frame_view result ≡ fresh negated join }
{
    Frame {
        negated,
        join,
        parts: Parts::new(alloc),
        letters: Vec::new(alloc),
    }
}

/// These spans, in no more room than they need. A few are copied, since the room of what is left is used again; more are taken out.
///
/// - `Memory`: memory ran out.
fn fitted_spans(alloc: Global, letters: &mut Vec<Span>) -> Result<Spans, Memory>
    ensures { IfOk result (λ spans. spans ≡ letters.old.items) }
{
    if letters.len() <= FEW {
        return Spans::of(alloc, letters.as_slice());
    }
    let mut moved = replace(letters, Vec::new(alloc));
    moved.shrink_to_fit();
    Ok(Spans::from_vec(moved))
}

/// The steps, and behind them one for each of these spans. One part has them all, in no more room than they need.
///
/// - `Memory`: memory ran out.
fn with_letters(alloc: Global, parts: Parts, letters: &mut Vec<Span>) -> Result<Parts, Memory>
    ensures { IfOk result
        (λ all. parts_view all ≡ parts_view parts ++ map united letters.old.items) }
{
    let mut all = parts;
    if letters.len() == 1 {
        all.push(Part {
            join: Join::Union,
            negated: false,
            part: Expr::Chars(letters[0]),
        })?;
    } else if letters.len() > 1 {
        all.push(Part {
            join: Join::Union,
            negated: false,
            part: Expr::Several(fitted_spans(alloc, letters)?),
        })?;
    }
    Ok(all)
}

/// A set as one step. Characters, which would be a step for each span, are a bracket set here. A complement takes no box of its own.
fn one_step(join: Join, part: Expr) -> Part
    ensures { part_view result ≡ record { join = join; tree = tree_view part } ∷ [] }
{
    match part {
        Expr::Several(letters) => Part {
            join,
            negated: false,
            part: Expr::Listed(letters),
        },
        Expr::Not(inner) => Part {
            join,
            negated: true,
            part: Box::into_inner(inner),
        },
        Expr::Chars(_) | Expr::Listed(_) | Expr::Named(_) | Expr::Valued(_) | Expr::Bracket(_) =>
            Part {
                join,
                negated: false,
                part,
            },
    }
}

/// The bracket set with one more step.
///
/// - `Memory`: memory ran out.
fn with_step(alloc: Global, join: Join, part: Expr, frame: Frame) -> Result<Frame, Memory>
    ensures { IfOk result
        (λ more. frame_view more ≡ put join (tree_view part) (frame_view frame)) }
{
    let Frame {
        negated,
        join: outward,
        parts,
        mut letters,
    } = frame;
    let mut parts = with_letters(alloc, parts, &mut letters)?;
    letters.clear();
    parts.push(one_step(join, part))?;
    Ok(Frame {
        negated,
        join: outward,
        parts,
        letters,
    })
}

/// One more step of the innermost bracket set.
///
/// - `Memory`: memory ran out.
pub(crate) fn put_step(alloc: Global, join: Join, part: Expr, nest: Nest) -> Result<Nest, Memory>
    ensures frame { IfOk result
        (λ more. frame_view more.frame ≡ put join (tree_view part) (frame_view nest.frame)) }
    ensures around { IfOk result
        (λ more. frames_view more.around.items ≡ frames_view nest.around.items) }
{
    let Nest { frame, around } = nest;
    Ok(Nest {
        frame: with_step(alloc, join, part, frame)?,
        around,
    })
}

/// The characters of one more span in the innermost bracket set, in union.
///
/// - `Memory`: memory ran out.
pub(crate) fn put_span(span: Span, nest: Nest) -> Result<Nest, Memory>
    ensures frame { IfOk result (λ more. frame_view more.frame
        ≡ put Union (chars span) (frame_view nest.frame)) }
    ensures around { IfOk result
        (λ more. frames_view more.around.items ≡ frames_view nest.around.items) }
{
    let Nest {
        frame: Frame {
            negated,
            join,
            parts,
            mut letters,
        },
        around,
    } = nest;
    letters.push(span)?;
    Ok(Nest {
        frame: Frame {
            negated,
            join,
            parts,
            letters,
        },
        around,
    })
}

/// Opens a bracket set in the innermost one.
pub(crate) fn opened(
    alloc: Global,
    at: usize,
    negated: bool,
    join: Join,
    nest: Nest,
) -> Result<State, SetStop>
    ensures { Gives state_view result
        (opened at negated join (frame_view nest.frame) (frames_view nest.around.items)) }
{
    let Nest { frame, mut around } = nest;
    if around.len() >= AROUND {
        return Err(fault(SetRule::S6, at));
    }
    around.push(frame)?;
    Ok(State::Within(
        Mode::First,
        Nest {
            frame: empty_frame(alloc, negated, join),
            around,
        },
    ))
}

/// The bracket set of these steps, and behind them one for each of these spans, in no more room than they need.
///
/// - `Memory`: memory ran out.
fn bracket_of(alloc: Global, parts: Parts, letters: &mut Vec<Span>) -> Result<Expr, Memory>
    ensures { IfOk result (λ expr. tree_view expr
        ≡ bracket (steps_of (parts_view parts ++ map united letters.old.items))) }
{
    if parts.is_empty() && !letters.is_empty() {
        return Ok(Expr::Listed(fitted_spans(alloc, letters)?));
    }
    let all = with_letters(alloc, parts, letters)?;
    Ok(Expr::Bracket(all.fitted(alloc)?))
}

/// Closes the innermost bracket set, and makes it a step of the one around it.
pub(crate) fn closed(alloc: Global, nest: Nest) -> Result<State, SetStop>
    ensures { Gives state_view result
        (Ok (closed (frame_view nest.frame) (frames_view nest.around.items))) }
{
    let Nest { frame, mut around } = nest;
    let Frame {
        negated,
        join,
        parts,
        mut letters,
    } = frame;
    let expr = bracket_of(alloc, parts, &mut letters)?;
    let expr = negated_by(alloc, negated, expr)?;
    match around.pop() {
        Some(outer) => Ok(State::Within(
            Mode::BehindSet,
            Nest {
                frame: with_step(alloc, join, expr, outer)?,
                around,
            },
        )),
        None => Ok(State::After(expr)),
    }
}
