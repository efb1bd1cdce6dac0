//! How far a text is read.

use crate::expr::{Expr, Join, Parts};
use ucd_points::{Point, Span};

/// A bracket set that is open.
#[derive(Drop)]
pub(crate) struct Frame {
    /// Whether its complement is meant.
    pub(crate) negated: bool,
    /// How it is joined to the bracket set around it.
    pub(crate) join: Join,
    /// Its steps so far, but for the last ones that are characters in union.
    pub(crate) parts: Parts,
    /// The characters of those.
    pub(crate) letters: Vec<Span>,
}

/// The bracket sets that are open.
#[derive(Drop)]
pub(crate) struct Nest {
    /// The innermost one.
    pub(crate) frame: Frame,
    /// Those around it, from the outside in.
    pub(crate) around: Vec<Frame>,
}

/// What may follow in the innermost bracket set.
#[derive(Clone, Copy)]
pub(crate) enum Mode {
    /// Its first element.
    First,
    /// An element, or an operator, since a set stands before.
    BehindSet,
    /// An element.
    Elsewhere,
    /// An element, or a `-` that makes a range of the character, which stands before.
    Pending(Point),
    /// The last character of a range that begins with this one.
    Lacking(Point),
    /// A set, behind an operator.
    Due(Join),
}

/// How far a text is read.
#[derive(Drop)]
pub(crate) enum State {
    /// Nothing stands yet.
    Before,
    /// In a bracket set.
    Within(Mode, Nest),
    /// The whole set is read.
    After(Expr),
}
