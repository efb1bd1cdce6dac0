//! The tree of a UnicodeSet.

ghost use Rattle.std.specs.Prelude.{◌≡◌, true, [], ◌++◌, IfOk, OnOk, OnErr};
ghost use Rattle.std.specs.List.{flat_map};
ghost use Rattle.unicodeset_parser.specs.Views.{part_view, parts_view};

use std::alloc::Global;
use ucd_points::{Memory, Span, Spans, Text};

/// How many parts are moved rather than cut off.
const FEW: usize = 16;

/// How a set is joined to what stands before it in its bracket set.
#[derive(Clone, Copy, Debug, PartialEq, Eq)]
pub enum Join {
    /// The members of both.
    Union,
    /// The members of both at once: `&`.
    Meet,
    /// Those members of the first that the second has not: `-`.
    Minus,
}

/// A property that is named alone, such as `\p{Lu}`.
#[derive(Debug, Drop)]
pub struct NamedProperty {
    /// Its name, or that of a value.
    pub name: Text,
    /// The byte of the text, counted from 0, where it begins: its `\` or its `[`.
    pub at: usize,
}

/// A property with a value, such as `\p{gc=Lu}`.
#[derive(Debug, Drop)]
pub struct ValuedProperty {
    /// Its name.
    pub property: Text,
    /// The name of its value.
    pub value: Text,
    /// The byte of the text, counted from 0, where it begins: its `\` or its `[`.
    pub at: usize,
}

/// A UnicodeSet, or an element of one. UTS #35, "Unicode Sets".
#[cycle(tree)]
#[derive(Debug, Drop)]
pub enum Expr {
    /// The characters of a span.
    Chars(Span),
    /// The characters of spans, in union. As a step in union they are a step for each span; elsewhere they are a bracket set of such
    /// steps.
    Several(Spans),
    /// A bracket set with a step in union for each span.
    Listed(Spans),
    /// A property that is named alone.
    Named(Box<NamedProperty>),
    /// A property with a value.
    Valued(Box<ValuedProperty>),
    /// The complement.
    Not(Box<Expr>),
    /// The steps of a bracket set from left to right, beginning with no members.
    Bracket(Parts),
}

/// A step of a bracket set, or characters that are a step for each span.
#[cycle(tree)]
#[derive(Debug, Drop)]
pub struct Part {
    /// How it is joined to what stands before it.
    pub join: Join,
    /// Whether the complement is joined.
    pub negated: bool,
    /// What is joined.
    pub part: Expr,
}

/// The steps of a bracket set, from left to right.
#[cycle(tree)]
#[derive(Debug, Drop)]
pub struct Parts {
    /// The steps, part by part.
    pub items: Vec<Part>,
}

impl Parts {
    /// No steps. It takes no memory.
    pub fn new(alloc: Global) -> Parts
        ensures { parts_view result ≡ [] }
    {
        Parts {
            items: Vec::new(alloc),
        }
    }

    /// Puts a part at the end: a step, or characters that are a step for each span.
    ///
    /// - `Memory`: memory ran out. The steps stay as they were, and the part is dropped.
    pub fn push(&mut self, part: Part) -> Result<(), Memory>
        ensures ok { OnOk result (parts_view self.new ≡ parts_view self.old ++ part_view part) }
        ensures err { OnErr result (parts_view self.new ≡ parts_view self.old) }
    {
        self.items.push(part)?;
        Ok(())
    }

    /// Whether there are none.
    pub(crate) fn is_empty(&self) -> bool
        ensures { result ≡ true → parts_view self.now ≡ [] }
    {
        self.items.is_empty()
    }

    /// These parts, in no more room than they need. A few are moved to a block of their own, since what is cut off a small
    /// block can seldom be used again.
    ///
    /// - `Memory`: memory ran out.
    pub(crate) fn fitted(self, alloc: Global) -> Result<Parts, Memory>
        ensures { IfOk result (λ fitted. parts_view fitted ≡ parts_view self) }
    {
        let Parts { mut items } = self;
        if items.len() > FEW {
            items.shrink_to_fit();
            return Ok(Parts { items });
        }
        let mut fitted = Vec::with_capacity(alloc, items.len())?;
        fitted.append(&mut items)?;
        Ok(Parts { items: fitted })
    }

    /// The parts in order.
    pub fn as_slice(&self) -> &[Part]
        ensures { flat_map part_view result.now ≡ parts_view self.now }
    {
        self.items.as_slice()
    }
}
