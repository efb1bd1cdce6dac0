//! Sets of code points.

ghost use Rattle.std.specs.Prelude.{◌≡◌, ◌≤◌, ℕ, nat_lt, IfOk};
ghost use Rattle.ucd_points.specs.Limits.{point_count};
ghost use Rattle.unicodeset_eval.specs.Edges.{Rises, has};
ghost use Rattle.unicodeset_eval.specs.Members.{between, joined, member_spans, nothing, outside};

use crate::covering::span_edges;
use crate::merging::{holds, merge};
use crate::splitting::spans_of;
use std::alloc::Global;
use std::marker::Model;
use ucd_model::{Memory, Span, Spans};
use unicodeset_parser::Join;

/// A set of code points. Contracts see its edges, by which each number is in or not. UTS #35, "Unicode Sets".
///
/// It is kept as an inversion list: the numbers at which membership turns. A complement has all numbers that the set
/// has not, even those past 10FFFF, which no span of a set has.
#[derive(Debug, Drop)]
pub struct PointSet {
    /// Whether 0 is in.
    has_zero: bool,
    /// The numbers above 0 at which membership turns; they ascend.
    edges: Vec<u32>,
}

impl Model for PointSet {
    ghost use Rattle.unicodeset_eval.specs.Edges.{Edges, Rises};

    ghost Value = { Edges };

    ghost view = { λ s. record { has_zero = s.has_zero; edges = s.edges.items } };

    ghost invariant = { λ s. Rises 1 s.edges.items };
}

impl PointSet {
    /// The set without members. It takes no memory.
    pub fn empty(alloc: Global) -> PointSet
        ensures { (c : ℕ) → has result c ≡ nothing c }
    {
        PointSet {
            has_zero: false,
            edges: Vec::new(alloc),
        }
    }

    /// The set that is given by whether 0 is in, and by its edges above 0. It takes no memory.
    pub(crate) fn of_edges(has_zero: bool, edges: Vec<u32>) -> PointSet
        requires { Rises 1 edges.items }
        ensures { result ≡ record { has_zero = has_zero; edges = edges.items } }
    {
        PointSet { has_zero, edges }
    }

    /// The numbers before `end`, which is not 0.
    ///
    /// - `Memory`: memory ran out.
    pub(crate) fn before(alloc: Global, end: u32) -> Result<PointSet, Memory>
        requires { 1 ≤ end }
        ensures { IfOk result (λ set. (c : ℕ) → has set c ≡ nat_lt c end) }
    {
        let mut edges = Vec::new(alloc);
        edges.push(end)?;
        Ok(PointSet {
            has_zero: true,
            edges,
        })
    }

    /// The code points of a span.
    ///
    /// - `Memory`: memory ran out.
    pub fn of_span(alloc: Global, span: Span) -> Result<PointSet, Memory>
        ensures { IfOk result (λ set. (c : ℕ) → has set c ≡ between span c) }
    {
        Ok(PointSet {
            has_zero: span.first() == 0,
            edges: span_edges(alloc, span)?,
        })
    }

    /// What two sets are joined to: their union, what they have in common, or their difference. Its time is linear in
    /// their edges.
    ///
    /// - `Memory`: memory ran out.
    pub fn joined(
        alloc: Global,
        join: Join,
        first: &PointSet,
        second: &PointSet,
    ) -> Result<PointSet, Memory>
        ensures { IfOk result (λ set. (c : ℕ)
            → has set c ≡ joined join (has first.now) (has second.now) c) }
    {
        Ok(PointSet {
            has_zero: holds(join, first.has_zero, second.has_zero),
            edges: merge(
                alloc,
                join,
                first.has_zero,
                first.edges.as_slice(),
                second.has_zero,
                second.edges.as_slice(),
            )?,
        })
    }

    /// All numbers that the set has not. It takes no memory and no time.
    pub fn complement(self) -> PointSet
        ensures { (c : ℕ) → has result c ≡ outside (has self) c }
    {
        PointSet {
            has_zero: !self.has_zero,
            edges: self.edges,
        }
    }

    /// The members that are code points, as maximal ascending spans.
    ///
    /// - `Memory`: memory ran out.
    pub fn spans(&self, alloc: Global) -> Result<Spans, Memory>
        ensures { IfOk result (λ spans. spans ≡ member_spans point_count (has self.now)) }
    {
        spans_of(alloc, self.has_zero, self.edges.as_slice())
    }
}
