//! Spans in an order in which one search tells whether some of them share a code point with others.

ghost use Rattle.std.specs.Prelude.{◌≡◌, ◌||◌, IfOk, OnOk};
ghost use Rattle.std.specs.List.{list_any};
ghost use Rattle.ucd_points.specs.Bounds.{Bounds};
ghost use Rattle.release_rows.specs.Keys.{spans_meet};
ghost use Rattle.release_rows.specs.SpanOrders.{reach_with, NoneBeginsBehind};

use std::alloc::Global;
use std::marker::Model;
use ucd_facts::{Memory, Span};

/// A span that reaches as far as it and all spans before it do.
#[derive(Clone, Copy)]
pub struct Begun {
    /// The first code point, as a number.
    pub first: u32,
    /// The greatest last code point so far, as a number.
    pub reach: u32,
}

/// Spans by their first code points. Contracts see each as reaching as far as those before it, which changes nothing of
/// what shares a code point with some of them.
#[derive(Drop)]
pub struct SpanOrder {
    spans: Vec<Begun>,
}

impl Model for SpanOrder {
    ghost use Rattle.std.specs.Prelude.{List, map};
    ghost use Rattle.ucd_points.specs.Bounds.{Bounds};
    ghost use Rattle.release_rows.specs.SpanOrders.{IsOrder, bounds_of};

    ghost Value = { List Bounds };

    ghost view = { λ s. map bounds_of s.spans.items };

    ghost invariant = { λ s. IsOrder s.spans.items };
}

/// How far spans reach that begin with these and go on with one more.
fn reach_with(begun: &[Begun], span: Span) -> u32
    ensures { result ≡ reach_with begun.now span.hi }
{
    match begun.last() {
        Some(before) => before.reach.max(span.last()),
        None => span.last(),
    }
}

impl SpanOrder {
    /// The order of these spans, which may stand in any order, and overlap.
    ///
    /// - `Memory`: memory ran out.
    pub fn new(alloc: Global, spans: &[Span]) -> Result<SpanOrder, Memory>
        ensures { IfOk result (λ order. (own : Bounds)
            → list_any (spans_meet own) order ≡ list_any (spans_meet own) spans.now) }
    {
        let mut sorted = Vec::from_slice(alloc, spans)?;
        sorted.sort_by_key(|span| span.first())?;
        let mut order = SpanOrder {
            spans: Vec::new(alloc),
        };
        'spans: for span in sorted.as_slice() {
            order.put(*span)?;
        }
        Ok(order)
    }

    /// Puts a span behind the others, none of which begins behind it.
    fn put(&mut self, span: Span) -> Result<(), Memory>
        requires { NoneBeginsBehind span.lo self.old }
        ensures met { OnOk result ((own : Bounds)
            → list_any (spans_meet own) self.new
            ≡ (list_any (spans_meet own) self.old || spans_meet own span)) }
        ensures behind { OnOk result (NoneBeginsBehind span.lo self.new) }
    {
        let reach = reach_with(self.spans.as_slice(), span);
        self.spans.push(Begun {
            first: span.first(),
            reach,
        })?;
        Ok(())
    }

    /// Whether the code points from one to another, as numbers, share one with some of the spans.
    pub fn meets(&self, lo: u32, hi: u32) -> bool
        ensures { result ≡ list_any (spans_meet (record { lo = lo; hi = hi })) self.now }
    {
        match self.spans.as_slice() {
            // mostly a group touches one span, and then two comparisons do
            [only] => lo <= only.reach && only.first <= hi,
            _ => self.some_meet(lo, hi),
        }
    }

    /// Whether the code points from one to another, as numbers, share one with some of the spans, however many spans there are.
    fn some_meet(&self, lo: u32, hi: u32) -> bool
        ensures { result ≡ list_any (spans_meet (record { lo = lo; hi = hi })) self.now }
    {
        // the last of the spans that begin at or before the end reaches as far as any of them
        let begun = self
            .spans
            .as_slice()
            .partition_point(|span| span.first <= hi);
        begun > 0 && lo <= self.spans[begun - 1].reach
    }
}
