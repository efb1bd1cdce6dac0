//! Spans that touch or overlap, put together.

ghost use Rattle.std.specs.Prelude.{◌≡◌, ◌+◌, ◌<◌, ◌≤◌, ◌||◌, ℕ, None, Some, IfOk, IfSome, OnOk};
ghost use Rattle.std.specs.List.{list_any};
ghost use Rattle.ucd_facts.specs.Facts.{within};
ghost use Rattle.fact_tables.specs.JoinedSpans.{AreApart, BeginsUpTo, HoldsBack, is_in};

use std::alloc::Global;
use ucd_facts::{Memory, Span, Spans};

/// Spans of the same code points, which ascend. Between any two of them is a code point that lies in none.
///
/// - `Memory`: memory ran out.
pub fn disjoint_spans(alloc: Global, spans: &[Span]) -> Result<Spans, Memory>
    ensures covered { IfOk result (λ all. (c : ℕ)
        → list_any (within c) all ≡ list_any (within c) spans.now) }
    ensures apart { IfOk result (λ all. AreApart all) }
{
    let mut sorted = Vec::from_slice(alloc, spans)?;
    sorted.sort_by_key(|span| span.first())?;
    let mut all = Spans::new(alloc);
    let mut before = None;
    'spans: for span in sorted.as_slice() {
        let next = join_or_put(&mut all, before, *span)?;
        before = Some(next);
    }
    put_last_span(&mut all, before)?;
    Ok(all)
}

/// Joins a span to the one before it, if they touch; else puts the one before it behind the others. The answer is the span
/// that is not put yet.
#[tactic(auto, using(crate::proofs::JoinedLemmas::or_nothing, crate::proofs::JoinedLemmas::or_assoc, crate::proofs::JoinedLemmas::within_put, crate::proofs::JoinedLemmas::first_held, crate::proofs::JoinedLemmas::joined_held, crate::proofs::JoinedLemmas::next_held))]
fn join_or_put(all: &mut Spans, before: Option<Span>, span: Span) -> Result<Span, Memory>
    requires ordered { BeginsUpTo before span.lo }
    requires held { HoldsBack all.old before }
    ensures covered { IfOk result (λ next. (c : ℕ)
        → (list_any (within c) all.new || within c next)
        ≡ ((list_any (within c) all.old || is_in before c) || within c span)) }
    ensures apart { IfOk result (λ next. HoldsBack all.new (Some next)) }
    ensures begins { IfOk result (λ next. next.lo ≤ span.lo) }
{
    let Some(last) = before else {
        return Ok(span);
    };
    if let Some(whole) = union(last, span) {
        return Ok(whole);
    }
    all.push(last)?;
    Ok(span)
}

/// Puts the span that is not put yet behind the others.
#[tactic(auto, using(crate::proofs::JoinedLemmas::or_nothing, crate::proofs::JoinedLemmas::within_put, crate::proofs::JoinedLemmas::put_apart, crate::proofs::JoinedLemmas::all_apart))]
fn put_last_span(all: &mut Spans, before: Option<Span>) -> Result<(), Memory>
    requires { HoldsBack all.old before }
    ensures covered { OnOk result ((c : ℕ)
        → list_any (within c) all.new ≡ (list_any (within c) all.old || is_in before c)) }
    ensures apart { OnOk result (AreApart all.new) }
{
    match before {
        Some(span) => all.push(span),
        None => Ok(()),
    }
}

/// The span of both, if the second begins in the first or right behind it.
#[tactic(auto, using(crate::proofs::JoinedLemmas::within_both))]
fn union(a: Span, b: Span) -> Option<Span>
    ensures covered { IfSome result (λ whole. (c : ℕ)
        → within c whole ≡ (within c a || within c b)) }
    ensures begins { IfSome result (λ whole. whole.lo ≡ a.lo) }
    ensures apart { result ≡ None → a.lo ≤ b.lo → a.hi + 1 < b.lo }
{
    if a.first() <= b.first() && b.first() <= a.last() + 1 {
        let hi = if a.last() < b.last() { b.hi } else { a.hi };
        Some(Span { lo: a.lo, hi })
    } else {
        None
    }
}
