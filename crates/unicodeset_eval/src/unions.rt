//! The union of spans.

ghost use Rattle.std.specs.Prelude.{◌≡◌, ℕ, IfOk};
ghost use Rattle.std.specs.List.{list_any};
ghost use Rattle.std.specs.Option.{IfSome};
ghost use Rattle.ucd_facts.specs.Facts.{within};
ghost use Rattle.unicodeset_eval.specs.Edges.{has};

use crate::point_set::PointSet;
use crate::rising::rising_union;
use std::alloc::Global;
use ucd_model::{Memory, Span};
use unicodeset_parser::Join;

/// The code points of spans in any order. Its time grows with n for n spans that rise, and as n log n for others.
///
/// - `Memory`: memory ran out.
pub(crate) fn union_of(alloc: Global, spans: &[Span]) -> Result<PointSet, Memory>
    ensures { IfOk result (λ set. (c : ℕ) → has set c ≡ list_any (within c) spans.now) }
{
    match ordered_union(alloc, spans)? {
        Some(set) => Ok(set),
        None => sorted_union(alloc, spans),
    }
}

/// The code points of spans, if each begins behind the one before it; else `None`.
///
/// - `Memory`: memory ran out.
fn ordered_union(alloc: Global, spans: &[Span]) -> Result<Option<PointSet>, Memory>
    ensures { IfOk result (λ set. IfSome set (λ s. (c : ℕ)
        → has s c ≡ list_any (within c) spans.now)) }
{
    match spans {
        [] => Ok(Some(PointSet::empty(alloc))),
        [first, others @ ..] => rising_union(alloc, *first, others),
    }
}

/// The code points of spans, which are sorted first. If none overlap, as rows of different values do not, it is one pass then.
///
/// - `Memory`: memory ran out.
fn sorted_union(alloc: Global, spans: &[Span]) -> Result<PointSet, Memory>
    ensures { IfOk result (λ set. (c : ℕ) → has set c ≡ list_any (within c) spans.now) }
{
    let mut sorted = Vec::from_slice(alloc, spans)?;
    sorted.sort_by_key(|span| span.first())?;
    let set = mostly_ordered_union(alloc, sorted.as_slice())?;
    Ok(set)
}

/// The code points of spans: in one pass if each begins behind the one before it, else by halves.
///
/// - `Memory`: memory ran out.
fn mostly_ordered_union(alloc: Global, spans: &[Span]) -> Result<PointSet, Memory>
    ensures { IfOk result (λ set. (c : ℕ) → has set c ≡ list_any (within c) spans.now) }
{
    match ordered_union(alloc, spans)? {
        Some(set) => Ok(set),
        None => halved_union(alloc, spans),
    }
}

/// The code points of spans, by halves.
///
/// - `Memory`: memory ran out.
fn halved_union(alloc: Global, spans: &[Span]) -> Result<PointSet, Memory>
    ensures { IfOk result (λ set. (c : ℕ) → has set c ≡ list_any (within c) spans.now) }
{
    match spans {
        [] => {
            let set = PointSet::empty(alloc);
            Ok(set)
        }
        [span] => {
            let set = PointSet::of_span(alloc, *span)?;
            Ok(set)
        }
        _ => {
            let (front, back) = spans.split_at(spans.len() / 2);
            let first = halved_union(alloc, front)?;
            let second = halved_union(alloc, back)?;
            let set = PointSet::joined(alloc, Join::Union, &first, &second)?;
            Ok(set)
        }
    }
}
