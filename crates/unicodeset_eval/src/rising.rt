//! The union of spans that rise.

ghost use Rattle.std.specs.Prelude.{◌≡◌, ◌++◌, ◌≤◌, [], ◌∷◌, ℕ, IfOk, OnOk};
ghost use Rattle.std.specs.List.{list_any};
ghost use Rattle.std.specs.Option.{IfSome};
ghost use Rattle.ucd_facts.specs.Facts.{within};
ghost use Rattle.unicodeset_eval.specs.Edges.{has};
ghost use Rattle.unicodeset_eval.specs.RisingSpans.{front_edges, gap};

use crate::point_set::PointSet;
use std::alloc::Global;
use ucd_model::{Memory, Span};

/// The edges above 0 of a span, but the last one.
///
/// - `Memory`: memory ran out.
fn front_edges(alloc: Global, first: u32) -> Result<Vec<u32>, Memory>
    ensures { IfOk result (λ edges. edges.items ≡ front_edges first) }
{
    let mut edges = Vec::new(alloc);
    if first > 0 {
        edges.push(first)?;
    }
    Ok(edges)
}

/// Puts the edges of what lies between one span and the next one at the end, if anything does.
///
/// - `Memory`: memory ran out.
fn put_gap(edges: &mut Vec<u32>, end: u32, next: u32) -> Result<(), Memory>
    ensures { OnOk result (edges.new.items ≡ edges.old.items ++ gap end next) }
{
    if end < next {
        edges.push(end)?;
        edges.push(next)?;
    }
    Ok(())
}

/// The code points of spans, if each begins behind the one before it; else `None`. The rows of a file mostly stand so, and then
/// it is one pass.
///
/// - `Memory`: memory ran out.
pub(crate) fn rising_union(
    alloc: Global,
    first: Span,
    others: &[Span],
) -> Result<Option<PointSet>, Memory>
    ensures { IfOk result (λ set. IfSome set (λ s. (c : ℕ)
        → has s c ≡ list_any (within c) (first ∷ others.now))) }
{
    let mut edges = front_edges(alloc, first.first())?;
    let mut end = first.last() + 1;
    'spans: for span in others {
        if span.first() < end {
            return Ok(None);
        }
        put_gap(&mut edges, end, span.first())?;
        end = span.last() + 1;
    }
    edges.push(end)?;
    Ok(Some(PointSet::of_edges(first.first() == 0, edges)))
}
