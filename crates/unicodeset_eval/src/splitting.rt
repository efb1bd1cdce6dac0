//! The spans of a set.

ghost use Rattle.std.specs.Prelude.{◌≡◌, ◌≤◌, ◌++◌, IfOk, OnOk, OnErr};
ghost use Rattle.ucd_points.specs.Limits.{point_count};
ghost use Rattle.unicodeset_eval.specs.Pieces.{piece, pieces};

use std::alloc::Global;
use ucd_model::{Memory, Point, Span, Spans, point_count};

/// Puts the code points from `from` to before `end` at the end as a span, if there are some and they are in.
///
/// - `Memory`: memory ran out. The spans stay as they were.
fn put_piece(spans: &mut Spans, inside: bool, from: u32, end: u32) -> Result<(), Memory>
    requires { end ≤ 1114112 }
    ensures ok { OnOk result (spans.new ≡ spans.old ++ piece inside from end) }
    ensures err { OnErr result (spans.new ≡ spans.old) }
{
    if inside && from < end {
        if let (Some(lo), Some(hi)) = (Point::new(from), Point::new(end - 1)) {
            if let Some(span) = Span::new(lo, hi) {
                spans.push(span)?;
            }
        }
    }
    Ok(())
}

/// The spans of a set, which is given by whether 0 is in it, and by its edges above 0.
///
/// - `Memory`: memory ran out.
pub(crate) fn spans_of(alloc: Global, has_zero: bool, edges: &[u32]) -> Result<Spans, Memory>
    ensures { IfOk result (λ spans. spans ≡ pieces point_count has_zero 0 edges.now) }
{
    let count = point_count();
    let mut spans = Spans::new(alloc);
    let mut inside = has_zero;
    let mut from = 0;
    'edges: for edge in edges {
        put_piece(&mut spans, inside, from, (*edge).min(count))?;
        inside = !inside;
        from = *edge;
    }
    put_piece(&mut spans, inside, from, count)?;
    Ok(spans)
}
