//! The spans of code points that stand in a list.

ghost use Rattle.std.specs.Prelude.{◌≡◌, ◌∷◌, ℕ, Bool, List, IfOk};
ghost use Rattle.ucdshop_look_core.specs.PointSpans.{AreInOrder, IsLast, point_spans};

use std::alloc::Global;
use ucd_model::{Memory, Point, Span, Spans};

/// The spans of code points that ascend, each of them once: maximal spans, which ascend too.
///
/// - `Memory`: memory ran out.
pub fn point_spans(alloc: Global, points: &[Point]) -> Result<Spans, Memory>
    requires { AreInOrder points.now }
    ensures { IfOk result (λ spans. spans ≡ point_spans points.now) }
{
    let mut spans = Spans::new(alloc);
    let Some((first, behind)) = points.split_first() else {
        return Ok(spans);
    };
    let mut last = Span::one(*first);
    'points: for point in behind {
        last = next_span(&mut spans, last, *point)?;
    }
    spans.push(last)?;
    Ok(spans)
}

/// The last span after one more code point: it goes on if that one stands directly behind it; else it is put, and a new span
/// begins.
///
/// - `Memory`: memory ran out.
fn next_span(spans: &mut Spans, last: Span, point: Point) -> Result<Span, Memory>
    ensures { IfOk result (λ next. (n : ℕ) (p : ℕ → Bool) (rest : List ℕ)
        → IsLast n p spans.old last (point ∷ rest) → IsLast n p spans.new next rest) }
{
    if last.last() + 1 == point.number() {
        return Ok(Span::between(last.lo, point));
    }
    spans.push(last)?;
    Ok(Span::one(point))
}
