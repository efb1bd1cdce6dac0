//! The code points cut into spans of equal records: what is the same from point to point is looked at once.

ghost use Rattle.std.specs.Prelude.{◌≡◌, ◌≤◌, ◌<◌, IfOk};
ghost use Rattle.ucd_points.specs.Limits.{point_count};
ghost use Rattle.ucd_model.specs.Cuts.{IsCut};

use crate::records::Records;
use std::alloc::Global;
use ucd_points::{Memory, Point, Span, Spans, point_count};

/// Spans that follow one another over all code points, in each of which the records are equal.
///
/// - `Memory`: memory ran out.
pub fn equal_record_spans<B: Records>(alloc: Global, bench: &B) -> Result<Spans, Memory>
    ensures { IfOk result (λ pieces. IsCut (B.record_of bench.now) 0 point_count pieces) }
{
    let mut pieces = Spans::new(alloc);
    let mut first = 0;
    let mut shown = bench.record(Point::at(first));
    'points: for number in 1..point_count() {
        let next = bench.record(Point::at(number));
        if !shown.is_same(next) {
            pieces.push(span(first, number - 1))?;
            first = number;
            shown = next;
        }
    }
    pieces.push(span(first, point_count() - 1))?;
    Ok(pieces)
}

/// The span from one number to another.
fn span(first: u32, last: u32) -> Span
    requires ordered { first ≤ last }
    requires below { last < 1114112 }
    ensures { result ≡ record { lo = first; hi = last } }
{
    Span::between(Point::at(first), Point::at(last))
}
