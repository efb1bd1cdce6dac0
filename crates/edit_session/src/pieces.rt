//! Pieces of equal records.

ghost use Rattle.std.specs.Prelude.{ℕ, IfOk};
ghost use Rattle.std.specs.List.{All};
ghost use Rattle.record_table.specs.Records.{record_now};
ghost use Rattle.ucd_model.specs.Cuts.{IsCut};
ghost use Rattle.ucd_model.specs.Records.{Record};
ghost use Rattle.ucd_points.specs.Limits.{point_count};
ghost use Rattle.edit_session.specs.Benches.{EndsAlike};
ghost use Rattle.edit_session.specs.FirstRecords.{SameRecords};

use record_table::RecordTable;
use std::alloc::Global;
use ucd_model::{Memory, Point, Span, Spans};

/// Spans that follow one another over all code points, in each of which the records are equal, and each as long as can
/// be. Records are compared only where a stretch ends that is held as one.
///
/// - `Memory`: memory ran out.
pub fn pieces_of(alloc: Global, records: &RecordTable) -> Result<Spans, Memory>
    ensures cut { IfOk result (λ pieces. (R : ℕ → Record) → SameRecords (record_now records.now) R
        → IsCut R 0 point_count pieces) }
    ensures ends { IfOk result (λ pieces. (R : ℕ → Record) → SameRecords (record_now records.now) R
        → All (EndsAlike R) pieces) }
{
    let mut pieces = Spans::new(alloc);
    let mut number = 0;
    'pieces: while number < Point::COUNT {
        let lo = Point::at(number);
        let hi = records.last_alike(lo);
        pieces.push(Span { lo, hi })?;
        number = hi.number() + 1;
    }
    Ok(pieces)
}
