//! The records of all code points as they were before a change.

ghost use Rattle.std.specs.Prelude.{◌≡◌, map, IfOk, OnOk, OnErr};
ghost use Rattle.range_table.specs.Values.{SameValues};
ghost use Rattle.record_table.specs.Records.{record_next};
ghost use Rattle.ucd_points.specs.Limits.{point_count};
ghost use Rattle.ucd_model.specs.Cuts.{IsCut};
ghost use Rattle.ucd_model.specs.Records.{kept_record};
ghost use Rattle.record_lines.specs.Earlier.{earlier_record, updated};

use record_table::{RecordTable, copied_record};
use std::alloc::Global;
use ucd_model::{Memory, Point, Record, Records, Span, equal_record_spans};

/// The records of all code points as they were, kept beside a bench that goes on.
#[derive(Drop)]
pub struct EarlierRecords {
    table: RecordTable,
}

impl EarlierRecords {
    /// The records of a bench. A record is held once for neighbours that have it.
    ///
    /// - `Memory`: memory ran out.
    pub fn of<B: Records>(alloc: Global, bench: &B) -> Result<EarlierRecords, Memory>
        ensures { IfOk result (λ earlier. SameValues (earlier_record earlier)
            (B.record_of bench.now)) }
    {
        let pieces = equal_record_spans(alloc, bench)?;
        let mut table = filled(alloc, bench)?;
        put_pieces(alloc, bench, pieces.as_slice(), &mut table)?;
        table.commit();
        Ok(EarlierRecords { table })
    }

    /// Makes the records of some code points those of a bench. All others stay. If these are the code points of which the records
    /// differ, all are those of the bench then (`following_catches_up`). It takes steps by the number of these code points.
    ///
    /// - `Memory`: memory ran out. All records stay.
    pub fn follow<B: Records>(
        &mut self,
        alloc: Global,
        bench: &B,
        changed: &[Point],
    ) -> Result<(), Memory>
        ensures ok { OnOk result (SameValues (earlier_record self.new)
            (updated changed.now (B.record_of bench.now) (earlier_record self.old))) }
        ensures err { OnErr result
            (SameValues (earlier_record self.new) (earlier_record self.old)) }
    {
        let records = copies(alloc, bench, changed)?;
        self.table.discard();
        self.table.prepare(changed, records)?;
        self.table.commit();
        self.table.sweep();
        Ok(())
    }
}

impl Records for EarlierRecords {
    ghost record_of = { earlier_record };

    fn record(&self, c: Point) -> &Record {
        self.table.record(c)
    }
}

/// The table in which all code points have the record of the first one.
///
/// - `Memory`: memory ran out.
fn filled<B: Records>(alloc: Global, bench: &B) -> Result<RecordTable, Memory> {
    let first = copied_record(alloc, bench.record(Point::at(0)))?;
    RecordTable::filled(alloc, first)
}

/// Gives the code points of each piece of a bench their record next.
///
/// - `Memory`: memory ran out. Some may have it then.
fn put_pieces<B: Records>(
    alloc: Global,
    bench: &B,
    pieces: &[Span],
    table: &mut RecordTable,
) -> Result<(), Memory>
    requires { IsCut (B.record_of bench.now) 0 point_count pieces.now }
    ensures { OnOk result (SameValues (record_next table.new) (B.record_of bench.now)) }
{
    let mut end = 0;
    'pieces: for piece in pieces {
        let record = copied_record(alloc, bench.record(piece.lo))?;
        table.prepare_span(*piece, record)?;
        end = piece.last() + 1;
    }
    let _ = end;
    Ok(())
}

/// The records of some code points of a bench, in their order.
///
/// - `Memory`: memory ran out.
fn copies<B: Records>(alloc: Global, bench: &B, points: &[Point]) -> Result<Vec<Record>, Memory>
    ensures { IfOk result (λ records. map kept_record records.items
        ≡ map (B.record_of bench.now) points.now) }
{
    let mut records = Vec::new(alloc);
    'points: for point in points {
        records.push(copied_record(alloc, bench.record(*point))?)?;
    }
    Ok(records)
}
