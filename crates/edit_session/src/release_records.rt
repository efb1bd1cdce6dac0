//! A release and its records, without the facts that they are derived from.

ghost use Rattle.std.specs.Prelude.{◌≡◌, IfOk};
ghost use Rattle.std.specs.List.{All};
ghost use Rattle.record_table.specs.Records.{record_now};
ghost use Rattle.ucd_model.specs.Cuts.{IsCut};
ghost use Rattle.ucd_points.specs.Limits.{point_count};
ghost use Rattle.edit_session.specs.Benches.{bench_record, EndsAlike};
ghost use Rattle.edit_session.specs.FirstRecords.{SameRecords};

use crate::pieces::pieces_of;
use record_table::RecordTable;
use release_rows::Release;
use std::alloc::Global;
use std::marker::Model;
use ucd_model::{Memory, Point, Record, Records, Spans};

/// What is left of a bench whose tables of facts were let go: its release and the records of all code points. It serves who only
/// looks records up. Contracts see the items of the release's files, which give the records.
#[derive(Drop)]
pub struct ReleaseRecords {
    release: Release,
    records: RecordTable,
}

impl Model for ReleaseRecords {
    ghost use Rattle.record_table.specs.Records.{record_now};
    ghost use Rattle.release_rows.specs.Releases.{ReleaseItems};
    ghost use Rattle.edit_session.specs.Benches.{bench_record};
    ghost use Rattle.edit_session.specs.FirstRecords.{SameRecords};

    ghost Value = { ReleaseItems };

    ghost view = { λ r. r.release };

    ghost invariant = { λ r. SameRecords (record_now r.records) (bench_record r.release) };
}

impl ReleaseRecords {
    /// A release with its records.
    pub(crate) fn of(release: Release, records: RecordTable) -> ReleaseRecords
        requires { SameRecords (record_now records) (bench_record release) }
        ensures { result ≡ release }
    {
        ReleaseRecords { release, records }
    }

    /// The release.
    pub fn release(&self) -> &Release
        ensures { result.now ≡ self.now }
    {
        &self.release
    }

    /// Spans that follow one another over all code points, in each of which the records are equal, and each as long as can be.
    ///
    /// - `Memory`: memory ran out.
    pub fn equal_record_spans(&self, alloc: Global) -> Result<Spans, Memory>
        ensures cut { IfOk result
            (λ pieces. IsCut (bench_record self.now) 0 point_count pieces) }
        ensures ends { IfOk result (λ pieces. All (EndsAlike (bench_record self.now)) pieces) }
    {
        pieces_of(alloc, &self.records)
    }
}

impl Records for ReleaseRecords {
    ghost record_of = { bench_record };

    fn record(&self, c: Point) -> &Record {
        let _number = c.number();
        self.records.record(c)
    }
}
