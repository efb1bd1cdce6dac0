//! The records of all code points, now and next.

ghost use Rattle.std.specs.Prelude.{◌≡◌, ◌≢◌, ℕ, ◌+◌, ◌<◌, ◌≤◌, Some, length, IfOk, IfSome, OnErr, OnOk};
ghost use Rattle.point_store.specs.SlotStore.{held};
ghost use Rattle.range_table.specs.Values.{SameValues, with_span};
ghost use Rattle.ucd_model.specs.Records.{kept_record};
ghost use Rattle.record_table.specs.Records.{place_next, place_now, record_next, record_now, written};

use crate::copy::copied_record;
use crate::witnesses::{Witnesses, slot_of};
use paged_table::PagedTable;
use point_store::{SlotStore, Store};
use std::alloc::Global;
use ucd_model::{Memory, Point, Record, Records, Span};

/// The records of all code points, twice: those now, and those next. `prepare` and `prepare_span` change what is next,
/// `commit` makes it what is now, and `discard` drops it.
///
/// A record is held once for neighbours that have it, if they got it one after another, and mostly once for all code points
/// that have it. Records that no code point has any more stay until [`RecordTable::sweep`] lets them go.
#[derive(Drop)]
pub struct RecordTable {
    records: HeldRecords,
    witnesses: Witnesses,
}

type HeldRecords = SlotStore<PagedTable, Record>;

impl RecordTable {
    /// The table in which all code points have a record, now and next.
    ///
    /// - `Memory`: memory ran out.
    pub fn filled(alloc: Global, value: Record) -> Result<RecordTable, Memory>
        ensures now { IfOk result
            (λ table. SameValues (record_now table) (λ _. kept_record value)) }
        ensures next { IfOk result
            (λ table. SameValues (record_next table) (λ _. kept_record value)) }
    {
        let witnesses = Witnesses::new(alloc)?;
        Ok(RecordTable {
            records: HeldRecords::filled(alloc, value)?,
            witnesses,
        })
    }

    /// The table in which all code points have a record, now and next. It has room for about so many records more, and for
    /// so many blocks of 256 code points whose records are not all equal, as far as there is memory for it: a table that
    /// grows by and by leaves holes in the heap.
    ///
    /// - `Memory`: memory ran out.
    pub fn with_room(
        alloc: Global,
        value: Record,
        records: usize,
        blocks: u32,
    ) -> Result<RecordTable, Memory>
        ensures now { IfOk result
            (λ table. SameValues (record_now table) (λ _. kept_record value)) }
        ensures next { IfOk result
            (λ table. SameValues (record_next table) (λ _. kept_record value)) }
    {
        let mut table = RecordTable::filled(alloc, value)?;
        table.records.reserve(records, blocks);
        Ok(table)
    }

    /// Gives back room that no record takes up, as far as a smaller block of memory can be had. What is now and next stays.
    pub fn shrink_to_fit(&mut self)
        ensures now { SameValues (record_now self.new) (record_now self.old) }
        ensures next { SameValues (record_next self.new) (record_next self.old) }
    {
        self.records.shrink_to_fit();
    }

    /// A copy with the same records, now and next. A record that is held once is held once in the copy.
    ///
    /// - `Memory`: memory ran out.
    pub fn copied(&self, alloc: Global) -> Result<RecordTable, Memory>
        ensures now { IfOk result (λ table. SameValues (record_now table) (record_now self.now)) }
        ensures next { IfOk result
            (λ table. SameValues (record_next table) (record_next self.now)) }
        ensures places_now { IfOk result (λ table. place_now table ≡ place_now self.now) }
        ensures places_next { IfOk result (λ table. place_next table ≡ place_next self.now) }
    {
        let witnesses = Witnesses::new(alloc)?;
        let records = self
            .records
            .copied(alloc, |record| copied_record(alloc, record))?;
        Ok(RecordTable { records, witnesses })
    }

    /// The last code point of the stretch of equal records that a code point lies in now. It takes time in proportion
    /// to the stretches of the table of places that it passes: each ends where a record is held at another place, or at
    /// the end of a block of 256 code points.
    pub fn last_alike(&self, c: Point) -> Point
        ensures from { c ≤ result }
        ensures inside { result < 1114112 }
        ensures same { (d : ℕ) → c ≤ d → d ≤ result
            → record_now self.now d ≡ record_now self.now c }
        ensures ends { result + 1 < 1114112
            → record_now self.now (result + 1) ≢ record_now self.now c }
    {
        let first = self.records.get(c);
        let mut last = self.records.last_of_stretch(c);
        'stretches: while last.number() + 1 < Point::COUNT {
            let next = Point::at(last.number() + 1);
            if !self.records.get(next).is_same(first) {
                break;
            }
            last = self.records.last_of_stretch(next);
        }
        last
    }

    /// Gives the code points of a span a record next. What is now stays.
    ///
    /// - `Memory`: memory ran out. What is next stays too.
    pub fn prepare_span(&mut self, span: Span, value: Record) -> Result<(), Memory>
        ensures now { SameValues (record_now self.new) (record_now self.old) }
        ensures ok { OnOk result (SameValues (record_next self.new)
            (with_span (record_next self.old) span.lo span.hi (kept_record value))) }
        ensures err { OnErr result (SameValues (record_next self.new) (record_next self.old)) }
    {
        let slot = slot_of(&value);
        match place_of(&self.records, span, self.witnesses.point(slot), &value) {
            Some(place) => self.records.prepare_held(span, place)?,
            None => self.records.prepare(span, value)?,
        }
        self.witnesses.put(slot, span.lo);
        Ok(())
    }

    /// Gives code points these records next, in order; all others keep those that they have. Nothing may have been
    /// prepared before. It takes steps in proportion to the number of code points.
    ///
    /// - `Memory`: memory ran out. What is next stays too.
    pub fn prepare(&mut self, points: &[Point], records: Vec<Record>) -> Result<(), Memory>
        requires still { SameValues (record_next self.old) (record_now self.old) }
        requires lengths { length records.items ≡ length points.now }
        ensures now { SameValues (record_now self.new) (record_now self.old) }
        ensures ok { OnOk result (SameValues (record_next self.new)
            (written points.now records.items (record_now self.old))) }
        ensures err { OnErr result (SameValues (record_next self.new) (record_next self.old)) }
    {
        match self.prepare_all(points, records) {
            Ok(()) => Ok(()),
            Err(stop) => {
                self.discard();
                Err(stop)
            }
        }
    }

    /// What `prepare` does.
    ///
    /// - `Memory`: memory ran out. Some of the records may be prepared.
    fn prepare_all(&mut self, points: &[Point], records: Vec<Record>) -> Result<(), Memory>
        requires still { SameValues (record_next self.old) (record_now self.old) }
        requires lengths { length records.items ≡ length points.now }
        ensures now { SameValues (record_now self.new) (record_now self.old) }
        ensures ok { OnOk result (SameValues (record_next self.new)
            (written points.now records.items (record_now self.old))) }
    {
        let mut at = 0;
        'records: for record in records {
            self.prepare_span(Span::one(points[at]), record)?;
            at += 1;
        }
        Ok(())
    }

    /// What is next becomes now, and stays next. It takes no memory.
    pub fn commit(&mut self)
        ensures committed { SameValues (record_now self.new) (record_next self.old) }
        ensures next { SameValues (record_next self.new) (record_next self.old) }
    {
        self.records.commit();
    }

    /// If many records were prepared since this was done last, lets go of those that no code point has any more, now or
    /// next, as far as there is memory to look for them. What is now and next stays.
    pub fn sweep(&mut self)
        ensures now { SameValues (record_now self.new) (record_now self.old) }
        ensures next { SameValues (record_next self.new) (record_next self.old) }
    {
        self.records.sweep();
    }

    /// What is now becomes next. It takes no memory.
    pub fn discard(&mut self)
        ensures now { SameValues (record_now self.new) (record_now self.old) }
        ensures discarded { SameValues (record_next self.new) (record_now self.old) }
    {
        self.records.discard();
    }
}

impl Records for RecordTable {
    ghost record_of = { record_now };

    fn record(&self, c: Point) -> &Record {
        self.records.get(c)
    }
}

/// The place of a record, if the code point in front of a span or a witness has it next.
fn place_of(records: &HeldRecords, span: Span, witness: Point, value: &Record) -> Option<u64>
    ensures { IfSome result (λ place. held records.now place ≡ Some value.now) }
{
    if span.first() > 0 {
        let before = Point::at(span.first() - 1);
        if let Some(place) = place_at(records, before, value) {
            return Some(place);
        }
    }
    place_at(records, witness, value)
}

/// The place of a record, if a code point has it next.
fn place_at(records: &HeldRecords, c: Point, value: &Record) -> Option<u64>
    ensures { IfSome result (λ place. held records.now place ≡ Some value.now) }
{
    if records.get_next(c).is_same(value) {
        Some(records.place_next(c))
    } else {
        None
    }
}
