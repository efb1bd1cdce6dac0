//! Edits of a source file: what is next is edited, and is then made what is now, or is dropped.

ghost use Rattle.std.specs.Prelude.{◌≡◌, Ok};
ghost use Rattle.std.specs.Result.{result_map_both};
ghost use Rattle.source_rows.specs.Faults.{row_or_fault};
ghost use Rattle.source_rows.specs.Keys.{key_of};
ghost use Rattle.release_rows.specs.Operations.{AnswersOp, IsOp, edited, op_file, row_spans, touched};
ghost use Rattle.release_rows.specs.Releases.{AreKept, committed, discarded};
ghost use Rattle.release_rows.specs.declared.operation.Op.TheVariants.{Add, Change, Withdraw};

use crate::edits::{gap_place_for_leads, put_in};
use crate::file_text::FileText;
use crate::key_search::{added_gap, changed_spot, search_row, withdrawn_spot};
use crate::noted::{has_hashes, hashes_of};
use crate::op_spans::{both_spans, entry_spans, row_spans};
use crate::operation::{Op, OpStop};
use crate::stored_row::store_row;
use source_rows::{Key, row_key};
use std::alloc::Global;
use ucd_facts::{Row, Spans};
use ucd_lines::Ending;

/// Edits. What is now stays.
impl FileText {
    /// Gathers the groups and the keys of the rows, if those of the file are noted and were not gathered yet.
    fn gather_hashes(&mut self, alloc: Global)
        ensures { self.new ≡ self.old }
    {
        if has_hashes(self.file) && self.seen_hashes.are_unknown() {
            self.seen_hashes = hashes_of(alloc, self.file, self.text.as_slice(), &self.items);
        }
    }

    /// Adds a row next.
    ///
    /// - `Key(K1)`: a row has its key.
    /// - `Key(K4)`: it overlaps a row.
    /// - `Memory`: memory ran out, the text would have 2^32 bytes or more, or 2^32 items were added.
    fn add(&mut self, alloc: Global, row: &Row, bytes: &[u8]) -> Result<Spans, OpStop>
        requires reads { row_or_fault self.old.file bytes.now ≡ Ok row.now }
        ensures file { self.new.file ≡ self.old.file }
        ensures now { self.new.now ≡ self.old.now }
        ensures answer { let op = Add self.old.file row.now bytes.now in
            AnswersOp result (edited self.old.next op)
            (touched self.old.next op) self.old.next self.new.next }
    {
        let key = row_key(alloc, self.file, row)?;
        let spans = row_spans(alloc, row)?;
        self.put_row(alloc, row, &key, bytes)?;
        Ok(spans)
    }

    /// Puts a row that has this key in next, at its place.
    ///
    /// - `Key(K1)`: a row has its key.
    /// - `Key(K4)`: it overlaps a row.
    /// - `Memory`: memory ran out, the text would have 2^32 bytes or more, or 2^32 items were added.
    fn put_row(&mut self, alloc: Global, row: &Row, key: &Key, bytes: &[u8]) -> Result<(), OpStop>
        requires key { key.now ≡ key_of self.old.file row.now }
        requires reads { row_or_fault self.old.file bytes.now ≡ Ok row.now }
        ensures file { self.new.file ≡ self.old.file }
        ensures now { self.new.now ≡ self.old.now }
        // It answers as an operation that touches the code points of the row.
        ensures answer { AnswersOp (result_map_both (λ _. row_spans row.now) (λ stop. stop) result)
            (edited self.old.next (Add self.old.file row.now bytes.now)) (row_spans row.now)
            self.old.next self.new.next }
    {
        let Some(added) = self.added.checked_add(1) else {
            return Err(OpStop::Memory);
        };
        let gap = {
            let search = search_row(self.file, self.text.as_slice(), row, key, bytes);
            added_gap(&self.items, &self.seen_hashes, &self.leads, &search)?
        };
        let count = gap_place_for_leads(self.file, &self.items, gap);
        self.whole = false;
        let entry = store_row(
            &mut self.text,
            &mut self.seen_hashes,
            self.file,
            row,
            bytes,
            Ending::Lf,
        )?;
        put_in(&mut self.items, gap, entry)?;
        self.added = added;
        let search = search_row(self.file, self.text.as_slice(), row, key, bytes);
        self.leads.note_added_row(alloc, &search, count, entry.item);
        Ok(())
    }

    /// Puts a row next in the place of the one that has its key.
    ///
    /// - `Key(K2)`: no row has its key.
    /// - `Key(K4)`: it overlaps another row.
    /// - `Memory`: memory ran out, or the text would have 2^32 bytes or more.
    fn change(&mut self, alloc: Global, row: &Row, bytes: &[u8]) -> Result<Spans, OpStop>
        requires reads { row_or_fault self.old.file bytes.now ≡ Ok row.now }
        requires kept { AreKept self.old.file self.old.next }
        ensures file { self.new.file ≡ self.old.file }
        ensures now { self.new.now ≡ self.old.now }
        ensures answer { let op = Change self.old.file row.now bytes.now in
            AnswersOp result (edited self.old.next op)
            (touched self.old.next op) self.old.next self.new.next }
    {
        let key = row_key(alloc, self.file, row)?;
        self.replace_row(alloc, row, &key, bytes)
    }

    /// Puts a row next in the place of the one that has this key, which is its own too.
    ///
    /// - `Key(K2)`: no row has its key.
    /// - `Key(K4)`: it overlaps another row.
    /// - `Memory`: memory ran out, or the text would have 2^32 bytes or more.
    fn replace_row(
        &mut self,
        alloc: Global,
        row: &Row,
        key: &Key,
        bytes: &[u8],
    ) -> Result<Spans, OpStop>
        requires key { key.now ≡ key_of self.old.file row.now }
        requires reads { row_or_fault self.old.file bytes.now ≡ Ok row.now }
        requires kept { AreKept self.old.file self.old.next }
        ensures file { self.new.file ≡ self.old.file }
        ensures now { self.new.now ≡ self.old.now }
        ensures answer { let op = Change self.old.file row.now bytes.now in
            AnswersOp result (edited self.old.next op)
            (touched self.old.next op) self.old.next self.new.next }
    {
        let spot = {
            let search = search_row(self.file, self.text.as_slice(), row, key, bytes);
            changed_spot(&self.items, &search)?
        };
        let old = self.items.get(spot);
        let spans = both_spans(alloc, self.file, &old, row)?;
        self.whole = false;
        self.leads.clear();
        let entry = store_row(
            &mut self.text,
            &mut self.seen_hashes,
            self.file,
            row,
            bytes,
            old.item.ending,
        )?;
        self.items.replace(spot, entry)?;
        Ok(spans)
    }

    /// Takes the row that has the key out of what is next.
    ///
    /// - `Key(K2)`: no row has it.
    /// - `Memory`: memory ran out.
    fn withdraw(&mut self, alloc: Global, key: &Key) -> Result<Spans, OpStop>
        requires kept { AreKept self.old.file self.old.next }
        ensures file { self.new.file ≡ self.old.file }
        ensures now { self.new.now ≡ self.old.now }
        ensures answer { let op = Withdraw self.old.file key.now in
            AnswersOp result (edited self.old.next op)
            (touched self.old.next op) self.old.next self.new.next }
    {
        let spot = withdrawn_spot(&self.items, self.file, self.text.as_slice(), key)?;
        let old = self.items.get(spot);
        let spans = entry_spans(alloc, self.file, &old)?;
        self.whole = false;
        self.leads.clear();
        self.items.remove(spot)?;
        Ok(spans)
    }

    /// Carries out an operation on this file, next, and answers what code points it touches.
    ///
    /// - `Key(rule)`: the rule that it breaks.
    /// - `Memory`: memory ran out, or the text would have 2^32 bytes or more.
    ///
    /// After either what is next is as it was.
    pub fn prepare(&mut self, alloc: Global, op: &Op) -> Result<Spans, OpStop>
        requires op { IsOp op.now }
        requires here { op_file op.now ≡ self.old.file }
        requires kept { AreKept self.old.file self.old.next }
        ensures file { self.new.file ≡ self.old.file }
        ensures now { self.new.now ≡ self.old.now }
        ensures answer { AnswersOp result (edited self.old.next op.now)
            (touched self.old.next op.now) self.old.next self.new.next }
    {
        match op {
            Op::Add { row, bytes, .. } => {
                self.gather_hashes(alloc);
                self.add(alloc, row, bytes.as_slice())
            }
            Op::Change { row, bytes, .. } => self.change(alloc, row, bytes.as_slice()),
            Op::Withdraw { key, .. } => self.withdraw(alloc, key),
        }
    }

    /// Makes what is next what is now. It takes no memory.
    pub fn commit(&mut self)
        ensures { self.new ≡ committed self.old }
    {
        self.items.commit();
    }

    /// Makes what is now what is next. It takes no memory.
    pub fn discard(&mut self)
        ensures { self.new ≡ discarded self.old }
    {
        if self.items.is_edited() {
            self.leads.clear();
            self.items.discard();
        }
    }
}
