//! Ways back of a source file: its items next are made those of before, byte for byte.

ghost use Rattle.std.specs.Prelude.{◌≡◌, ◌<◌, ◌≤◌, length, OnOk};
ghost use Rattle.std.specs.List.{insert, remove};
ghost use Rattle.release_rows.specs.Back.{LeadsOn};
ghost use Rattle.release_rows.specs.StoredItems.{stored_at, IsStored};

use crate::copy::copy_entry;
use crate::edits::put_at;
use crate::file_text::FileText;
use crate::noted::note_hashes;
use crate::patch::Patch;
use crate::stored_item::{StoredItem, content_in};
use crate::way_back::put_way_back;
use part_list::Entry;
use std::alloc::Global;
use ucd_facts::Memory;

/// Ways back. What is now stays.
impl FileText {
    /// Puts the splices that lead from the items next back to those now behind others.
    ///
    /// - `Memory`: memory ran out, or the items of a splice have 2^32 bytes or more.
    pub fn put_way_back(&self, alloc: Global, patch: &mut Patch) -> Result<(), Memory>
        ensures { OnOk result (LeadsOn patch.old patch.new self.now.file self.now.next
            self.now.now) }
    {
        put_way_back(alloc, self.file, self.text.as_slice(), &self.items, patch)
    }

    /// Takes the item at a place out of what is next.
    ///
    /// - `Memory`: memory ran out. What is next may be anything then.
    pub fn take_out(&mut self, at: usize) -> Result<(), Memory>
        requires { at < length self.old.next }
        ensures file { self.new.file ≡ self.old.file }
        ensures now { self.new.now ≡ self.old.now }
        ensures next { OnOk result (self.new.next ≡ remove self.old.next at) }
    {
        let Some(found) = self.items.at(at) else {
            unreachable!()
        };
        self.whole = false;
        self.leads.clear();
        self.items.remove(found)?;
        Ok(())
    }

    /// Puts a copy of an item of another text in at a place, next.
    ///
    /// - `Memory`: memory ran out, or the text would have 2^32 bytes or more. What is next may be anything then.
    pub fn put_copy(
        &mut self,
        at: usize,
        from: &[u8],
        entry: &Entry<StoredItem>,
    ) -> Result<(), Memory>
        requires stored { IsStored self.old.file from.now entry.now }
        requires within { at ≤ length self.old.next }
        ensures file { self.new.file ≡ self.old.file }
        ensures now { self.new.now ≡ self.old.now }
        ensures next { OnOk result
            (self.new.next ≡ insert self.old.next at
            (stored_at self.old.file from.now entry.now)) }
    {
        let Some(added) = self.added.checked_add(1) else {
            return Err(Memory);
        };
        self.whole = false;
        self.leads.clear();
        note_hashes(
            &mut self.seen_hashes,
            self.file,
            entry.code,
            content_in(from, entry.item),
        );
        let copy = copy_entry(self.file, from, entry, &mut self.text)?;
        put_at(&mut self.items, at, copy)?;
        self.added = added;
        Ok(())
    }
}
