//! A shelf in memory, whose reads and writes can be made to fail.

ghost use Rattle.std.specs.Prelude.{◌≡◌, ◌+◌, ◌<◌, ◌≤◌, true, IsTrue, OnOk, OnErr, IsOk, Some, is_err, option_copied, length};
ghost use Rattle.shelf_io.specs.Counts.{failing_too, fails_next, passed, failed};
ghost use Rattle.shelf_io.specs.Contents.{ReplacedAt, OnlyPath};
ghost use Rattle.shelf_io.specs.Answers.{Reads, OnFound, OnAbsent, FailsExactly};
ghost use Rattle.shelf_io.specs.Folders.{new_view, after_read, held_in};

use crate::calls::CallPlan;
use crate::memory_files::MemoryFiles;
use crate::shelf::{Failed, Found, ReadStop, Shelf};
use std::alloc::Global;
use std::marker::Model;
use ucd_points::{Memory, Text};

/// A shelf in memory. It tells what it holds, and the path of its last failed read.
#[derive(Drop)]
pub struct MemoryShelf {
    files: MemoryFiles,
    reads: CallPlan,
    writes: CallPlan,
    last_failed: Text,
    alloc: Global,
}

impl Model for MemoryShelf {
    ghost use Rattle.shelf_io.specs.Folders.{MemoryView};

    ghost Value = { MemoryView };

    ghost view = { λ a. record { folder = a.files; reads = a.reads; writes = a.writes; last_failed = a.last_failed } };
}

impl MemoryShelf {
    /// A shelf that holds nothing, and whose reads and writes do not fail. It takes no memory.
    pub fn new(alloc: Global) -> MemoryShelf
        ensures { result ≡ new_view }
    {
        MemoryShelf {
            files: MemoryFiles::new(alloc),
            reads: CallPlan::new(alloc),
            writes: CallPlan::new(alloc),
            last_failed: Text::new(alloc),
            alloc,
        }
    }

    /// Replaces the bytes of this path by a copy of these, and leaves every other path. It counts as no write.
    ///
    /// - `Memory`: memory ran out. Nothing changes.
    pub fn place(&mut self, path: &[u8], bytes: &[u8]) -> Result<(), Memory>
        ensures ok { OnOk result
            (ReplacedAt path.now bytes.now (held_in self.old.folder) (held_in self.new.folder)) }
        ensures spare_for_one { self.old.folder.spare ≤ self.new.folder.spare + 1 }
        ensures rest_stays { self.new ≡ record self.old { folder = self.new.folder } }
        ensures err { OnErr result (self.new ≡ self.old) }
    {
        self.files.place(path, bytes)
    }

    /// The bytes of this path, or `None` if it is not held. It counts as no read.
    pub fn held(&self, path: &[u8]) -> Option<&[u8]>
        ensures { option_copied result ≡ held_in self.now.folder path.now }
    {
        self.files.held(path)
    }

    /// Makes the nth read fail, counted from 1 and from the making of the shelf. A number joins those that were given
    /// before. A read that ran out of memory does not count.
    ///
    /// - `Memory`: memory ran out. Nothing changes.
    pub fn fail_read(&mut self, nth: u32) -> Result<(), Memory>
        ensures ok { OnOk result
            (self.new ≡ record self.old { reads = failing_too nth self.old.reads }) }
        ensures err { OnErr result (self.new ≡ self.old) }
    {
        self.reads.fail_at(nth)
    }

    /// Makes the nth write fail, counted from 1 and from the making of the shelf. A number joins those that were given
    /// before.
    ///
    /// - `Memory`: memory ran out. Nothing changes.
    pub fn fail_write(&mut self, nth: u32) -> Result<(), Memory>
        ensures ok { OnOk result
            (self.new ≡ record self.old { writes = failing_too nth self.old.writes }) }
        ensures err { OnErr result (self.new ≡ self.old) }
    {
        self.writes.fail_at(nth)
    }
}

impl Shelf for MemoryShelf {
    ghost tells = { true };

    ghost holds = { λ shelf. held_in shelf.folder };

    ghost read_faults = { λ shelf. shelf.reads.faults };

    ghost write_faults = { λ shelf. shelf.writes.faults };

    ghost tells_failed = { true };

    ghost last_failed = { λ shelf. shelf.last_failed };

    ghost spare = { λ shelf. shelf.folder.spare };

    fn read(&mut self, path: &[u8], most: usize, into: &mut Vec<u8>) -> Result<Found, ReadStop>
        ensures contents { Reads result (held_in self.old.folder path.now) most into.new.items }
        ensures at_most { OnFound result (length into.new.items ≤ most) }
        ensures absent { OnAbsent result (into.new.items ≡ into.old.items) }
        ensures fails_exactly { FailsExactly result (fails_next self.old.reads) }
        ensures after { self.new ≡ after_read result path.now self.old }
        ensures read_faults_never_fall { self.old.reads.faults ≤ self.new.reads.faults }
    {
        if self.reads.fails_next() {
            let Ok(failed) = Text::of(self.alloc, path) else {
                return Err(ReadStop::Memory);
            };
            self.last_failed = failed;
            self.reads.count_failure();
            return Err(ReadStop::Failed);
        }
        let found = self.files.read(path, most, into)?;
        self.reads.count_success();
        Ok(found)
    }

    fn room(&mut self, writes: usize) -> Result<(), Memory>
        ensures ok { OnOk result (writes ≤ self.new.folder.spare) }
        ensures enough { writes ≤ self.old.folder.spare → IsOk result }
        ensures spare_never_falls { self.old.folder.spare ≤ self.new.folder.spare }
        ensures held_stays { self.new.folder.files ≡ self.old.folder.files }
        ensures rest_stays { self.new ≡ record self.old { folder = self.new.folder } }
        ensures err { OnErr result (self.new ≡ self.old) }
    {
        self.files.room(writes)
    }

    fn write(&mut self, path: Text, bytes: Text) -> Result<(), Failed>
        requires { 0 < self.old.folder.spare }
        ensures fails_exactly { is_err result ≡ fails_next self.old.writes }
        ensures ok { OnOk result (held_in self.new.folder path ≡ Some bytes) }
        ensures others { OnlyPath path (held_in self.old.folder) (held_in self.new.folder) }
        ensures counted { OnOk result (self.new.writes ≡ passed self.old.writes) }
        ensures err { OnErr result
            (self.new ≡ record self.old { writes = failed self.old.writes }) }
        ensures spare_for_one { self.old.folder.spare ≤ self.new.folder.spare + 1 }
        ensures reads_stay { self.new.reads ≡ self.old.reads }
        ensures write_faults_never_fall { self.old.writes.faults ≤ self.new.writes.faults }
        ensures last_failed_stays { self.new.last_failed ≡ self.old.last_failed }
    {
        if self.writes.fails_next() {
            self.writes.count_failure();
            return Err(Failed);
        }
        self.files.put(path, bytes);
        self.writes.count_success();
        Ok(())
    }
}
