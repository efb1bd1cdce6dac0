//! A shelf in memory that never fails.

ghost use Rattle.std.specs.Prelude.{◌≡◌, ◌+◌, ◌≤◌, [], true, OnOk, OnErr, option_copied};
ghost use Rattle.shelf_io.specs.Contents.{ReplacedAt};
ghost use Rattle.shelf_io.specs.Folders.{no_folder, held_in};

use crate::memory_files::MemoryFiles;
use crate::shelf::{Failed, Found, ReadStop, Shelf};
use std::alloc::Global;
use std::marker::Model;
use ucd_points::{Memory, Text};

/// A shelf in memory that tells what it holds. Both its counts of faults are always 0, so that no read
/// and no write of it fails.
#[derive(Drop)]
pub struct PerfectShelf {
    files: MemoryFiles,
}

impl Model for PerfectShelf {
    ghost use Rattle.shelf_io.specs.Folders.{Folder};

    ghost Value = { Folder };

    ghost view = { λ a. a.files };
}

impl PerfectShelf {
    /// A shelf that holds nothing. It takes no memory.
    pub fn new(alloc: Global) -> PerfectShelf
        ensures { result ≡ no_folder }
    {
        PerfectShelf {
            files: MemoryFiles::new(alloc),
        }
    }

    /// Replaces the bytes of this path by a copy of these, and leaves every other path.
    ///
    /// - `Memory`: memory ran out. Nothing changes.
    pub fn place(&mut self, path: &[u8], bytes: &[u8]) -> Result<(), Memory>
        ensures ok { OnOk result (ReplacedAt path.now bytes.now (held_in self.old)
            (held_in self.new)) }
        ensures spare_for_one { self.old.spare ≤ self.new.spare + 1 }
        ensures err { OnErr result (self.new ≡ self.old) }
    {
        self.files.place(path, bytes)
    }

    /// The bytes of this path, or `None` if it is not held.
    pub fn held(&self, path: &[u8]) -> Option<&[u8]>
        ensures { option_copied result ≡ held_in self.now path.now }
    {
        self.files.held(path)
    }
}

impl Shelf for PerfectShelf {
    ghost tells = { true };

    ghost holds = { held_in };

    ghost read_faults = { λ _. 0 };

    ghost write_faults = { λ _. 0 };

    ghost tells_failed = { true };

    ghost last_failed = { λ _. [] };

    ghost spare = { λ shelf. shelf.spare };

    fn read(&mut self, path: &[u8], most: usize, into: &mut Vec<u8>) -> Result<Found, ReadStop> {
        self.files.read(path, most, into)
    }

    fn room(&mut self, writes: usize) -> Result<(), Memory> {
        self.files.room(writes)
    }

    fn write(&mut self, path: Text, bytes: Text) -> Result<(), Failed> {
        self.files.put(path, bytes);
        Ok(())
    }
}
