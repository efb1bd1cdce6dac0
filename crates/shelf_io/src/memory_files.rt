//! Files in memory, found by their paths.

ghost use Rattle.std.specs.Prelude.{◌≡◌, ◌+◌, ◌<◌, ◌≤◌, OnOk, OnErr, IsOk, IfOk, bytes_eq, option_copied, position, length, false};
ghost use Rattle.shelf_io.specs.Contents.{ReplacedAt};
ghost use Rattle.shelf_io.specs.Answers.{Reads, OnFound, OnAbsent, FailsExactly};
ghost use Rattle.shelf_io.specs.Folders.{no_folder, held_in};

use crate::shelf::{Found, ReadStop};
use std::alloc::Global;
use std::marker::Model;
use ucd_points::{Memory, Text};

/// A file.
#[derive(Drop)]
pub struct File {
    /// The path, compared byte by byte.
    pub path: Text,
    /// What the file holds.
    pub bytes: Text,
}

/// Files. Contracts see what they hold, and for how many more there is room.
#[derive(Drop)]
pub struct MemoryFiles {
    files: Vec<File>,
    alloc: Global,
}

impl Model for MemoryFiles {
    ghost use Rattle.std.specs.Prelude.{◌-◌, vec_len, vec_capacity};
    ghost use Rattle.shelf_io.specs.Folders.{Folder};

    ghost Value = { Folder };

    ghost view = { λ a. record { files = a.files.items; spare = vec_capacity a.files - vec_len a.files } };
}

/// The place of the first file of this path, or `None` if there is none.
fn place_of(files: &[File], path: &[u8]) -> Option<usize>
    ensures { result ≡ position (λ file. bytes_eq file.path path.now) files.now }
{
    files.iter().position(|file| file.path.as_slice() == path)
}

impl MemoryFiles {
    /// No file. It takes no memory.
    pub fn new(alloc: Global) -> MemoryFiles
        ensures { result ≡ no_folder }
    {
        MemoryFiles {
            files: Vec::new(alloc),
            alloc,
        }
    }

    /// The bytes of this path, or `None` if it is not held.
    pub fn held(&self, path: &[u8]) -> Option<&[u8]>
        ensures { option_copied result ≡ held_in self.now path.now }
    {
        self.files
            .iter()
            .find(|file| file.path.as_slice() == path)
            .map(|file| file.bytes.as_slice())
    }

    /// Replaces `into` by the first `most` bytes of this path, and answers `Found`; or answers `Absent` if it is not
    /// held, and leaves `into` as it was.
    ///
    /// - `Memory`: memory ran out, and `into` holds anything. It is the only stop: no read fails.
    pub fn read(&self, path: &[u8], most: usize, into: &mut Vec<u8>) -> Result<Found, ReadStop>
        ensures contents { Reads result (held_in self.now path.now) most into.new.items }
        ensures at_most { OnFound result (length into.new.items ≤ most) }
        ensures absent { OnAbsent result (into.new.items ≡ into.old.items) }
        ensures never_fails { FailsExactly result false }
    {
        let Some(bytes) = self.held(path) else {
            return Ok(Found::Absent);
        };
        into.clear();
        let Ok(()) = into.extend_from_slice(&bytes[..most.min(bytes.len())]) else {
            return Err(ReadStop::Memory);
        };
        Ok(Found::Found)
    }

    /// Makes room for so many more files.
    ///
    /// - `Memory`: memory ran out. Nothing changes.
    pub fn room(&mut self, files: usize) -> Result<(), Memory>
        ensures ok { OnOk result (files ≤ self.new.spare) }
        ensures enough { files ≤ self.old.spare → IsOk result }
        ensures held_stays { self.new.files ≡ self.old.files }
        ensures spare_never_falls { self.old.spare ≤ self.new.spare }
        ensures err { OnErr result (self.new ≡ self.old) }
    {
        self.files.reserve(files)?;
        Ok(())
    }

    /// Replaces the bytes of this path, and leaves every other path. It takes no memory.
    pub fn put(&mut self, path: Text, bytes: Text)
        requires { 0 < self.old.spare }
        ensures replaced { ReplacedAt path bytes (held_in self.old) (held_in self.new) }
        ensures spare_for_one { self.old.spare ≤ self.new.spare + 1 }
    {
        let place = place_of(self.files.as_slice(), path.as_slice());
        let file = File { path, bytes };
        match place {
            Some(place) => self.files[place] = file,
            None => self.files.push_reserved(file),
        }
    }

    /// Replaces the bytes of this path by a copy of these, and leaves every other path.
    ///
    /// - `Memory`: memory ran out. What is held stays as it was.
    pub fn place(&mut self, path: &[u8], bytes: &[u8]) -> Result<(), Memory>
        ensures ok { OnOk result (ReplacedAt path.now bytes.now (held_in self.old)
            (held_in self.new)) }
        ensures spare_for_one { self.old.spare ≤ self.new.spare + 1 }
        ensures err { OnErr result (self.new ≡ self.old) }
    {
        let path = Text::of(self.alloc, path)?;
        let bytes = Text::of(self.alloc, bytes)?;
        self.room(1)?;
        self.put(path, bytes);
        Ok(())
    }
}
