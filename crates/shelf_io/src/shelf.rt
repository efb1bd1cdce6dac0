//! A shelf holds files by their paths.

ghost use Rattle.std.specs.Prelude.{◌≡◌, ℕ, Bool, List, Option, Some, IsTrue, OnOk, OnErr, length, ◌+◌, ◌<◌, ◌≤◌};
ghost use Rattle.shelf_io.specs.Counts.{Rose};
ghost use Rattle.shelf_io.specs.Contents.{SameContents, OnlyPath};
ghost use Rattle.shelf_io.specs.Answers.{Reads, OnFound, OnAbsent, OnReadFailed, failed_after};

use ucd_points::{Memory, Text};

/// A write or a put failed.
#[derive(Clone, Copy, Debug, PartialEq, Eq)]
pub struct Failed;

/// Whether a path was there to be read.
#[derive(Clone, Copy, Debug, PartialEq, Eq)]
pub enum Found {
    /// The path is held, and its bytes were read.
    Found,
    /// The path is not held.
    Absent,
}

/// Why a read stopped.
#[derive(Clone, Copy, Debug, PartialEq, Eq)]
pub enum ReadStop {
    /// The read failed, and was counted as a fault.
    Failed,
    /// Memory ran out.
    Memory,
}

/// Files by their paths. A shelf has five meanings: what it holds, its counts of read faults and of
/// write faults, the path of its last failed read, and for how many writes it has room.
pub trait Shelf {
    // whether shelves of this type tell what they hold
    ghost tells: { Bool };

    // the bytes of each path that is held
    ghost holds: { Self → List ℕ → Option (List ℕ) };

    // how many reads failed
    ghost read_faults: { Self → ℕ };

    // how many writes failed
    ghost write_faults: { Self → ℕ };

    // whether shelves of this type tell the path of their last failed read
    ghost tells_failed: { Bool };

    // the path of the last failed read, empty before the first one
    ghost last_failed: { Self → List ℕ };

    // the number of writes for which there is room
    ghost spare: { Self → ℕ };

    /// Replaces `into` by the first `most` bytes of what `path` holds, and answers `Found`; or answers `Absent` if
    /// the path is not held, and leaves `into` as it was.
    ///
    /// - `Failed`: the read failed. It comes only if the count of read faults rose.
    /// - `Memory`: memory ran out.
    ///
    /// After either `into` holds anything.
    fn read(&mut self, path: &[u8], most: usize, into: &mut Vec<u8>) -> Result<Found, ReadStop>
        ensures contents { IsTrue tells
            → Reads result (holds self.old path.now) most into.new.items }
        ensures at_most { OnFound result (length into.new.items ≤ most) }
        ensures absent { OnAbsent result (into.new.items ≡ into.old.items) }
        ensures failed_only { OnReadFailed result
            (Rose (read_faults self.old) (read_faults self.new)) }
        ensures names_failed { IsTrue tells_failed →
            last_failed self.new ≡ failed_after result path.now (last_failed self.old) }
        ensures held_stays { IsTrue tells → SameContents (holds self.old) (holds self.new) }
        ensures read_faults_never_fall { read_faults self.old ≤ read_faults self.new }
        ensures write_faults_stay { write_faults self.new ≡ write_faults self.old }
        ensures spare_stays { spare self.new ≡ spare self.old };

    /// Makes room for so many writes.
    ///
    /// - `Memory`: memory ran out. Nothing changes.
    fn room(&mut self, writes: usize) -> Result<(), Memory>
        ensures ok { OnOk result (writes ≤ spare self.new) }
        ensures spare_never_falls { spare self.old ≤ spare self.new }
        ensures err { OnErr result (spare self.new ≡ spare self.old) }
        ensures held_stays { IsTrue tells → SameContents (holds self.old) (holds self.new) }
        ensures read_faults_stay { read_faults self.new ≡ read_faults self.old }
        ensures write_faults_stay { write_faults self.new ≡ write_faults self.old }
        ensures last_failed_stays { IsTrue tells_failed →
            last_failed self.new ≡ last_failed self.old };

    /// Replaces the bytes of `path`, and leaves every other path as it is. It takes no memory.
    ///
    /// - `Failed`: the write failed. It comes only if the count of write faults rose; that path then holds anything,
    ///   or is absent.
    fn write(&mut self, path: Text, bytes: Text) -> Result<(), Failed>
        requires { 0 < spare self.old }
        ensures ok { IsTrue tells → OnOk result (holds self.new path ≡ Some bytes) }
        ensures others { IsTrue tells → OnlyPath path (holds self.old) (holds self.new) }
        ensures failed_only { OnErr result (Rose (write_faults self.old) (write_faults self.new)) }
        ensures spare_for_one { spare self.old ≤ spare self.new + 1 }
        ensures read_faults_stay { read_faults self.new ≡ read_faults self.old }
        ensures write_faults_never_fall { write_faults self.old ≤ write_faults self.new }
        ensures last_failed_stays { IsTrue tells_failed →
            last_failed self.new ≡ last_failed self.old };
}
