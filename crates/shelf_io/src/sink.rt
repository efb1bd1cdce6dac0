//! A sink takes bytes, one text after the other.

ghost use Rattle.std.specs.Prelude.{◌≡◌, ℕ, Bool, List, IsTrue, OnOk, OnErr, ◌++◌, ◌≤◌};
ghost use Rattle.shelf_io.specs.Counts.{Rose};
ghost use Rattle.shelf_io.specs.Contents.{AddsPrefix};

use crate::shelf::Failed;

/// Where bytes are put. A sink has two meanings: what was written, and its count of faults.
pub trait Sink {
    // whether sinks of this type tell what was written
    ghost tells: { Bool };

    // what was written
    ghost written: { Self → List ℕ };

    // how many puts failed
    ghost faults: { Self → ℕ };

    /// Appends all bytes.
    ///
    /// - `Failed`: the put failed. It comes only if the count of faults rose; a prefix of the bytes was then
    ///   appended.
    fn put(&mut self, bytes: &[u8]) -> Result<(), Failed>
        ensures ok { IsTrue tells → OnOk result (written self.new ≡ written self.old ++ bytes.now) }
        ensures err { IsTrue tells → OnErr result
            (AddsPrefix bytes.now (written self.old) (written self.new)) }
        ensures failed_only { OnErr result (Rose (faults self.old) (faults self.new)) }
        ensures faults_never_fall { faults self.old ≤ faults self.new };
}
