//! The run of the program on a shelf that never fails.

ghost use Rattle.std.specs.Prelude.{◌≡◌, ◌≢◌};
ghost use Rattle.shelf_io.specs.Counts.{Rose};
ghost use Rattle.shelf_io.specs.Folders.{held_in};
ghost use Rattle.run_endings.specs.Outcome.{WrittenWhole};
ghost use Rattle.ucdshop_jobs.specs.Run.{ucdshop};

use crate::program::run;
use run_endings::Status;
use shelf_io::{PerfectShelf, Sink};
use std::alloc::Global;
use ucd_model::Texts;

/// [`run`] on a shelf in memory that never fails. There no read fails, and [`Status::WriteFault`] says only that the
/// sink failed: every file is then written.
pub fn run_perfectly<K: Sink>(
    alloc: Global,
    words: &Texts,
    shelf: &mut PerfectShelf,
    out: &mut K,
) -> Status
    ensures never_read_fault { result ≢ Status.ReadFault }
    ensures by_the_sink { result ≡ Status.WriteFault → Rose (K.faults out.old) (K.faults out.new)
        × WrittenWhole ucdshop words.now (held_in shelf.old) (held_in shelf.new) }
{
    run(alloc, words, shelf, out)
}
