//! The run of the program.

ghost use Rattle.std.specs.Prelude.{◌≡◌, IsTrue};
ghost use Rattle.run_endings.specs.Ends.{HasRoom, Plans};
ghost use Rattle.run_endings.specs.Promises.{Promises, shelf_seen, sink_seen};
ghost use Rattle.shelf_io.specs.Contents.{SameContents};
ghost use Rattle.ucdshop_look_core.specs.Run.{ucdshop_look};

use crate::command::command_of;
use crate::planning::prepare;
use crate::printed::USAGE;
use run_endings::{Plan, Status, Stop, end_run};
use shelf_io::{Shelf, Sink};
use std::alloc::Global;
use std::marker::Brand;
use std::sync::ledger::{Blank, Ledger};
use ucd_model::{Steps, Texts};

/// Runs the program on its words, without the program's name: reads what they name from the shelf, and tells what it comes
/// to, in one text, to the sink. It writes nothing to the shelf, whatever its status.
///
/// The words are `ask DATA SET ..` with 1 to 64 questions, each of one line, `show DATA POINT ..` with 1 to 64 code points,
/// `check DATA [SCRIPT [PREVIOUS]]`, or `changes DATA SCRIPT`. All files are read before any is judged, and the whole text is made
/// before it is printed. If the sink fails half way, what was printed is a beginning of it, and the status is [`Status::WriteFault`].
///
/// What is promised is what every program promises that ends by [`end_run`], of this program: `ucdshop_look` in `specs/Run.antt`.
pub fn run_look<S: Shelf, K: Sink>(
    alloc: Global,
    words: &Texts,
    shelf: &mut S,
    out: &mut K,
) -> Status
    ensures run { Promises ucdshop_look words.now (shelf_seen S.Shelf shelf.old shelf.new)
        (sink_seen K.Sink out.old out.new) result }
    ensures unchanged { IsTrue S.tells → SameContents (S.holds shelf.old) (S.holds shelf.new) }
{
    run_with_new_counter::<S, K, Brand>(alloc, words, shelf, out, Blank::new(1))
}

/// [`run_look`] with a new counter of the code points that are derived.
fn run_with_new_counter<S: Shelf, K: Sink, L: Ledger>(
    alloc: Global,
    words: &Texts,
    shelf: &mut S,
    out: &mut K,
    blank: Blank,
) -> Status
    requires name { blank.name ≡ L.name }
    requires parts { blank.parts ≡ L.parts }
    requires some { blank.parts ≡ 1 }
    ensures run { Promises ucdshop_look words.now (shelf_seen S.Shelf shelf.old shelf.new)
        (sink_seen K.Sink out.old out.new) result }
    ensures unchanged { IsTrue S.tells → SameContents (S.holds shelf.old) (S.holds shelf.new) }
{
    let mut steps = Steps::<L>::new(blank);
    let planned = plan_words(alloc, words, shelf, &mut steps);
    end_run(USAGE, planned, shelf, out)
}

/// Does all that the words ask for and that comes before a text is printed; `None` if they have no listed form.
fn plan_words<S: Shelf, L: Ledger>(
    alloc: Global,
    words: &Texts,
    shelf: &mut S,
    steps: &mut Steps<L>,
) -> Option<Result<Plan, Stop>>
    ensures plans { Plans ucdshop_look words.now result (shelf_seen S.Shelf shelf.old shelf.new) }
    ensures room { HasRoom result (S.spare shelf.new) }
{
    match command_of(words.as_slice()) {
        Some(command) => Some(prepare(alloc, command, shelf, steps)),
        None => None,
    }
}
