//! The run of the program.

ghost use Rattle.std.specs.Prelude.{◌≡◌};
ghost use Rattle.run_endings.specs.Ends.{HasRoom, Plans};
ghost use Rattle.run_endings.specs.Promises.{Promises, shelf_seen, sink_seen};
ghost use Rattle.ucdshop_more_core.specs.Order.{PlansInOrder, ReadsInOrder};
ghost use Rattle.ucdshop_more_core.specs.Run.{ucdshop_more};

use crate::command::command_of;
use crate::planning::prepare;
use crate::summary_lines::USAGE;
use run_endings::{Plan, Status, Stop, end_run};
use shelf_io::{Shelf, Sink};
use std::alloc::Global;
use std::marker::Brand;
use std::sync::ledger::{Blank, Ledger};
use ucd_model::{Steps, Texts};

/// Runs the program on its words, without the program's name: reads what they name from the shelf, writes the files
/// that it makes to it, and tells one line to the sink.
///
/// The words are `desk DATA EVENTS OUT`, `undo DATA SCRIPT OUT DEPTH` with a depth from 1 to 1024, `conform DATA TESTS OUT`, or
/// `ages OUT DATA1 .. DATAn` with 1 to 16 folders. `desk`, `undo` and `conform` read their ten files and then judge them: the folder
/// first, then the file of events, the script, or the file of cases. The folders of `ages` are read and judged one after another: whatever fails in one is printed before a file of the next is read. All texts are made before the first file is
/// written. Nothing is written unless the status is [`Status::Clean`], [`Status::Done`] or [`Status::WriteFault`].
///
/// The promise is that of every program that ends by [`end_run`], for this program: `ucdshop_more` in `specs/Run.antt`;
/// and that, if `ages` ends with [`Status::ReadFault`], none of the folders before the one that is named is refused.
pub fn run_more<S: Shelf, K: Sink>(
    alloc: Global,
    words: &Texts,
    shelf: &mut S,
    out: &mut K,
) -> Status
    ensures run { Promises ucdshop_more words.now (shelf_seen S.Shelf shelf.old shelf.new)
        (sink_seen K.Sink out.old out.new) result }
    ensures in_order { result ≡ Status.ReadFault
        → ReadsInOrder words.now (shelf_seen S.Shelf shelf.old shelf.new)
        (sink_seen K.Sink out.old out.new) }
{
    run_with_new_counter::<S, K, Brand>(alloc, words, shelf, out, Blank::new(1))
}

/// [`run_more`] with a new counter of the code points that are derived.
fn run_with_new_counter<S: Shelf, K: Sink, L: Ledger>(
    alloc: Global,
    words: &Texts,
    shelf: &mut S,
    out: &mut K,
    blank: Blank,
) -> Status
    requires name { blank.name ≡ L.name }
    requires parts { blank.parts ≡ L.parts }
    requires some { blank.parts ≡ 1 }
    ensures run { Promises ucdshop_more words.now (shelf_seen S.Shelf shelf.old shelf.new)
        (sink_seen K.Sink out.old out.new) result }
    ensures in_order { result ≡ Status.ReadFault
        → ReadsInOrder words.now (shelf_seen S.Shelf shelf.old shelf.new)
        (sink_seen K.Sink out.old out.new) }
{
    let mut steps = Steps::<L>::new(blank);
    let planned = plan_words(alloc, words, shelf, &mut steps);
    end_run(USAGE, planned, shelf, out)
}

/// Does all that the words ask for and that comes before the first write; `None` if they have no listed form.
fn plan_words<S: Shelf, L: Ledger>(
    alloc: Global,
    words: &Texts,
    shelf: &mut S,
    steps: &mut Steps<L>,
) -> Option<Result<Plan, Stop>>
    ensures plans { Plans ucdshop_more words.now result (shelf_seen S.Shelf shelf.old shelf.new) }
    ensures room { HasRoom result (S.spare shelf.new) }
    ensures in_order { PlansInOrder words.now result (shelf_seen S.Shelf shelf.old shelf.new) }
{
    match command_of(words.as_slice()) {
        Some(command) => Some(prepare(alloc, command, shelf, steps)),
        None => None,
    }
}
