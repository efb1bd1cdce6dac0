//! The run of the program.

ghost use Rattle.std.specs.Prelude.{◌≡◌};
ghost use Rattle.run_endings.specs.Endings.{Sees, paths_read};
ghost use Rattle.run_endings.specs.Ends.{HasRoom, Plans};
ghost use Rattle.run_endings.specs.Promises.{Promises, shelf_seen, sink_seen};
ghost use Rattle.ucdshop_jobs.specs.Counting.{FormCounts, FormStepsWithoutScript, PlannedCounts, StatusCounts};
ghost use Rattle.ucdshop_jobs.specs.Run.{ucdshop};
ghost use Rattle.ucdshop_jobs.specs.Jobs.{form};

use crate::planning::prepare;
use crate::words::job_of;
use run_endings::{Plan, Status, Stop, end_run};
use shelf_io::{Shelf, Sink};
use std::alloc::Global;
use std::marker::Brand;
use std::sync::ledger::{Blank, Ledger};
use ucd_model::{Steps, Texts};

/// The line for words that have no listed form.
const USAGE: &[u8] =
    b"usage: ucdshop derive DATA OUT | apply DATA SCRIPT OUT [PREVIOUS] | make NUMBER OUT\n";

/// Runs the program on its words, without the program's name: reads what they name from the shelf, writes the files
/// that it makes to it, and tells one line to the sink.
///
/// The words are `derive DATA OUT`, `apply DATA SCRIPT OUT`, `apply DATA SCRIPT OUT PREVIOUS` or `make NUMBER OUT`. All files
/// are read before any is judged, and all texts are made before the first is written. Nothing is written unless the status
/// is [`Status::Clean`], [`Status::Done`] or [`Status::WriteFault`].
///
/// The promise is that of every program that ends by [`end_run`], for this program: `ucdshop` in `specs/Run.antt`.
pub fn run<S: Shelf, K: Sink>(alloc: Global, words: &Texts, shelf: &mut S, out: &mut K) -> Status
    ensures { Promises ucdshop words.now (shelf_seen S.Shelf shelf.old shelf.new)
        (sink_seen K.Sink out.old out.new) result }
{
    run_with_new_counter::<S, K, Brand>(alloc, words, shelf, out, Blank::new(1))
}

/// [`run_counted`] with a new counter.
fn run_with_new_counter<S: Shelf, K: Sink, L: Ledger>(
    alloc: Global,
    words: &Texts,
    shelf: &mut S,
    out: &mut K,
    blank: Blank,
) -> Status
    requires name { blank.name ≡ L.name }
    requires parts { blank.parts ≡ L.parts }
    requires some { blank.parts ≡ 1 }
    ensures { Promises ucdshop words.now (shelf_seen S.Shelf shelf.old shelf.new)
        (sink_seen K.Sink out.old out.new) result }
{
    let mut steps = Steps::<L>::new(blank);
    run_counted(alloc, words, shelf, out, &mut steps)
}

/// [`run`], with a counter of the code points that are derived. It rises by at most the number of code points for each
/// release that the words name, and if nothing is refused, by that of the code points that depend on each group of the
/// script. It stays if the words have no listed form, and if a file could not be read: all are read before any is judged.
pub fn run_counted<S: Shelf, K: Sink, L: Ledger>(
    alloc: Global,
    words: &Texts,
    shelf: &mut S,
    out: &mut K,
    steps: &mut Steps<L>,
) -> Status
    ensures run { Promises ucdshop words.now (shelf_seen S.Shelf shelf.old shelf.new)
        (sink_seen K.Sink out.old out.new) result }
    ensures counted { Sees S.tells (S.holds shelf.old) (paths_read ucdshop (form words.now))
        (λ seen. FormCounts (form words.now) seen steps.old steps.new) }
    ensures stopped { StatusCounts result (form words.now) steps.old steps.new }
    ensures steps { FormStepsWithoutScript (form words.now) steps.old steps.new }
{
    let planned = plan_words(alloc, words, shelf, steps);
    end_run(USAGE, planned, shelf, out)
}

/// Does all that the words ask for and that comes before the first write; `None` if they have no listed form.
fn plan_words<S: Shelf, L: Ledger>(
    alloc: Global,
    words: &Texts,
    shelf: &mut S,
    steps: &mut Steps<L>,
) -> Option<Result<Plan, Stop>>
    ensures plans { Plans ucdshop words.now result (shelf_seen S.Shelf shelf.old shelf.new) }
    ensures room { HasRoom result (S.spare shelf.new) }
    ensures counts { Sees S.tells (S.holds shelf.old) (paths_read ucdshop (form words.now))
        (λ seen. FormCounts (form words.now) seen steps.old steps.new) }
    ensures stops { PlannedCounts result (form words.now) steps.old steps.new }
    ensures steps { FormStepsWithoutScript (form words.now) steps.old steps.new }
{
    match job_of(words.as_slice()) {
        Some(job) => Some(prepare(alloc, job, shelf, steps)),
        None => None,
    }
}
