//! Judges the source files of a folder, and writes whether they are valid.

ghost use Rattle.std.specs.Prelude.{◌≡◌, ◌≤◌, ℕ, List, ◌∷◌, [], IfOk, length};
ghost use Rattle.std.specs.Option.{option_map};
ghost use Rattle.ending_tests.specs.Checker.{check_of, checker, form, judged, valid_ending};
ghost use Rattle.run_endings.specs.Endings.{Refuses, Sees};
ghost use Rattle.run_endings.specs.Ends.{HasRoom, Plans};
ghost use Rattle.run_endings.specs.Planning.{HasPlan, IsPlanOf, OnRefused, OnlyRead, PlansAs, UnreadAs};
ghost use Rattle.run_endings.specs.Promises.{Promises, shelf_seen, sink_seen};
ghost use Rattle.run_endings.specs.Reading.{IsRead};
ghost use Rattle.run_inputs.specs.Held.{source_held};
ghost use Rattle.run_inputs.specs.Paths.{sources_in};
ghost use Rattle.run_inputs.specs.Refusals.{folder_verdict};

use run_endings::{Output, Plan, Status, Stop, end_run, make_room, read_inputs};
use run_inputs::{open_folder, source_paths};
use shelf_io::{Shelf, Sink};
use std::alloc::Global;
use std::sync::ledger::Ledger;
use ucd_model::{Memory, Steps, Text, Texts};

/// The line for words that have no listed form.
const USAGE: &[u8] = b"usage: check DATA OUT\n";

/// `DATA OUT`: judges the source files of the folder DATA, and writes the file OUT if nothing is refused.
pub fn check<S: Shelf, K: Sink, L: Ledger>(
    alloc: Global,
    words: &Texts,
    shelf: &mut S,
    out: &mut K,
    steps: &mut Steps<L>,
) -> Status
    ensures { Promises checker words.now (shelf_seen S.Shelf shelf.old shelf.new)
        (sink_seen K.Sink out.old out.new) result }
{
    let planned = plan_words(alloc, words, shelf, steps);
    end_run(USAGE, planned, shelf, out)
}

/// The folder and the path that words name; `None` exactly if they have no listed form.
fn named(words: &[Text]) -> Option<(&[u8], &[u8])>
    ensures { option_map (λ named. check_of named.0.now named.1.now) result ≡ form words.now }
{
    match words {
        [folder, output] => pair_of(folder, output),
        _ => None,
    }
}

/// `DATA OUT`.
fn pair_of<'a>(folder: &'a Text, output: &'a Text) -> Option<(&'a [u8], &'a [u8])>
    ensures { option_map (λ named. check_of named.0.now named.1.now) result
        ≡ form (folder.now ∷ output.now ∷ []) }
{
    Some((folder.as_slice(), output.as_slice()))
}

/// Does all that the words ask for and that comes before the write; `None` if they have no listed form.
fn plan_words<S: Shelf, L: Ledger>(
    alloc: Global,
    words: &Texts,
    shelf: &mut S,
    steps: &mut Steps<L>,
) -> Option<Result<Plan, Stop>>
    ensures plans { Plans checker words.now result (shelf_seen S.Shelf shelf.old shelf.new) }
    ensures room { HasRoom result (S.spare shelf.new) }
{
    match named(words.as_slice()) {
        Some(named) => Some(prepare(alloc, named.0, named.1, shelf, steps)),
        None => None,
    }
}

/// Does all that comes before the write, for a folder that is read and a path that is written.
fn prepare<S: Shelf, L: Ledger>(
    alloc: Global,
    folder: &[u8],
    output: &[u8],
    shelf: &mut S,
    steps: &mut Steps<L>,
) -> Result<Plan, Stop>
    ensures planned { IfOk result
        (λ plan. Sees S.tells (S.holds shelf.old) (sources_in folder.now)
        (λ seen. IsPlanOf plan
        (judged (check_of folder.now output.now)
        (folder_verdict folder.now (source_held seen 0))))) }
    ensures room { IfOk result (λ plan. length plan.outputs.items ≤ S.spare shelf.new) }
    ensures refused { OnRefused result
        (λ line. Sees S.tells (S.holds shelf.old) (sources_in folder.now)
        (λ seen. judged (check_of folder.now output.now)
        (folder_verdict folder.now (source_held seen 0)) ≡ Refuses line)) }
    ensures unread { UnreadAs result (sources_in folder.now)
        (shelf_seen S.Shelf shelf.old shelf.new) }
    ensures only_read { OnlyRead (shelf_seen S.Shelf shelf.old shelf.new) }
{
    let plan = {
        let mut held = read_folder(alloc, folder, shelf)?;
        judged_plan(alloc, folder, output, &mut held, steps)?
    };
    make_room(shelf, &plan)?;
    Ok(plan)
}

/// What a shelf holds of the source files of a folder.
fn read_folder<S: Shelf>(
    alloc: Global,
    folder: &[u8],
    shelf: &mut S,
) -> Result<Vec<Option<Text>>, Stop>
    ensures read { IfOk result (λ held. IsRead S.tells (S.holds shelf.old)
        (sources_in folder.now) held.items) }
    ensures refused { OnRefused result (λ _. ⊥) }
    ensures unread { UnreadAs result (sources_in folder.now)
        (shelf_seen S.Shelf shelf.old shelf.new) }
    ensures only_read { OnlyRead (shelf_seen S.Shelf shelf.old shelf.new) }
{
    let paths = source_paths(alloc, folder)?;
    let held = read_inputs(alloc, shelf, paths.as_slice())?;
    Ok(held)
}

/// What is left to be done by what is held of the folder.
fn judged_plan<L: Ledger>(
    alloc: Global,
    folder: &[u8],
    output: &[u8],
    held: &mut Vec<Option<Text>>,
    steps: &mut Steps<L>,
) -> Result<Plan, Stop>
    ensures { PlansAs result (judged (check_of folder.now output.now)
        (folder_verdict folder.now (source_held held.old.items 0))) }
{
    match open_folder(alloc, folder, held, 0, steps) {
        Ok(_bench) => Ok(valid_plan(alloc, output)?),
        Err(stop) => Err(stop),
    }
}

/// What is left to be done if nothing is refused.
fn valid_plan(alloc: Global, output: &[u8]) -> Result<Plan, Memory>
    ensures { (folder : List ℕ) → IfOk result
        (HasPlan (valid_ending (check_of folder output.now))) }
{
    let mut outputs = Vec::new(alloc);
    let path = Text::of(alloc, output)?;
    let bytes = Text::of(alloc, b"valid\n")?;
    outputs.push(Output::of(alloc, path, bytes)?)?;
    Ok(Plan {
        outputs,
        summary: Text::of(alloc, b"check: valid\n")?,
        done: false,
    })
}
