//! What `desk` is given: a release, and what editors ask for at a desk over it.

ghost use Rattle.std.specs.Prelude.{◌≡◌, ◌∷◌, [], ◌++◌, IfOk};
ghost use Rattle.std.specs.Option.{option_map};
ghost use Rattle.run_endings.specs.Endings.{Sees};
ghost use Rattle.run_endings.specs.Planning.{OnRefused, OnlyRead, UnreadAs};
ghost use Rattle.run_endings.specs.Promises.{shelf_seen};
ghost use Rattle.run_inputs.specs.Held.{held_at};
ghost use Rattle.run_inputs.specs.Judging.{ToldAs};
ghost use Rattle.run_inputs.specs.Paths.{sources_in};
ghost use Rattle.ucdshop_more_core.specs.Sessions.{AreFew, AreWellFormed, session_of, session_verdict, with_turns};
ghost use Rattle.ucdshop_more_core.specs.Turns.{request_turns, turns_told};

use crate::beside::{piece_refusal, refusal, source_paths_and_file};
use crate::requests::{Requests, read_requests};
use edit_session::Bench;
use run_endings::{Stop, read_inputs};
use run_inputs::{file_rule_code, held_at, open_folder, second_file};
use script_pieces::PieceStop;
use shelf_io::Shelf;
use std::alloc::Global;
use std::sync::ledger::Ledger;
use ucd_model::{SOURCE_FILES, Steps, Text};

/// A release, and what editors ask for at a desk over it.
#[derive(Drop)]
pub struct Sitting {
    /// The bench over the release.
    pub bench: Bench,
    /// The requests.
    pub requests: Requests,
}

/// The release of a folder and the requests in a file: all ten files are read, and then judged.
///
/// - `Refused(line)`: the first of these is refused: a file of the folder, a code point, the file of events.
/// - `ReadFailed(line)`: a file could not be read.
/// - `Memory`: memory ran out.
pub fn read_sitting<S: Shelf, L: Ledger>(
    alloc: Global,
    input: &[u8],
    events: &[u8],
    shelf: &mut S,
    steps: &mut Steps<L>,
) -> Result<Sitting, Stop>
    ensures given { IfOk result (λ sitting. Sees S.tells (S.holds shelf.old)
        (sources_in input.now ++ events.now ∷ [])
        (λ seen. session_verdict input.now events.now seen ≡ Ok (session_of sitting))) }
    ensures ready { IfOk result (λ sitting. AreWellFormed sitting.requests) }
    ensures few { IfOk result (λ sitting. AreFew sitting.requests) }
    ensures refused { OnRefused result
        (λ line. Sees S.tells (S.holds shelf.old) (sources_in input.now ++ events.now ∷ [])
        (λ seen. session_verdict input.now events.now seen ≡ Err line)) }
    ensures unread { UnreadAs result (sources_in input.now ++ events.now ∷ [])
        (shelf_seen S.Shelf shelf.old shelf.new) }
    ensures only_read { OnlyRead (shelf_seen S.Shelf shelf.old shelf.new) }
{
    let paths = source_paths_and_file(alloc, input, events)?;
    let mut held = read_inputs(alloc, shelf, paths.as_slice())?;
    judge_sitting(alloc, input, events, &mut held, steps)
}

/// Judges the source files of a folder, and behind them the file of events.
///
/// - `Refused(line)`: the first of these is refused.
/// - `Memory`: memory ran out.
fn judge_sitting<L: Ledger>(
    alloc: Global,
    input: &[u8],
    events: &[u8],
    held: &mut Vec<Option<Text>>,
    steps: &mut Steps<L>,
) -> Result<Sitting, Stop>
    ensures session { ToldAs session_of result
        (session_verdict input.now events.now held.old.items) }
    ensures ready { IfOk result (λ sitting. AreWellFormed sitting.requests) }
    ensures few { IfOk result (λ sitting. AreFew sitting.requests) }
{
    let bench = open_folder(alloc, input, held, 0, steps)?;
    judge_event_file(alloc, events, held.as_slice(), bench)
}

/// Judges the file of events, which is held behind the release that this bench is over.
///
/// - `Refused(line)`: the file of events is refused.
/// - `Memory`: memory ran out.
fn judge_event_file(
    alloc: Global,
    events: &[u8],
    held: &[Option<Text>],
    bench: Bench,
) -> Result<Sitting, Stop>
    ensures session { ToldAs session_of result
        (with_turns bench.current (turns_told events.now (held_at held.now 9))) }
    ensures ready { IfOk result (λ sitting. AreWellFormed sitting.requests) }
    ensures few { IfOk result (λ sitting. AreFew sitting.requests) }
{
    match judge_requests(alloc, events, held_at(held, SOURCE_FILES.len())) {
        Ok(requests) => Ok(Sitting { bench, requests }),
        Err(stop) => Err(stop),
    }
}

/// The requests of the file at this path, given what is held of it.
///
/// - `Refused(line)`: the file is absent, too long, or breaks a rule.
/// - `Memory`: memory ran out.
fn judge_requests(alloc: Global, path: &[u8], held: Option<&[u8]>) -> Result<Requests, Stop>
    ensures turns { ToldAs request_turns result
        (turns_told path.now (option_map (λ bytes. bytes.now) held.entry)) }
    ensures ready { IfOk result AreWellFormed }
    ensures few { IfOk result AreFew }
{
    let bytes = match second_file(held) {
        Ok(bytes) => bytes,
        Err(rule) => return Err(refusal(alloc, path, 0, file_rule_code(rule))),
    };
    match read_requests(alloc, bytes) {
        Ok(requests) => Ok(requests),
        Err(PieceStop::Fault { line, rule }) => Err(piece_refusal(alloc, path, line, rule)),
        Err(PieceStop::Memory) => Err(Stop::Memory),
    }
}
