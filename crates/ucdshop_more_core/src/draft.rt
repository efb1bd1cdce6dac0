//! What `undo` is given: a release, and what is asked of a history of it.

ghost use Rattle.std.specs.Prelude.{◌≡◌, ◌∷◌, [], ◌++◌, IfOk};
ghost use Rattle.std.specs.Option.{option_map};
ghost use Rattle.run_endings.specs.Endings.{Sees};
ghost use Rattle.run_endings.specs.Planning.{OnRefused, OnlyRead, UnreadAs};
ghost use Rattle.run_endings.specs.Promises.{shelf_seen};
ghost use Rattle.run_inputs.specs.Held.{held_at};
ghost use Rattle.run_inputs.specs.Judging.{ToldAs};
ghost use Rattle.run_inputs.specs.Paths.{sources_in};
ghost use Rattle.ucdshop_more_core.specs.Drafts.{AreWellFormed, draft_of, draft_verdict, with_moves};
ghost use Rattle.ucdshop_more_core.specs.Moves.{all_moves, moves_told};

use crate::beside::{piece_refusal, refusal, source_paths_and_file};
use crate::sections::{Sections, read_sections};
use edit_session::Bench;
use run_endings::{Stop, read_inputs};
use run_inputs::{file_rule_code, held_at, open_folder, second_file};
use script_pieces::PieceStop;
use shelf_io::Shelf;
use std::alloc::Global;
use std::sync::ledger::Ledger;
use ucd_model::{SOURCE_FILES, Steps, Text};

/// A release, and what is asked of a history of it.
#[derive(Drop)]
pub struct Drafted {
    /// The bench over the release.
    pub bench: Bench,
    /// The sections of the script.
    pub sections: Sections,
}

/// The release of a folder and the sections in a script: all ten files are read, and then judged.
///
/// - `Refused(line)`: the first of these is refused: a file of the folder, a code point, the script.
/// - `ReadFailed(line)`: a file could not be read.
/// - `Memory`: memory ran out.
pub fn read_undo_inputs<S: Shelf, L: Ledger>(
    alloc: Global,
    input: &[u8],
    script: &[u8],
    shelf: &mut S,
    steps: &mut Steps<L>,
) -> Result<Drafted, Stop>
    ensures given { IfOk result (λ drafted. Sees S.tells (S.holds shelf.old)
        (sources_in input.now ++ script.now ∷ [])
        (λ seen. draft_verdict input.now script.now seen ≡ Ok (draft_of drafted))) }
    ensures ready { IfOk result (λ drafted. AreWellFormed drafted.sections) }
    ensures refused { OnRefused result
        (λ line. Sees S.tells (S.holds shelf.old) (sources_in input.now ++ script.now ∷ [])
        (λ seen. draft_verdict input.now script.now seen ≡ Err line)) }
    ensures unread { UnreadAs result (sources_in input.now ++ script.now ∷ [])
        (shelf_seen S.Shelf shelf.old shelf.new) }
    ensures only_read { OnlyRead (shelf_seen S.Shelf shelf.old shelf.new) }
{
    let paths = source_paths_and_file(alloc, input, script)?;
    let mut held = read_inputs(alloc, shelf, paths.as_slice())?;
    judge_undo_inputs(alloc, input, script, &mut held, steps)
}

/// Judges the source files of a folder, and behind them the script.
///
/// - `Refused(line)`: the first of these is refused.
/// - `Memory`: memory ran out.
fn judge_undo_inputs<L: Ledger>(
    alloc: Global,
    input: &[u8],
    script: &[u8],
    held: &mut Vec<Option<Text>>,
    steps: &mut Steps<L>,
) -> Result<Drafted, Stop>
    ensures draft { ToldAs draft_of result (draft_verdict input.now script.now held.old.items) }
    ensures ready { IfOk result (λ drafted. AreWellFormed drafted.sections) }
{
    let bench = open_folder(alloc, input, held, 0, steps)?;
    judge_script_file(alloc, script, held.as_slice(), bench)
}

/// Judges the script, which is held behind the release that this bench is over.
///
/// - `Refused(line)`: the script is refused.
/// - `Memory`: memory ran out.
fn judge_script_file(
    alloc: Global,
    script: &[u8],
    held: &[Option<Text>],
    bench: Bench,
) -> Result<Drafted, Stop>
    ensures draft { ToldAs draft_of result
        (with_moves bench.current (moves_told script.now (held_at held.now 9))) }
    ensures ready { IfOk result (λ drafted. AreWellFormed drafted.sections) }
{
    match judge_sections(alloc, script, held_at(held, SOURCE_FILES.len())) {
        Ok(sections) => Ok(Drafted { bench, sections }),
        Err(stop) => Err(stop),
    }
}

/// The sections of the script at this path, given what is held of it.
///
/// - `Refused(line)`: the file is absent, too long, or breaks a rule.
/// - `Memory`: memory ran out.
fn judge_sections(alloc: Global, path: &[u8], held: Option<&[u8]>) -> Result<Sections, Stop>
    ensures moves { ToldAs all_moves result
        (moves_told path.now (option_map (λ bytes. bytes.now) held.entry)) }
    ensures ready { IfOk result AreWellFormed }
{
    let bytes = match second_file(held) {
        Ok(bytes) => bytes,
        Err(rule) => return Err(refusal(alloc, path, 0, file_rule_code(rule))),
    };
    match read_sections(alloc, bytes) {
        Ok(sections) => Ok(sections),
        Err(PieceStop::Fault { line, rule }) => Err(piece_refusal(alloc, path, line, rule)),
        Err(PieceStop::Memory) => Err(Stop::Memory),
    }
}
