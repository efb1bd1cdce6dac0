//! What `conform` is given: a release, and the cases that it is tried on.

ghost use Rattle.std.specs.Prelude.{◌≡◌, ◌∷◌, [], ◌++◌, IfOk};
ghost use Rattle.std.specs.Option.{option_map};
ghost use Rattle.run_endings.specs.Endings.{Sees};
ghost use Rattle.run_endings.specs.Planning.{OnRefused, OnlyRead, UnreadAs};
ghost use Rattle.run_endings.specs.Promises.{shelf_seen};
ghost use Rattle.run_inputs.specs.Judging.{ToldAs};
ghost use Rattle.run_inputs.specs.Held.{held_at};
ghost use Rattle.run_inputs.specs.Paths.{sources_in};
ghost use Rattle.run_inputs.specs.RefusalLines.{refused};
ghost use Rattle.ucdshop_more_core.specs.Trials.{TellsLine, case_rule_code, cases_told, trial_verdict, with_cases};

use crate::beside::{refusal, source_paths_and_file};
use edit_session::Bench;
use norm_conformance::{CaseRule, CaseStop, Cases, read_cases};
use run_endings::{Stop, read_inputs};
use run_inputs::{file_rule_code, held_at, open_folder, second_file};
use shelf_io::Shelf;
use std::alloc::Global;
use std::sync::ledger::Ledger;
use ucd_model::{SOURCE_FILES, Steps, Text};

/// A release, and the cases that it is tried on.
#[derive(Drop)]
pub struct Trial {
    /// The bench over the release.
    pub bench: Bench,
    /// The cases.
    pub cases: Cases,
}

/// The release of a folder and the cases in a file: all ten files are read, and then judged.
///
/// - `Refused(line)`: the first of these is refused: a file of the folder, a code point, the file of cases.
/// - `ReadFailed(line)`: a file could not be read.
/// - `Memory`: memory ran out.
pub fn read_trial<S: Shelf, L: Ledger>(
    alloc: Global,
    input: &[u8],
    tests: &[u8],
    shelf: &mut S,
    steps: &mut Steps<L>,
) -> Result<Trial, Stop>
    ensures given { IfOk result (λ trial. Sees S.tells (S.holds shelf.old)
        (sources_in input.now ++ tests.now ∷ [])
        (λ seen. trial_verdict input.now tests.now seen ≡ Ok trial)) }
    ensures refused { OnRefused result
        (λ line. Sees S.tells (S.holds shelf.old) (sources_in input.now ++ tests.now ∷ [])
        (λ seen. trial_verdict input.now tests.now seen ≡ Err line)) }
    ensures unread { UnreadAs result (sources_in input.now ++ tests.now ∷ [])
        (shelf_seen S.Shelf shelf.old shelf.new) }
    ensures only_read { OnlyRead (shelf_seen S.Shelf shelf.old shelf.new) }
{
    let paths = source_paths_and_file(alloc, input, tests)?;
    let mut held = read_inputs(alloc, shelf, paths.as_slice())?;
    judge_trial(alloc, input, tests, &mut held, steps)
}

/// Judges the source files of a folder, and behind them the file of cases.
///
/// - `Refused(line)`: the first of these is refused.
/// - `Memory`: memory ran out.
fn judge_trial<L: Ledger>(
    alloc: Global,
    input: &[u8],
    tests: &[u8],
    held: &mut Vec<Option<Text>>,
    steps: &mut Steps<L>,
) -> Result<Trial, Stop>
    ensures { ToldAs (λ trial. trial) result (trial_verdict input.now tests.now held.old.items) }
{
    let bench = open_folder(alloc, input, held, 0, steps)?;
    judge_case_file(alloc, tests, held.as_slice(), bench)
}

/// Judges the file of cases, which is held behind the release that this bench is over.
///
/// - `Refused(line)`: the file of cases is refused.
/// - `Memory`: memory ran out.
fn judge_case_file(
    alloc: Global,
    tests: &[u8],
    held: &[Option<Text>],
    bench: Bench,
) -> Result<Trial, Stop>
    ensures { ToldAs (λ trial. trial) result
        (with_cases bench (cases_told tests.now (held_at held.now 9))) }
{
    match judge_cases(alloc, tests, held_at(held, SOURCE_FILES.len())) {
        Ok(cases) => Ok(Trial { bench, cases }),
        Err(stop) => Err(stop),
    }
}

/// The cases of the file at this path, given what is held of it.
///
/// - `Refused(line)`: the file is absent, too long, or breaks a rule.
/// - `Memory`: memory ran out.
fn judge_cases(alloc: Global, path: &[u8], held: Option<&[u8]>) -> Result<Cases, Stop>
    ensures { ToldAs (λ cases. cases) result
        (cases_told path.now (option_map (λ bytes. bytes.now) held.entry)) }
{
    let bytes = match second_file(held) {
        Ok(bytes) => bytes,
        Err(rule) => return Err(refusal(alloc, path, 0, file_rule_code(rule))),
    };
    match read_cases(alloc, bytes) {
        Ok(cases) => Ok(cases),
        Err(CaseStop::Fault { line, rule }) => {
            Err(refusal(alloc, path, line as usize, case_rule_code(rule)))
        }
        Err(CaseStop::Memory) => Err(Stop::Memory),
    }
}

/// The code of a rule that a file of cases breaks.
fn case_rule_code(rule: CaseRule) -> &'static [u8]
    ensures { result.now ≡ case_rule_code rule }
{
    match rule {
        CaseRule::N1 => b"N1",
        CaseRule::N2 => b"N2",
        CaseRule::N3 => b"N3",
    }
}
