//! The file beside a folder: where it is, and the line that refuses it.

ghost use Rattle.std.specs.Prelude.{◌≡◌, ◌∷◌, [], ◌++◌, IfOk};
ghost use Rattle.run_inputs.specs.Paths.{sources_in};
ghost use Rattle.run_inputs.specs.RefusalLines.{refused};
ghost use Rattle.run_inputs.specs.Refusals.{script_line};
ghost use Rattle.ucdshop_more_core.specs.Trials.{TellsLine};
ghost use Rattle.ucdshop_more_core.specs.Turns.{piece_rule_code};

use run_endings::Stop;
use run_inputs::{ScriptRefusal, refusal_line, script_line, source_paths};
use script_pieces::PieceRule;
use std::alloc::Global;
use ucd_model::{Memory, Text, Texts};

/// The paths of the source files of a folder, in their order, and that of a file.
///
/// - `Memory`: memory ran out.
pub fn source_paths_and_file(alloc: Global, input: &[u8], second: &[u8]) -> Result<Texts, Memory>
    ensures { IfOk result (λ paths. paths ≡ sources_in input.now ++ second.now ∷ []) }
{
    let mut paths = source_paths(alloc, input)?;
    paths.push(Text::of(alloc, second)?)?;
    Ok(paths)
}

/// The refusal of a file by this line of it, and the rule with this code.
pub fn refusal(alloc: Global, path: &[u8], line: usize, rule: &[u8]) -> Stop
    ensures { TellsLine result (refused path.now line rule.now) }
{
    match refusal_line(alloc, path, line, rule) {
        Ok(told) => Stop::Refused(told),
        Err(_) => Stop::Memory,
    }
}

/// The refusal of a file of scripts between marks by this line of it, and this rule.
pub fn piece_refusal(alloc: Global, path: &[u8], line: u32, rule: PieceRule) -> Stop
    ensures { TellsLine result (refused path.now line (piece_rule_code rule)) }
{
    match rule {
        PieceRule::E7 => refusal(alloc, path, line as usize, b"E7"),
        PieceRule::Script(rule) => script_refusal(alloc, path, ScriptRefusal::Line { line, rule }),
    }
}

/// The refusal of a file by the script in it.
fn script_refusal(alloc: Global, path: &[u8], why: ScriptRefusal) -> Stop
    ensures { TellsLine result (script_line path.now why) }
{
    match script_line(alloc, path, why) {
        Ok(told) => Stop::Refused(told),
        Err(_) => Stop::Memory,
    }
}
