//! Reading the script that stands beside a folder.

ghost use Rattle.std.specs.Prelude.{◌≡◌, IfOk};
ghost use Rattle.std.specs.List.{All};
ghost use Rattle.std.specs.Option.{option_map};
ghost use Rattle.script_lines.specs.Groups.{IsWellFormed};
ghost use Rattle.run_inputs.specs.Judging.{TellsScript, ToldAs};
ghost use Rattle.run_inputs.specs.Refusals.{script_told};

use crate::refusal::ScriptRefusal;
use crate::refusing::script_line;
use crate::second::second_file;
use run_endings::Stop;
use script_lines::{Commands, ScriptStop, commands, groups_are_well_formed};
use std::alloc::Global;

/// The commands of the script at this path, given what is held of it.
///
/// - `Refused(line)`: the script is absent, too long, or breaks a rule.
/// - `Memory`: memory ran out.
#[tactic(auto, unfolding(crate::specs::Verdict::script_verdict))]
pub fn read_script(alloc: Global, path: &[u8], held: Option<&[u8]>) -> Result<Commands, Stop>
    ensures script { ToldAs (λ commands. commands) result
        (script_told path.now (option_map (λ bytes. bytes.now) held.entry)) }
    ensures commands { IfOk result (All IsWellFormed) }
{
    groups_are_well_formed();
    let bytes = match second_file(held) {
        Ok(bytes) => bytes,
        Err(rule) => return Err(script_stop(alloc, path, ScriptRefusal::Whole(rule))),
    };
    match commands(alloc, bytes) {
        Ok(commands) => Ok(commands),
        Err(ScriptStop::Fault { line, rule }) => {
            Err(script_stop(alloc, path, ScriptRefusal::Line { line, rule }))
        }
        Err(ScriptStop::Memory) => Err(Stop::Memory),
    }
}

/// Why a script has no commands, with the line that is then printed.
fn script_stop(alloc: Global, path: &[u8], refusal: ScriptRefusal) -> Stop
    ensures { TellsScript path.now result refusal }
{
    match script_line(alloc, path, refusal) {
        Ok(line) => Stop::Refused(line),
        Err(_) => Stop::Memory,
    }
}
