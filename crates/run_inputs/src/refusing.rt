//! The lines of refusals.

ghost use Rattle.std.specs.Prelude.{◌≡◌, ◌++◌, IfOk};
ghost use Rattle.run_inputs.specs.Paths.{source_in};
ghost use Rattle.run_inputs.specs.RefusalLines.{refused};
ghost use Rattle.run_inputs.specs.Refusals.{folder_line, script_line, script_rule_code};

use crate::refusal::{FolderRefusal, ScriptRefusal};
use crate::refusal_lines::{
    file_rule_code, load_rule_code, point_refusal_line, refusal_line, row_rule_code,
};
use run_endings::path_in;
use script_lines::ScriptRule;
use std::alloc::Global;
use ucd_model::{Memory, SourceFile, Text};

/// The line of a refusal of this folder.
///
/// - `Memory`: memory ran out.
pub fn folder_line(alloc: Global, folder: &[u8], refusal: FolderRefusal) -> Result<Text, Memory>
    ensures { IfOk result (λ line. line ≡ folder_line folder.now refusal) }
{
    match refusal {
        FolderRefusal::NoFile(file) => file_refusal_line(alloc, folder, file, 0, b"G01"),
        FolderRefusal::FileLine { file, line, rule } => {
            file_refusal_line(alloc, folder, file, line as usize, load_rule_code(rule))
        }
        FolderRefusal::Point(broken) => point_refusal_line(alloc, folder, broken),
    }
}

/// The line that refuses a source file.
fn file_refusal_line(
    alloc: Global,
    folder: &[u8],
    file: SourceFile,
    line: usize,
    rule: &[u8],
) -> Result<Text, Memory>
    ensures { IfOk result (λ text. text ≡ refused (source_in folder.now file) line rule.now) }
{
    let path = path_in(alloc, folder, file.path())?;
    refusal_line(alloc, path.as_slice(), line, rule)
}

/// The line of a refusal of the script at this path.
///
/// - `Memory`: memory ran out.
pub fn script_line(alloc: Global, path: &[u8], refusal: ScriptRefusal) -> Result<Text, Memory>
    ensures { IfOk result (λ line. line ≡ script_line path.now refusal) }
{
    match refusal {
        ScriptRefusal::Whole(rule) => refusal_line(alloc, path, 0, file_rule_code(rule)),
        ScriptRefusal::Line { line, rule } => {
            let code = script_rule_code(alloc, rule)?;
            refusal_line(alloc, path, line as usize, code.as_slice())
        }
    }
}

/// The code of a rule that a script breaks, and with E6 that of the rule that the row or the key breaks.
fn script_rule_code(alloc: Global, rule: ScriptRule) -> Result<Text, Memory>
    ensures { IfOk result (λ text. text ≡ script_rule_code rule) }
{
    let mut text = Text::new(alloc);
    match rule {
        ScriptRule::E1 => text.append(b"E1")?,
        ScriptRule::E2 => text.append(b"E2")?,
        ScriptRule::E3 => text.append(b"E3")?,
        ScriptRule::E4 => text.append(b"E4")?,
        ScriptRule::E5 => text.append(b"E5")?,
        ScriptRule::E6(fault) => {
            text.append(b"E6 ")?;
            text.append(row_rule_code(fault))?;
        }
    }
    Ok(text)
}
