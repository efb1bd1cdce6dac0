//! The lines that refuse what was read, and the codes of the rules.

ghost use Rattle.std.specs.Prelude.{◌≡◌, ◌++◌, IfOk, OnOk, codes};
ghost use Rattle.run_inputs.specs.RefusalLines.{bad_code, file_rule_code, load_rule_code, refused, refused_point, row_rule_code};
ghost use Rattle.ucd_model.specs.DerivedText.{line_end};

use crate::refusal::FileRule;
use release_rows::LoadRule;
use source_rows::RowFault;
use std::alloc::Global;
use ucd_lines::{put_decimal, put_hex};
use ucd_model::{Bad, Broken, Memory, Text};

/// The line that refuses a file: its path, the number of the line, 0 for the file as a whole, and the rule's code.
///
/// - `Memory`: memory ran out.
pub fn refusal_line(alloc: Global, path: &[u8], line: usize, rule: &[u8]) -> Result<Text, Memory>
    ensures { IfOk result (λ text. text ≡ refused path.now line rule.now) }
{
    let mut text = Text::new(alloc);
    text.append(b"refused: ")?;
    text.append(path)?;
    text.append(b" line ")?;
    put_decimal(alloc, line, &mut text)?;
    put_rule_code(&mut text, rule)?;
    Ok(text)
}

/// Puts a rule's code and the end of the line.
fn put_rule_code(text: &mut Text, rule: &[u8]) -> Result<(), Memory>
    ensures { OnOk result (text.new ≡ text.old ++ codes " " ++ rule.now ++ line_end) }
{
    text.append(b" ")?;
    text.append(rule)?;
    text.append(b"\n")
}

/// The line that refuses a release: its folder, the code point that breaks a rule, and the rule's code.
///
/// - `Memory`: memory ran out.
pub fn point_refusal_line(alloc: Global, folder: &[u8], broken: Broken) -> Result<Text, Memory>
    ensures { IfOk result (λ text. text ≡ refused_point folder.now broken) }
{
    let mut text = Text::new(alloc);
    text.append(b"refused: ")?;
    text.append(folder)?;
    text.append(b" point ")?;
    put_hex(broken.point, &mut text)?;
    put_rule_code(&mut text, validity_rule_code(broken.rule))?;
    Ok(text)
}

/// The code of a rule of a valid release.
pub fn validity_rule_code(rule: Bad) -> &'static [u8]
    ensures { result.now ≡ bad_code rule }
{
    match rule {
        Bad::V1 => b"V1",
        Bad::V2 => b"V2",
        Bad::V3 => b"V3",
        Bad::V4 => b"V4",
        Bad::V5 => b"V5",
    }
}

/// The code of a rule that a file as a whole breaks.
pub fn file_rule_code(rule: FileRule) -> &'static [u8]
    ensures { result.now ≡ file_rule_code rule }
{
    match rule {
        FileRule::G01 => b"G01",
        FileRule::G02 => b"G02",
    }
}

/// The code of a rule that a file breaks.
pub fn load_rule_code(rule: LoadRule) -> &'static [u8]
    ensures { result.now ≡ load_rule_code rule }
{
    match rule {
        LoadRule::G02 => b"G02",
        LoadRule::Row(fault) => row_rule_code(fault),
        LoadRule::K1 => b"K1",
        LoadRule::K4 => b"K4",
        LoadRule::K5 => b"K5",
    }
}

/// The code of a rule that a line breaks by itself.
pub fn row_rule_code(fault: RowFault) -> &'static [u8]
    ensures { result.now ≡ row_rule_code fault }
{
    match fault {
        RowFault::G03 => b"G03",
        RowFault::G04 => b"G04",
        RowFault::G05 => b"G05",
        RowFault::G06 => b"G06",
        RowFault::G07 => b"G07",
        RowFault::G08 => b"G08",
        RowFault::G09 => b"G09",
        RowFault::G10 => b"G10",
        RowFault::G11 => b"G11",
    }
}
