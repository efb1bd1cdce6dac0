//! The lines of a log that tell of groups.

ghost use Rattle.std.specs.Prelude.{◌≡◌, ◌++◌, OnOk};
ghost use Rattle.run_inputs.specs.GroupLines.{accepted_line, key_rule_code, refusal_text, refused_line};

use crate::refusal_lines::validity_rule_code;
use edit_session::Refused;
use release_rows::KeyRule;
use std::alloc::Global;
use ucd_lines::{put_decimal, put_hex};
use ucd_model::{Memory, Text};

/// Puts the line of a group that was accepted: the number of the command's line, and how many records changed.
///
/// - `Memory`: memory ran out.
pub fn put_accepted(alloc: Global, text: &mut Text, line: u32, count: usize) -> Result<(), Memory>
    ensures { OnOk result (text.new ≡ text.old ++ accepted_line line count) }
{
    put_decimal(alloc, line as usize, text)?;
    text.append(b" accepted ")?;
    put_decimal(alloc, count, text)?;
    text.append(b"\n")
}

/// Puts the line of a group that was refused: the number of the command's line, and why.
///
/// - `Memory`: memory ran out.
pub fn put_refused(alloc: Global, text: &mut Text, line: u32, why: Refused) -> Result<(), Memory>
    ensures { OnOk result (text.new ≡ text.old ++ refused_line line why) }
{
    put_decimal(alloc, line as usize, text)?;
    text.append(b" ")?;
    put_refusal(alloc, text, why)?;
    text.append(b"\n")
}

/// Puts why a group was refused.
fn put_refusal(alloc: Global, text: &mut Text, why: Refused) -> Result<(), Memory>
    ensures { OnOk result (text.new ≡ text.old ++ refusal_text why) }
{
    text.append(b"refused ")?;
    match why {
        Refused::Key { rule, op } => {
            text.append(key_rule_code(rule))?;
            text.append(b" operation ")?;
            put_decimal(alloc, op as usize, text)
        }
        Refused::Valid { rule, point } => {
            text.append(validity_rule_code(rule))?;
            text.append(b" point ")?;
            put_hex(point, text)
        }
    }
}

/// The code of a rule that an operation breaks.
fn key_rule_code(rule: KeyRule) -> &'static [u8]
    ensures { result.now ≡ key_rule_code rule }
{
    match rule {
        KeyRule::K1 => b"K1",
        KeyRule::K2 => b"K2",
        KeyRule::K4 => b"K4",
    }
}
