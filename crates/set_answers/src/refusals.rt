//! What is said of a question that is refused.

ghost use Rattle.std.specs.Prelude.{◌≡◌, ◌++◌, OnOk};
ghost use Rattle.set_answers.specs.Refusals.{ask_rule_code, set_rule_code, unasked_text};

use crate::ask_stop::{AskFault, AskRule};
use std::alloc::Global;
use ucd_lines::put_decimal;
use ucd_model::{Memory, Text};
use unicodeset_eval::NameRule;
use unicodeset_parser::SetRule;

/// Puts why a question is refused: `refused`, the code of the rule, `byte`, and the place in its text.
///
/// - `Memory`: memory ran out.
pub fn put_refusal(alloc: Global, text: &mut Text, fault: AskFault) -> Result<(), Memory>
    ensures { OnOk result (text.new ≡ text.old ++ unasked_text fault) }
{
    text.append(b"refused ")?;
    text.append(ask_rule_code(fault.rule))?;
    text.append(b" byte ")?;
    put_decimal(alloc, fault.at, text)
}

/// The code of a rule that a question breaks.
fn ask_rule_code(rule: AskRule) -> &'static [u8]
    ensures { result.now ≡ ask_rule_code rule }
{
    match rule {
        AskRule::Text(rule) => set_rule_code(rule),
        AskRule::Name(NameRule::S8) => b"S8",
        AskRule::Name(NameRule::S9) => b"S9",
    }
}

/// The code of a rule that the text of a question breaks.
fn set_rule_code(rule: SetRule) -> &'static [u8]
    ensures { result.now ≡ set_rule_code rule }
{
    match rule {
        SetRule::S1 => b"S1",
        SetRule::S2 => b"S2",
        SetRule::S3 => b"S3",
        SetRule::S4 => b"S4",
        SetRule::S5 => b"S5",
        SetRule::S6 => b"S6",
        SetRule::S7 => b"S7",
    }
}
