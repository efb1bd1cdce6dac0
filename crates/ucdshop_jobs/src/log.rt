//! The lines of the log that tell of questions.

ghost use Rattle.std.specs.Prelude.{◌≡◌, ◌++◌, OnOk};
ghost use Rattle.ucdshop_jobs.specs.Session.{set_line, unasked_line};

use set_questions::{AskFault, put_refusal};
use std::alloc::Global;
use ucd_lines::put_decimal;
use ucd_model::{Memory, Text};

/// Puts the line of a question that was answered: the number of the command's line, and how many code points are
/// members.
///
/// - `Memory`: memory ran out.
pub fn put_answered_question(
    alloc: Global,
    text: &mut Text,
    line: u32,
    count: usize,
) -> Result<(), Memory>
    ensures { OnOk result (text.new ≡ text.old ++ set_line line count) }
{
    put_decimal(alloc, line as usize, text)?;
    text.append(b" set ")?;
    put_decimal(alloc, count, text)?;
    text.append(b"\n")
}

/// Puts the line of a question that was refused: the number of the command's line, and why.
///
/// - `Memory`: memory ran out.
pub fn put_refused_question(
    alloc: Global,
    text: &mut Text,
    line: u32,
    fault: AskFault,
) -> Result<(), Memory>
    ensures { OnOk result (text.new ≡ text.old ++ unasked_line line fault) }
{
    put_decimal(alloc, line as usize, text)?;
    text.append(b" ")?;
    put_refusal(alloc, text, fault)?;
    text.append(b"\n")
}
