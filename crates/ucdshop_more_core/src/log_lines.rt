//! The lines of a log: the number of a line of the script, and what is said of it.

ghost use Rattle.std.specs.Prelude.{◌≡◌, ◌++◌, OnOk, codes};
ghost use Rattle.std.specs.Fmt.{decimal};
ghost use Rattle.run_inputs.specs.GroupLines.{log_line};

use std::alloc::Global;
use ucd_lines::put_decimal;
use ucd_model::{Memory, Text};

/// Puts what a line begins with: the number of the script's line, a space, and a word.
///
/// - `Memory`: memory ran out.
pub fn put_head(alloc: Global, line: u32, word: &[u8], text: &mut Text) -> Result<(), Memory>
    ensures { OnOk result (text.new ≡ text.old ++ decimal line ++ codes " " ++ word.now) }
{
    put_decimal(alloc, line as usize, text)?;
    text.append(b" ")?;
    text.append(word)
}

/// Puts a line of one word.
///
/// - `Memory`: memory ran out.
pub fn put_word(alloc: Global, line: u32, word: &[u8], text: &mut Text) -> Result<(), Memory>
    ensures { OnOk result (text.new ≡ text.old ++ log_line line word.now) }
{
    put_head(alloc, line, word, text)?;
    text.append(b"\n")
}

/// Puts a line of a word and a number.
///
/// - `Memory`: memory ran out.
pub fn put_number(
    alloc: Global,
    line: u32,
    word: &[u8],
    number: usize,
    text: &mut Text,
) -> Result<(), Memory>
    ensures { OnOk result (text.new ≡ text.old ++ log_line line (word.now ++ decimal number)) }
{
    put_head(alloc, line, word, text)?;
    put_decimal(alloc, number, text)?;
    text.append(b"\n")
}
