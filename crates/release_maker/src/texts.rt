//! The texts of a release that is made, and of its script.

ghost use Rattle.std.specs.Prelude.{◌≡◌, ◌≤◌, [], ◌++◌, OnOk, IfOk};
ghost use Rattle.release_maker.specs.MadeTexts.{series, data_text, script_text};
ghost use Rattle.release_maker.specs.Lines.{line_of};

use crate::line::{Series, put_line};
use std::alloc::Global;
use ucd_model::{Memory, Text};

/// The row of the mark that the mappings of all others name.
const MARK: &[u8] = b"0300;MARK;Mn;230;NSM;;;;;N;;;;;\n";

/// The most bytes that one row of each series takes, together. Witness: 29, 43 and 49 bytes at 20000.
const ROWS_LEN: usize = 128;

/// How many commands a script has.
const COMMANDS: u32 = 1000;

/// The most bytes that a command takes. Witness: 36 bytes.
const COMMAND_LEN: usize = 40;

/// The text of UnicodeData.txt with the mark and so many rows of each series. UAX #44, section 4.2.
///
/// - `Memory`: memory ran out.
pub fn data_text(alloc: Global, rows: u32) -> Result<Text, Memory>
    requires { rows ≤ 65536 }
    ensures { IfOk result (λ text. text ≡ data_text rows) }
{
    let mut text = with_room(alloc, MARK.len() + ROWS_LEN * rows as usize)?;
    text.append(MARK)?;
    put_series(Series::Base, rows, &mut text)?;
    put_series(Series::Composite, rows, &mut text)?;
    put_series(Series::Compat, rows, &mut text)?;
    Ok(text)
}

/// The text of the script.
///
/// - `Memory`: memory ran out.
pub fn script_text(alloc: Global) -> Result<Text, Memory>
    ensures { IfOk result (λ text. text ≡ script_text) }
{
    let mut text = with_room(alloc, COMMAND_LEN * COMMANDS as usize)?;
    put_series(Series::Command, COMMANDS, &mut text)?;
    Ok(text)
}

/// The empty text with room for so many bytes.
///
/// - `Memory`: memory ran out.
fn with_room(alloc: Global, len: usize) -> Result<Text, Memory>
    ensures { IfOk result (λ text. text ≡ []) }
{
    let bytes = Vec::with_capacity(alloc, len)?;
    Ok(Text::from_vec(bytes))
}

/// Puts the lines of a series for the numbers below `count`.
///
/// - `Memory`: memory ran out. A part of the lines may then stand at the end of the text.
fn put_series(line: Series, count: u32, text: &mut Text) -> Result<(), Memory>
    requires { count ≤ 65536 }
    ensures { OnOk result (text.new ≡ text.old ++ series (line_of line) count) }
{
    'lines: for i in 0..count {
        put_line(line, i, text)?;
    }
    Ok(())
}
