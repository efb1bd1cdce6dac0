//! Reads a piece of a file by itself.

ghost use Rattle.std.specs.Prelude.{◌≡◌, ◌+◌, ◌<◌, ◌^◌};
ghost use Rattle.release_rows.specs.Loading.{faulty_last, fault_line};
ghost use Rattle.release_rows.specs.Pieces.{piece_content};
ghost use Rattle.release_rows.specs.Progress.{ReadsPiece, StopsAs};
ghost use Rattle.release_rows.specs.StoredItems.{piece_of};

use crate::load_row::load_row;
use crate::load_stop::{LoadRule, LoadStop};
use crate::loaded_row::LoadedRow;
use crate::piece::RowLines;
use source_rows::{FieldsCache, RowFault, RowStop, read_row_ref};
use std::alloc::Global;
use ucd_facts::SourceFile;
use ucd_lines::is_trivia;

/// Whether a fault is that of the second line of a range.
fn is_last_line_fault(file: SourceFile, piece: RowLines<'_>, fault: RowFault) -> bool
    ensures { result ≡ faulty_last file (piece_of piece.entry) fault }
{
    if !matches!(fault, RowFault::G04) || piece.last.is_none() {
        return false;
    }
    matches!(read_row_ref(file, piece.first.content), Err(RowFault::G09))
}

/// The fault of a piece whose first line has this number.
fn stop_at(file: SourceFile, line: u32, piece: RowLines<'_>, fault: RowFault) -> LoadStop
    requires { line + 1 < 2 ^ 32 }
    ensures { StopsAs result (record {
      line = fault_line file line
          (piece_of piece.entry) fault;
      rule = LoadRule.Row fault;
    }) }
{
    let rule = LoadRule::Row(fault);
    if is_last_line_fault(file, piece, fault) {
        return LoadStop::Fault {
            line: line + 1,
            rule,
        };
    }
    LoadStop::Fault { line, rule }
}

/// What is kept of the row of a piece, whose first line has this number, and nothing if the piece is trivia. What the
/// last row of UnicodeData.txt above gave is not read again.
///
/// - `Fault { line, rule }`: the piece is no row, and `rule` is the first rule that it breaks by itself. The line is
///   this one, and the next one if the fault is that of the second line of a range.
/// - `Memory`: memory ran out.
pub fn read_piece<'a>(
    alloc: Global,
    file: SourceFile,
    line: u32,
    piece: RowLines<'a>,
    content: &'a [u8],
    above: &mut FieldsCache<'a>,
) -> Result<Option<LoadedRow>, LoadStop>
    requires fits { line + 1 < 2 ^ 32 }
    requires content { content.now ≡ piece_content (piece_of piece) }
    ensures { ReadsPiece file line (piece_of piece.entry) result }
{
    if is_trivia(file, content) {
        return Ok(None);
    }
    match load_row(alloc, file, content, above) {
        Ok(entry) => Ok(Some(entry)),
        Err(RowStop::Fault(fault)) => Err(stop_at(file, line, piece, fault)),
        Err(RowStop::Memory) => Err(LoadStop::Memory),
    }
}
