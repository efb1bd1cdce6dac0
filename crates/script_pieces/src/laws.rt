//! Laws of pieces: each function here does nothing, and its contract is a law.

ghost use Rattle.script_pieces.specs.Pieces.{PiecesAreFew, PiecesAreWhole, PieceLineNumbersFit};

use ucd_lines::{
    endings_are_told_apart, items_join, no_line_feed_inside, only_the_last_is_unended,
};

/// Marks and the pieces between them, put together, give the file.
pub fn pieces_are_whole()
    ensures { PiecesAreWhole }
{
    items_join();
}

/// The number of a piece's first line and its bytes are together at most one more than the bytes of the file: so a script of it
/// can be read with the lines of the file.
pub fn piece_line_numbers_fit()
    ensures { PieceLineNumbersFit }
{
    items_join();
    no_line_feed_inside();
    only_the_last_is_unended();
    endings_are_told_apart();
}

/// A file has at most one piece more than bytes.
pub fn pieces_are_few()
    ensures { PiecesAreFew }
{
    items_join();
    no_line_feed_inside();
    only_the_last_is_unended();
    endings_are_told_apart();
}
