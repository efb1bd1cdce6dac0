//! Where an item of a file stands in the text of the file.

ghost use Rattle.std.specs.Prelude.{◌≡◌, drop, take};
ghost use Rattle.release_rows.specs.StoredItems.{content_at};

use crate::brief::Brief;
use ucd_lines::Ending;

/// A line of trivia, or the lines of a row: where the content stands in the text of the file, what ends it, and how
/// many lines it has, 1 or 2.
#[derive(Clone, Copy, Debug)]
pub struct StoredItem {
    /// The place of the first byte, counted from 0.
    pub start: u32,
    /// How many bytes the content has.
    pub len: u32,
    /// What ends the last line.
    pub ending: Ending,
    /// How many lines there are.
    pub lines: u8,
    /// What is kept of what the row gives.
    pub brief: Brief,
}

/// What stands behind the first `at` bytes; nothing if there are no more.
fn bytes_behind(text: &[u8], at: usize) -> &[u8]
    ensures { result.now ≡ drop at text.now }
{
    if at >= text.len() {
        return &[];
    }
    &text[at..]
}

/// The first `len` bytes; all if there are no more.
fn first_bytes(text: &[u8], len: usize) -> &[u8]
    ensures { result.now ≡ take len text.now }
{
    if len >= text.len() {
        return text;
    }
    &text[..len]
}

/// The content of an item in the text of its file.
pub fn content_in(text: &[u8], stored: StoredItem) -> &[u8]
    ensures { result.now ≡ content_at text.now stored }
{
    first_bytes(
        bytes_behind(text, stored.start as usize),
        stored.len as usize,
    )
}
