//! Whole runs over shelves and sinks in memory, as the tests make them.

use run_tests::runs::{place_in, place_release, words_of};
use shelf_io::{MemoryShelf, MemorySink};
use std::alloc::Global;
use ucd_model::Memory;
use ucdshop_look_core::{Status, run_look};

/// Letters and marks, as UnicodeData.txt has them but for case mappings.
pub const LETTERS: &[u8] = b"0041;LATIN CAPITAL LETTER A;Lu;0;L;;;;;N;;;;;\n\
      0061;LATIN SMALL LETTER A;Ll;0;L;;;;;N;;;;;\n\
      0300;COMBINING GRAVE ACCENT;Mn;230;NSM;;;;;N;;;;;\n\
      0301;COMBINING ACUTE ACCENT;Mn;230;NSM;;;;;N;;;;;\n";

/// A letter and two marks: [`LETTERS`] without 0041, and with another class of 0300.
const EARLIER: &[u8] = b"0061;LATIN SMALL LETTER A;Ll;0;L;;;;;N;;;;;\n\
      0300;COMBINING GRAVE ACCENT;Mn;220;NSM;;;;;N;;;;;\n\
      0301;COMBINING ACUTE ACCENT;Mn;230;NSM;;;;;N;;;;;\n";

/// The name of a value that questions ask for.
const VALUES: &[u8] = b"gc ; Ll ; Lowercase_Letter\ngc ; Lu ; Uppercase_Letter\n";

/// Places a release into a folder: this UnicodeData.txt, the names of two values, and six empty files.
///
/// - `Memory`: memory ran out.
fn place_named(
    alloc: Global,
    shelf: &mut MemoryShelf,
    folder: &[u8],
    data: &[u8],
) -> Result<(), Memory> {
    place_release(alloc, shelf, folder, data)?;
    place_in(
        alloc,
        shelf,
        folder,
        b"PropertyAliases.txt",
        b"gc ; General_Category\n",
    )?;
    place_in(alloc, shelf, folder, b"PropertyValueAliases.txt", VALUES)
}

/// A shelf with the release of this UnicodeData.txt in `d`, an earlier one in `p`, and this script in `s`.
///
/// - `Memory`: memory ran out.
pub fn shelf_of(alloc: Global, data: &[u8], script: &[u8]) -> Result<Box<MemoryShelf>, Memory> {
    let mut shelf = Box::new(alloc, MemoryShelf::new(alloc))?;
    place_all(alloc, &mut shelf, data, script)?;
    Ok(shelf)
}

fn place_all(
    alloc: Global,
    shelf: &mut MemoryShelf,
    data: &[u8],
    script: &[u8],
) -> Result<(), Memory> {
    place_named(alloc, shelf, b"p", EARLIER)?;
    place_named(alloc, shelf, b"d", data)?;
    shelf.place(b"s", script)
}

/// How a run of these words over a shelf ends, which prints into this sink.
///
/// - `Memory`: memory ran out.
fn run_into(
    alloc: Global,
    words: &[&[u8]],
    shelf: &mut MemoryShelf,
    out: &mut MemorySink,
) -> Result<Status, Memory> {
    let words = words_of(alloc, words)?;
    Ok(run_look(alloc, &words, shelf, out))
}

/// Whether a run of these words over a shelf ends so, and prints so into a sink with room for so many bytes.
///
/// - `Memory`: memory ran out.
pub fn ends(
    alloc: Global,
    words: &[&[u8]],
    shelf: &mut MemoryShelf,
    room: usize,
    expected: (Status, &[u8]),
) -> Result<bool, Memory> {
    let mut out = MemorySink::new(alloc, room)?;
    let status = run_into(alloc, words, shelf, &mut out)?;
    Ok(status == expected.0 && out.written() == expected.1)
}
