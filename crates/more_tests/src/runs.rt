//! Whole runs over shelves and sinks in memory, as the tests make them.

use run_tests::runs::{holds, place_release, words_of};
use shelf_io::{MemoryShelf, MemorySink};
use std::alloc::Global;
use ucd_model::Memory;
use ucdshop_more_core::{Status, run_more};

/// Letters and marks, as UnicodeData.txt has them but for case mappings.
pub const EARLIER: &[u8] =
    b"0041;LATIN CAPITAL LETTER A;Lu;0;L;;;;;N;;;;;\n0061;LATIN SMALL LETTER A;Ll;0;L;;;;;N;;;;;\n0300;COMBINING GRAVE ACCENT;Mn;230;NSM;;;;;N;;;;;\n0301;COMBINING ACUTE ACCENT;Mn;230;NSM;;;;;N;;;;;\n";

/// Letters and marks: [`EARLIER`] without 0041, with another class of 0300, and with 00E0, the composite of 0061 and 0300.
pub const LATER: &[u8] =
    b"0061;LATIN SMALL LETTER A;Ll;0;L;;;;;N;;;;;\n00E0;LATIN SMALL LETTER A WITH GRAVE;Ll;0;L;0061 0300;;;;N;;;;;\n0300;COMBINING GRAVE ACCENT;Mn;220;NSM;;;;;N;;;;;\n0301;COMBINING ACUTE ACCENT;Mn;230;NSM;;;;;N;;;;;\n";

/// A letter, a mark, and their composite.
pub const GRAVE: &[u8] =
    b"0041;LATIN CAPITAL LETTER A;Lu;0;L;;;;;N;;;;;\n00C0;LATIN CAPITAL LETTER A WITH GRAVE;Lu;0;L;0041 0300;;;;N;;;;;\n0300;COMBINING GRAVE ACCENT;Mn;230;NSM;;;;;N;;;;;\n";

/// The first file that a run of `ages` writes.
pub const AGES_PATH: &[u8] = b"o/DerivedAge.txt";

/// The second one.
pub const STEPS_PATH: &[u8] = b"o/steps.txt";

/// A shelf with the releases of these two UnicodeData.txt in `p` and `d`, old files in `o`, and a stranger.
///
/// - `Memory`: memory ran out.
pub fn shelf_of(alloc: Global, earlier: &[u8], later: &[u8]) -> Result<Box<MemoryShelf>, Memory> {
    let mut shelf = Box::new(alloc, MemoryShelf::new(alloc))?;
    place_both(alloc, &mut shelf, earlier, later)?;
    Ok(shelf)
}

fn place_both(
    alloc: Global,
    shelf: &mut MemoryShelf,
    earlier: &[u8],
    later: &[u8],
) -> Result<(), Memory> {
    place_release(alloc, shelf, b"p", earlier)?;
    place_release(alloc, shelf, b"d", later)?;
    shelf.place(AGES_PATH, b"old")?;
    shelf.place(STEPS_PATH, b"old")?;
    shelf.place(b"o/other", b"kept")
}

/// How a run of these words over a shelf ends, which prints into this sink.
///
/// - `Memory`: memory ran out.
fn run_into(
    alloc: Global,
    words: &[&[u8]],
    shelf: &mut MemoryShelf,
    out: &mut MemorySink,
) -> Result<Status, Memory> {
    let words = words_of(alloc, words)?;
    Ok(run_more(alloc, &words, shelf, out))
}

/// Whether a run of these words over a shelf ends so, and prints so into a sink with room for so many bytes.
///
/// - `Memory`: memory ran out.
pub fn ends(
    alloc: Global,
    words: &[&[u8]],
    shelf: &mut MemoryShelf,
    room: usize,
    expected: (Status, &[u8]),
) -> Result<bool, Memory> {
    let mut out = MemorySink::new(alloc, room)?;
    let status = run_into(alloc, words, shelf, &mut out)?;
    Ok(status == expected.0 && out.written() == expected.1)
}

/// Whether a shelf holds what it held before a run that wrote nothing.
pub fn is_untouched(shelf: &MemoryShelf) -> bool {
    holds(
        shelf,
        &[
            (AGES_PATH, b"old"),
            (STEPS_PATH, b"old"),
            (b"o/other", b"kept"),
        ],
    )
}
