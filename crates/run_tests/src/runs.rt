//! Whole runs over shelves and sinks in memory, as the tests of all three programs make them.

use shelf_io::{MemoryShelf, MemorySink};
use std::alloc::Global;
use ucd_model::{Memory, Text, Texts};
use ucdshop_core::{Status, run};

/// Two letters, as UnicodeData.txt has them.
pub const LETTERS: &[u8] =
    b"0041;LATIN CAPITAL LETTER A;Lu;0;L;;;;;N;;;;0061;\n0061;LATIN SMALL LETTER A;Ll;0;L;;;;;N;;;0041;;0041\n";

/// A letter, its composite with a mark, and the mark, as UnicodeData.txt has them.
pub const GRAVE: &[u8] =
    b"0041;LATIN CAPITAL LETTER A;Lu;0;L;;;;;N;;;;;\n00C0;LATIN CAPITAL LETTER A WITH GRAVE;Lu;0;L;0041 0300;;;;N;;;;;\n0300;COMBINING GRAVE ACCENT;Mn;230;NSM;;;;;N;;;;;\n";

/// A path, and what it holds.
pub type File = (&'static [u8], &'static [u8]);

/// The summary of a run that wrote all files.
pub const SUMMARY: &[u8] =
    b"ucdshop: 0 groups accepted, 0 commands refused, 0 sets answered, 0 policy breaks\n";

/// The source files of a folder, in their order.
pub const SOURCE_NAMES: [&[u8]; 9] = [
    b"UnicodeData.txt",
    b"PropList.txt",
    b"Scripts.txt",
    b"auxiliary/WordBreakProperty.txt",
    b"CompositionExclusions.txt",
    b"CaseFolding.txt",
    b"SpecialCasing.txt",
    b"PropertyAliases.txt",
    b"PropertyValueAliases.txt",
];

/// The source files, in their order.
pub const SOURCE_PATHS: [&[u8]; 9] = [
    b"d/UnicodeData.txt",
    b"d/PropList.txt",
    b"d/Scripts.txt",
    b"d/auxiliary/WordBreakProperty.txt",
    b"d/CompositionExclusions.txt",
    b"d/CaseFolding.txt",
    b"d/SpecialCasing.txt",
    b"d/PropertyAliases.txt",
    b"d/PropertyValueAliases.txt",
];

/// The source files of an earlier release, in their order.
pub const PREVIOUS_PATHS: [&[u8]; 9] = [
    b"p/UnicodeData.txt",
    b"p/PropList.txt",
    b"p/Scripts.txt",
    b"p/auxiliary/WordBreakProperty.txt",
    b"p/CompositionExclusions.txt",
    b"p/CaseFolding.txt",
    b"p/SpecialCasing.txt",
    b"p/PropertyAliases.txt",
    b"p/PropertyValueAliases.txt",
];

/// The path of a derived file.
pub const CORE_PATH: &[u8] = b"o/DerivedCoreProperties.txt";

/// Three texts, one behind the other.
///
/// - `Memory`: memory ran out.
pub fn joined(alloc: Global, parts: [&[u8]; 3]) -> Result<Text, Memory> {
    let mut text = Text::new(alloc);
    put_parts(&mut text, parts)?;
    Ok(text)
}

fn put_parts(text: &mut Text, parts: [&[u8]; 3]) -> Result<(), Memory> {
    text.append(parts[0])?;
    text.append(parts[1])?;
    text.append(parts[2])
}

/// Places a release into a folder: this UnicodeData.txt, and eight empty files.
///
/// - `Memory`: memory ran out.
pub fn place_release(
    alloc: Global,
    shelf: &mut MemoryShelf,
    folder: &[u8],
    data: &[u8],
) -> Result<(), Memory> {
    for name in &SOURCE_NAMES {
        place_in(alloc, shelf, folder, name, b"")?;
    }
    place_in(alloc, shelf, folder, b"UnicodeData.txt", data)
}

/// Places a file into a folder.
///
/// - `Memory`: memory ran out.
pub fn place_in(
    alloc: Global,
    shelf: &mut MemoryShelf,
    folder: &[u8],
    name: &[u8],
    bytes: &[u8],
) -> Result<(), Memory> {
    let path = joined(alloc, [folder, b"/", name])?;
    shelf.place(path.as_slice(), bytes)
}

/// The words of a run.
///
/// - `Memory`: memory ran out.
pub fn words_of(alloc: Global, words: &[&[u8]]) -> Result<Texts, Memory> {
    let mut texts = Texts::new(alloc);
    for word in words {
        texts.push(Text::of(alloc, word)?)?;
    }
    Ok(texts)
}

/// A shelf with the nine source files in `d`, seven of them empty, and an older derived file and a stranger in `o`.
///
/// - `Memory`: memory ran out.
pub fn shelf_of(alloc: Global, data: &[u8], properties: &[u8]) -> Result<Box<MemoryShelf>, Memory> {
    let mut shelf = Box::new(alloc, MemoryShelf::new(alloc))?;
    place_files(&mut shelf, data, properties)?;
    Ok(shelf)
}

fn place_files(shelf: &mut MemoryShelf, data: &[u8], properties: &[u8]) -> Result<(), Memory> {
    for path in &SOURCE_PATHS {
        shelf.place(path, b"")?;
    }
    shelf.place(b"d/UnicodeData.txt", data)?;
    shelf.place(b"d/PropList.txt", properties)?;
    shelf.place(CORE_PATH, b"old")?;
    shelf.place(b"o/other", b"kept")
}

/// How a run of these words over a shelf ends, which prints into this sink.
///
/// - `Memory`: memory ran out.
fn run_into(
    alloc: Global,
    words: &[&[u8]],
    shelf: &mut MemoryShelf,
    out: &mut MemorySink,
) -> Result<Status, Memory> {
    let words = words_of(alloc, words)?;
    Ok(run(alloc, &words, shelf, out))
}

/// How a run of these words over a shelf ends.
///
/// - `Memory`: memory ran out.
pub fn status_of(
    alloc: Global,
    words: &[&[u8]],
    shelf: &mut MemoryShelf,
) -> Result<Status, Memory> {
    let mut out = MemorySink::new(alloc, 1000)?;
    run_into(alloc, words, shelf, &mut out)
}

/// Whether a run of these words over a shelf ends so, and prints so into a sink with room for so many bytes.
///
/// - `Memory`: memory ran out.
pub fn ends(
    alloc: Global,
    words: &[&[u8]],
    shelf: &mut MemoryShelf,
    room: usize,
    expected: (Status, &[u8]),
) -> Result<bool, Memory> {
    let mut out = MemorySink::new(alloc, room)?;
    let status = run_into(alloc, words, shelf, &mut out)?;
    Ok(status == expected.0 && out.written() == expected.1)
}

/// Whether `derive d o` over a shelf ends so, prints so into a sink with room for so many bytes, and leaves this
/// derived file.
///
/// - `Memory`: memory ran out.
pub fn derives(
    alloc: Global,
    shelf: &mut MemoryShelf,
    room: usize,
    expected: (Status, &[u8], &[u8]),
) -> Result<bool, Memory> {
    let ended = ends(
        alloc,
        &[b"derive", b"d", b"o"],
        shelf,
        room,
        (expected.0, expected.1),
    )?;
    Ok(ended && holds(shelf, &[(CORE_PATH, expected.2), (b"o/other", b"kept")]))
}

/// The summary of a run: how many groups were accepted, commands refused and sets answered, in digits.
///
/// - `Memory`: memory ran out.
pub fn summary_of(alloc: Global, counts: [&[u8]; 3]) -> Result<Text, Memory> {
    let mut line = Text::new(alloc);
    put_summary(&mut line, counts)?;
    Ok(line)
}

fn put_summary(line: &mut Text, counts: [&[u8]; 3]) -> Result<(), Memory> {
    line.append(b"ucdshop: ")?;
    line.append(counts[0])?;
    line.append(b" groups accepted, ")?;
    line.append(counts[1])?;
    line.append(b" commands refused, ")?;
    line.append(counts[2])?;
    line.append(b" sets answered, 0 policy breaks\n")
}

/// The line that names a path.
///
/// - `Memory`: memory ran out.
pub fn line_of(alloc: Global, said: &[u8], path: &[u8]) -> Result<Text, Memory> {
    let mut line = Text::new(alloc);
    put_line(&mut line, said, path)?;
    Ok(line)
}

fn put_line(line: &mut Text, said: &[u8], path: &[u8]) -> Result<(), Memory> {
    line.append(said)?;
    line.append(path)?;
    line.push(b'\n')
}

/// Whether a shelf holds these files.
pub fn holds(shelf: &MemoryShelf, files: &[(&[u8], &[u8])]) -> bool {
    files.iter().all(|file| shelf.held(file.0) == Some(file.1))
}
