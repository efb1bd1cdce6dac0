//! The program over a shelf in memory.

ghost use Rattle.std.specs.Prelude.{◌≡◌};

use crate::checker::check;
use run_endings::{Status, path_in};
use shelf_io::{MemoryShelf, MemorySink};
use std::alloc::Global;
use std::marker::Brand;
use std::sync::ledger::{Blank, Ledger};
use std::test::Fail;
use ucd_model::{Memory, SOURCE_FILES, Steps, Text, Texts};

/// A run with a new counter.
fn check_anew<L: Ledger>(
    alloc: Global,
    words: &Texts,
    shelf: &mut MemoryShelf,
    out: &mut MemorySink,
    blank: Blank,
) -> Status
    requires name { blank.name ≡ L.name }
    requires parts { blank.parts ≡ L.parts }
    requires some { blank.parts ≡ 1 }
{
    let mut steps = Steps::<L>::new(blank);
    check(alloc, words, shelf, out, &mut steps)
}

/// The words of a run.
fn words_of(alloc: Global, words: &[&[u8]]) -> Result<Texts, Memory> {
    let mut texts = Texts::new(alloc);
    for word in words {
        texts.push(Text::of(alloc, word)?)?;
    }
    Ok(texts)
}

/// Whether a run of these words ends so, and prints so.
fn ends(
    alloc: Global,
    words: &[&[u8]],
    shelf: &mut MemoryShelf,
    expected: (Status, &[u8]),
) -> Result<bool, Memory> {
    let words = words_of(alloc, words)?;
    let mut out = MemorySink::new(alloc, 1000)?;
    let status = check_anew::<Brand>(alloc, &words, shelf, &mut out, Blank::new(1));
    Ok(status == expected.0 && out.written() == expected.1)
}

/// A shelf with nine files in `d`, all but the first empty.
fn shelf_of(alloc: Global, data: &[u8]) -> Result<Box<MemoryShelf>, Memory> {
    let mut shelf = Box::new(alloc, MemoryShelf::new(alloc))?;
    place_files(alloc, &mut shelf, data)?;
    Ok(shelf)
}

fn place_files(alloc: Global, shelf: &mut MemoryShelf, data: &[u8]) -> Result<(), Memory> {
    for file in &SOURCE_FILES {
        let path = path_in(alloc, b"d", file.path())?;
        shelf.place(path.as_slice(), b"")?;
    }
    shelf.place(b"d/UnicodeData.txt", data)
}

/// Two letters, as UnicodeData.txt has them.
const LETTERS: &[u8] =
    b"0041;LATIN CAPITAL LETTER A;Lu;0;L;;;;;N;;;;0061;\n0061;LATIN SMALL LETTER A;Ll;0;L;;;;;N;;;0041;;0041\n";

/// Whether a folder whose UnicodeData.txt has these lines ends so, and the file is written or not.
fn is_judged(
    alloc: Global,
    data: &[u8],
    expected: (Status, &[u8]),
    written: Option<&[u8]>,
) -> Result<bool, Memory> {
    let mut shelf = shelf_of(alloc, data)?;
    Ok(ends(alloc, &[b"d", b"o"], &mut shelf, expected)? && shelf.held(b"o") == written)
}

#[test]
fn a_valid_folder_is_told(rt: HostRuntime) -> Result<(), Fail> {
    assert!(rt;
        is_judged(
            rt.alloc(),
            LETTERS,
            (Status::Clean, b"check: valid\n"),
            Some(b"valid\n")
        )?
    );
    Ok(())
}

#[test]
fn a_fault_is_told_by_its_line(rt: HostRuntime) -> Result<(), Fail> {
    assert!(rt;
        is_judged(
            rt.alloc(),
            b"0041;A\n",
            (
                Status::LoadRefused,
                b"refused: d/UnicodeData.txt line 1 G03\n"
            ),
            None
        )?
    );
    Ok(())
}

#[test]
fn other_words_have_no_form(rt: HostRuntime) -> Result<(), Fail> {
    let mut shelf = Box::new(rt.alloc(), MemoryShelf::new(rt.alloc()))?;
    assert!(rt;
        ends(
            rt.alloc(),
            &[b"d"],
            &mut shelf,
            (Status::BadWords, b"usage: check DATA OUT\n")
        )?
    );
    Ok(())
}
