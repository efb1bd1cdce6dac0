//! Benches over releases of a few lines.

ghost use Rattle.std.specs.Prelude.{◌≡◌};

use edit_session::{Bench, OpenStop};
use release_rows::Release;
use std::alloc::Global;
use std::marker::Brand;
use std::sync::ledger::{Blank, Ledger};
use std::test::Fail;
use ucd_model::{Core, FactView, Memory, Point, Records, SourceFile, Steps};

/// A letter with a mark, its parts, and another letter, as UnicodeData.txt has them.
const LETTERS: &[u8] =
    b"0041;LATIN CAPITAL LETTER A;Lu;0;L;;;;;N;;;;0061;\n0061;LATIN SMALL LETTER A;Ll;0;L;;;;;N;;;0041;;0041\n00C0;LATIN CAPITAL LETTER A WITH GRAVE;Lu;0;L;0041 0300;;;;N;;;;;\n0300;COMBINING GRAVE ACCENT;Mn;230;NSM;;;;;N;;;;;\n";

/// A bench over a release, which is counted on a ledger of its own.
fn counted<L: Ledger>(alloc: Global, release: Release, blank: Blank) -> Result<Bench, OpenStop>
    requires still { release.prepared ≡ release.current }
    requires name { blank.name ≡ L.name }
    requires parts { blank.parts ≡ L.parts }
    requires some { blank.parts ≡ 1 }
{
    let mut steps = Steps::<L>::new(blank);
    Bench::open(alloc, release, &mut steps)
}

/// A bench over a release whose UnicodeData.txt has these lines, and whose other files are empty.
fn bench_over(alloc: Global, lines: &[u8]) -> Result<Result<Box<Bench>, OpenStop>, Fail> {
    let mut release = Release::empty(alloc);
    release.load_file(SourceFile::UnicodeData, lines)?;
    match counted::<Brand>(alloc, release, Blank::new(1)) {
        Ok(bench) => Ok(Ok(Box::new(alloc, bench)?)),
        Err(stop) => Ok(Err(stop)),
    }
}

/// Whether a bench over the letters shows what their rows give.
fn shows_facts(bench: &Bench) -> bool {
    let capital = Point::at(0x0041);
    let grave = Point::at(0x0300);
    bench.record(capital).core.has(Core::ChangesWhenLowercased)
        && bench.class(grave) == 230
        && bench.pair(capital, grave) == Point::new(0x00C0)
}

/// Whether its packed words lie in pages: that of 0041 says that it has a row and category Lu, the place of which is 0;
/// that of 0300 that it has a row, category Mn, the place of which is 5, and class 230. No code point from 0100 to 01FF
/// has a row.
fn shows_pages(bench: &Bench) -> bool {
    has_word(bench, 0x00, 0x41, 1)
        && has_word(bench, 0x03, 0x00, 1 + 8 * 5 + 256 * 230)
        && bench.packed_page(Point::at(0x0100)).is_none()
        && bench.tables().next().class(Point::at(0x0300)) == 230
}

/// Whether the page of a block has the word at a place.
fn has_word(bench: &Bench, block: u8, place: u8, word: u64) -> bool {
    match bench.packed_page(Point::at(u32::from(block) * 256)) {
        Some((pool, page)) => pool.get(page, place) == word,
        None => false,
    }
}

/// Whether a bench over the letters gives their text back, shows what their rows give, and has its packed words in pages.
fn shows_letters(alloc: Global, bench: &Bench) -> Result<bool, Memory> {
    let text = bench.release().text(alloc, SourceFile::UnicodeData)?;
    Ok(text.as_slice() == LETTERS && shows_facts(bench) && shows_pages(bench))
}

/// Whether a bench opens over the letters, gives their text back, shows what their rows give, and has its packed words in
/// pages. A call lets the bench go, so that this function stays small.
fn are_shown(alloc: Global) -> Result<bool, Fail> {
    let opened = bench_over(alloc, LETTERS)?;
    let shown = match &opened {
        Ok(bench) => shows_letters(alloc, bench),
        Err(_) => Ok(false),
    };
    drop(opened);
    Ok(shown?)
}

#[test]
fn a_bench_shows_records_and_facts(rt: HostRuntime) -> Result<(), Fail> {
    assert!(rt; are_shown(rt.alloc())?);
    Ok(())
}
