//! Runs of `make`: which numbers a release is made of, and what is told of it.

use crate::derives::USAGE;
use crate::runs::ends;
use shelf_io::MemoryShelf;
use std::alloc::Global;
use std::test::Fail;
use ucd_model::Memory;
use ucdshop_core::Status;

/// Texts that are the number of no release.
const NO_NUMBERS: [&[u8]; 10] = [
    b"0", b"51", b"01", b"050", b"99", b"+1", b"1 ", b"1a", b"a1", b"",
];

/// Whether a run of `make` with this number is refused, and nothing is written.
fn is_refused(alloc: Global, number: &[u8]) -> Result<bool, Memory> {
    let mut shelf = Box::new(alloc, MemoryShelf::new(alloc))?;
    let words: [&[u8]; 3] = [b"make", number, b"o"];
    Ok(
        ends(alloc, &words, &mut shelf, 1000, (Status::BadWords, USAGE))?
            && shelf.held(b"o/UnicodeData.txt").is_none(),
    )
}

#[test]
fn numbers_of_no_release_are_refused(rt: HostRuntime) -> Result<(), Fail> {
    for number in &NO_NUMBERS {
        assert!(rt; is_refused(rt.alloc(), number)?);
    }
    Ok(())
}

/// Whether a run of `make` with this number ends well, tells this line, and writes the script.
fn is_made(alloc: Global, number: &[u8], line: &[u8]) -> Result<bool, Memory> {
    let mut shelf = Box::new(alloc, MemoryShelf::new(alloc))?;
    let words: [&[u8]; 3] = [b"make", number, b"o"];
    Ok(ends(alloc, &words, &mut shelf, 1000, (Status::Clean, line))? && has_script(&shelf))
}

fn has_script(shelf: &MemoryShelf) -> bool {
    let script = shelf.held(b"o/script.txt").unwrap_or(b"");
    script.starts_with(b"add CaseFolding.txt 30000; C; 20000\n")
}

#[test]
fn the_least_release_is_made(rt: HostRuntime) -> Result<(), Fail> {
    let line =
        b"ucdshop: make 1: 3001 rows, 1000 groups accepted, 2000 code points changed, 2000 casefold entries\n";
    assert!(rt; is_made(rt.alloc(), b"1", line)?);
    Ok(())
}

#[test]
fn the_largest_release_is_made(rt: HostRuntime) -> Result<(), Fail> {
    let line =
        b"ucdshop: make 50: 150001 rows, 1000 groups accepted, 2000 code points changed, 51000 casefold entries\n";
    assert!(rt; is_made(rt.alloc(), b"50", line)?);
    Ok(())
}
