//! Runs of `conform` that write their file, and those whose file of cases is refused.

use crate::runs::{GRAVE, ends};
use run_tests::runs::place_release;
use shelf_io::MemoryShelf;
use std::alloc::Global;
use std::test::Fail;
use ucd_model::Memory;
use ucdshop_more_core::Status;

/// The words of each run.
const WORDS: &[&[u8]] = &[b"conform", b"d", b"t", b"o"];

/// A file of cases, how the run over it ends, and the file that it writes, if it writes one.
#[derive(Clone, Copy)]
struct Tried {
    cases: &'static [u8],
    status: Status,
    line: &'static [u8],
    written: Option<&'static [u8]>,
}

const RUNS: [Tried; 6] = [
    Tried {
        cases: b"@Part1\n00C0;00C0;0041 0300;00C0;0041 0300; # A\n",
        status: Status::Clean,
        line: b"conform: 1 cases, 0 misses\n",
        written: Some(b"# total 0\n"),
    },
    Tried {
        cases: b"@Part1\n00C0;0041 0300;0041 0300;00C0;0041 0300; # A\n",
        status: Status::Done,
        line: b"conform: 1 cases, 3 misses\n",
        written: Some(b"2 NFC 1\n2 NFC 2\n2 NFC 3\n# total 3\n"),
    },
    Tried {
        cases: b"@Part1\n",
        status: Status::Done,
        line: b"conform: 0 cases, 2 misses\n",
        written: Some(b"point 00C0 NFD\npoint 00C0 NFKD\n# total 2\n"),
    },
    Tried {
        cases: b"",
        status: Status::Clean,
        line: b"conform: 0 cases, 0 misses\n",
        written: Some(b"# total 0\n"),
    },
    Tried {
        cases: b"@Part1\n00C0;00C0\n",
        status: Status::LoadRefused,
        line: b"refused: t line 2 N1\n",
        written: None,
    },
    Tried {
        cases: b"@Part\n00C0;00C0\n",
        status: Status::LoadRefused,
        line: b"refused: t line 1 N3\n",
        written: None,
    },
];

/// A shelf with a release in `d`.
///
/// - `Memory`: memory ran out.
fn shelf_of(alloc: Global, data: &[u8]) -> Result<Box<MemoryShelf>, Memory> {
    let mut shelf = Box::new(alloc, MemoryShelf::new(alloc))?;
    place_release(alloc, &mut shelf, b"d", data)?;
    Ok(shelf)
}

/// Whether the run over a file of cases ends so, and writes this.
///
/// - `Memory`: memory ran out.
fn is_tried(alloc: Global, tried: &Tried) -> Result<bool, Memory> {
    let mut shelf = shelf_of(alloc, GRAVE)?;
    shelf.place(b"t", tried.cases)?;
    let expected = (tried.status, tried.line);
    Ok(
        ends(alloc, WORDS, &mut shelf, 1000, expected)?
            && shelf.held(b"o/conform.txt") == tried.written,
    )
}

#[test]
fn misses_are_written_and_faults_refused(rt: HostRuntime) -> Result<(), Fail> {
    for tried in &RUNS {
        assert!(rt; is_tried(rt.alloc(), tried)?);
    }
    Ok(())
}

/// The release is judged before the file of cases, which may be absent.
///
/// - `Memory`: memory ran out.
fn are_in_order(alloc: Global) -> Result<bool, Memory> {
    let mut absent = shelf_of(alloc, GRAVE)?;
    let mut broken = shelf_of(alloc, b"0041\n")?;
    let told = b"refused: t line 0 G01\n".as_slice();
    let first = b"refused: d/UnicodeData.txt line 1 G03\n".as_slice();
    Ok(
        ends(alloc, WORDS, &mut absent, 1000, (Status::LoadRefused, told))?
            && ends(
                alloc,
                WORDS,
                &mut broken,
                1000,
                (Status::LoadRefused, first),
            )?,
    )
}

#[test]
fn the_release_is_judged_first(rt: HostRuntime) -> Result<(), Fail> {
    assert!(rt; are_in_order(rt.alloc())?);
    Ok(())
}
