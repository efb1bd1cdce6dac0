//! Runs of `ages` in which a read, a write or a print fails.

use crate::runs::{AGES_PATH, EARLIER, LATER, STEPS_PATH, ends, is_untouched, shelf_of};
use run_tests::runs::{SOURCE_NAMES, holds, joined};
use shelf_io::MemoryShelf;
use std::alloc::Global;
use std::test::Fail;
use ucd_model::{Memory, Text};
use ucdshop_more_core::Status;

/// The words of the runs.
const WORDS: [&[u8]; 4] = [b"ages", b"o", b"p", b"d"];

/// The ages of the two releases, the steps and the summary.
const AGES: &[u8] = b"# Age\n0041 ; 1\n0061 ; 1\n00E0 ; 2\n0300..0301 ; 1\n# total 5\n\n";

const STEPS: &[u8] =
    b"# step 2\nP01 0041\nP03 0300\nP05 00E0\nP06 0041\nP07 0041\nP08 0041\nP09 0041\n# total 7\n";

const SUMMARY: &[u8] = b"ages: 2 releases, 5 code points, 7 breaks\n";

/// The line for a read that fails, counted from 1.
///
/// - `Memory`: memory ran out.
fn unread_line(alloc: Global, nth: usize) -> Result<Text, Memory> {
    let (begin, place): (&[u8], usize) = if nth <= 9 {
        (b"read failed: p/", nth)
    } else {
        (b"read failed: d/", nth - 9)
    };
    let name = SOURCE_NAMES
        .get(place.saturating_sub(1))
        .copied()
        .unwrap_or(b"");
    joined(alloc, [begin, name, b"\n"])
}

/// Whether a run is told that a read failed, counted from 1, and writes nothing.
///
/// - `Memory`: memory ran out.
fn tells_read(alloc: Global, nth: u32) -> Result<bool, Memory> {
    let mut shelf = shelf_of(alloc, EARLIER, LATER)?;
    stops_at_read(alloc, &mut shelf, nth)
}

fn stops_at_read(alloc: Global, shelf: &mut MemoryShelf, nth: u32) -> Result<bool, Memory> {
    shelf.fail_read(nth)?;
    let line = unread_line(alloc, nth as usize)?;
    let expected = (Status::ReadFault, line.as_slice());
    Ok(ends(alloc, &WORDS, shelf, 1000, expected)? && is_untouched(shelf))
}

#[test]
fn each_failed_read_is_told(rt: HostRuntime) -> Result<(), Fail> {
    for nth in 1..19 {
        assert!(rt; tells_read(rt.alloc(), nth)?, "read {nth}");
    }
    Ok(())
}

/// Whether a run is told that a write failed, counted from 1, and leaves this in the other file.
///
/// - `Memory`: memory ran out.
fn tells_write(
    alloc: Global,
    nth: u32,
    line: &[u8],
    other: (&[u8], &[u8]),
) -> Result<bool, Memory> {
    let mut shelf = shelf_of(alloc, EARLIER, LATER)?;
    shelf.fail_write(nth)?;
    let expected = (Status::WriteFault, line);
    Ok(ends(alloc, &WORDS, &mut shelf, 1000, expected)? && holds(&shelf, &[other]))
}

#[test]
fn each_failed_write_is_told(rt: HostRuntime) -> Result<(), Fail> {
    assert!(rt;
        tells_write(
            rt.alloc(),
            1,
            b"write failed: o/DerivedAge.txt\n",
            (STEPS_PATH, b"old")
        )?
    );
    assert!(rt;
        tells_write(
            rt.alloc(),
            2,
            b"write failed: o/steps.txt\n",
            (AGES_PATH, AGES)
        )?
    );
    Ok(())
}

/// Whether a run into a sink with room for so many bytes writes both files, and tells so much of its summary.
///
/// - `Memory`: memory ran out.
fn tells_in_part(alloc: Global, room: usize) -> Result<bool, Memory> {
    let mut shelf = shelf_of(alloc, EARLIER, LATER)?;
    let told = SUMMARY.get(..room).unwrap_or(b"");
    let expected = (Status::WriteFault, told);
    Ok(
        ends(alloc, &WORDS, &mut shelf, room, expected)?
            && holds(&shelf, &[(AGES_PATH, AGES), (STEPS_PATH, STEPS)]),
    )
}

#[test]
fn a_short_sink_keeps_the_files(rt: HostRuntime) -> Result<(), Fail> {
    for room in [0, 1, SUMMARY.len() - 1] {
        assert!(rt; tells_in_part(rt.alloc(), room)?);
    }
    Ok(())
}
