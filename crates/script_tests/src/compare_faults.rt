//! Runs of `apply` with an earlier release in which a read, a write or a print fails.

use crate::compares::{BREAKS, BROKEN, EARLIER, LATER, NO_ROW, WORDS, shelf_with};
use run_tests::runs::{CORE_PATH, PREVIOUS_PATHS, SOURCE_PATHS, ends, holds, line_of, status_of};
use shelf_io::MemoryShelf;
use std::alloc::Global;
use std::test::Fail;
use ucd_model::Memory;
use ucdshop_core::Status;

/// The files that a run writes, in their order.
const OUTPUT_PATHS: [&[u8]; 17] = [
    b"o/UnicodeData.txt",
    b"o/PropList.txt",
    b"o/Scripts.txt",
    b"o/auxiliary/WordBreakProperty.txt",
    b"o/CompositionExclusions.txt",
    b"o/CaseFolding.txt",
    b"o/SpecialCasing.txt",
    b"o/PropertyAliases.txt",
    b"o/PropertyValueAliases.txt",
    CORE_PATH,
    b"o/DerivedNormalizationProps.txt",
    b"o/extracted/DerivedGeneralCategory.txt",
    b"o/extracted/DerivedCombiningClass.txt",
    b"o/extracted/DerivedDecompositionType.txt",
    b"o/bench.log",
    b"o/sets.txt",
    b"o/policy.txt",
];

/// The path of a read, counted from 1.
fn read_path(nth: u32) -> &'static [u8] {
    let place = nth as usize;
    if 1 <= place && place <= 9 {
        SOURCE_PATHS[place - 1]
    } else if 11 <= place && place <= 19 {
        PREVIOUS_PATHS[place - 11]
    } else {
        b"s"
    }
}

/// Whether a run over this release is told that a read failed, counted from 1, and writes none of the outputs.
///
/// - `Memory`: memory ran out.
fn tells_read(alloc: Global, data: &[u8], nth: u32) -> Result<bool, Memory> {
    let mut shelf = shelf_to_fail(alloc, data)?;
    stops_at_read(alloc, &mut shelf, nth)
}

fn stops_at_read(alloc: Global, shelf: &mut MemoryShelf, nth: u32) -> Result<bool, Memory> {
    shelf.fail_read(nth)?;
    let line = line_of(alloc, b"read failed: ", read_path(nth))?;
    let expected = (Status::ReadFault, line.as_slice());
    Ok(ends(alloc, &WORDS, shelf, 1000, expected)? && is_old(shelf))
}

/// Whether each output has its old text.
fn is_old(shelf: &MemoryShelf) -> bool {
    OUTPUT_PATHS
        .iter()
        .all(|path| shelf.held(path) == Some(b"old".as_slice()))
}

/// Each read may fail. A failed read is told even if the release has a fault.
#[test]
fn each_failed_read_is_told(rt: HostRuntime) -> Result<(), Fail> {
    for nth in 1..20 {
        assert!(rt; tells_read(rt.alloc(), LATER, nth)?, "read {nth}");
    }
    for nth in [2, 10, 11, 19] {
        assert!(rt; tells_read(rt.alloc(), NO_ROW, nth)?, "read {nth}");
    }
    Ok(())
}

/// Whether a run is done though the read with this number, counted from 1, would fail: it does not come.
fn is_done_before(alloc: Global, shelf: &mut MemoryShelf, nth: u32) -> Result<bool, Memory> {
    shelf.fail_read(nth)?;
    Ok(status_of(alloc, &WORDS, shelf)? == Status::Done)
}

fn reads_no_more(alloc: Global, nth: u32) -> Result<bool, Memory> {
    let mut shelf = shelf_to_fail(alloc, LATER)?;
    is_done_before(alloc, &mut shelf, nth)
}

/// No path is read twice: the words name nineteen, and there is no twentieth read.
#[test]
fn each_path_is_read_once(rt: HostRuntime) -> Result<(), Fail> {
    assert!(rt; reads_no_more(rt.alloc(), 20)?);
    Ok(())
}

/// A shelf with this release and the earlier one, on which each output has an old text.
///
/// - `Memory`: memory ran out.
fn shelf_to_fail(alloc: Global, data: &[u8]) -> Result<Box<MemoryShelf>, Memory> {
    let mut shelf = shelf_with(alloc, data, EARLIER, b"")?;
    place_old(&mut shelf)?;
    Ok(shelf)
}

fn place_old(shelf: &mut MemoryShelf) -> Result<(), Memory> {
    for path in &OUTPUT_PATHS {
        shelf.place(path, b"old")?;
    }
    Ok(())
}

/// Whether the outputs before a place are those of a whole run, and those after it are as they were.
fn is_written_to(shelf: &MemoryShelf, whole: &MemoryShelf, place: usize) -> bool {
    (0..OUTPUT_PATHS.len()).all(|at| is_left(shelf, whole, place, at))
}

/// Whether the output at a place is as it should be after the write at another one failed.
fn is_left(shelf: &MemoryShelf, whole: &MemoryShelf, failed: usize, at: usize) -> bool {
    match OUTPUT_PATHS.get(at) {
        Some(path) if at < failed => shelf.held(path) == whole.held(path),
        Some(path) if failed < at => shelf.held(path) == Some(b"old".as_slice()),
        _ => true,
    }
}

/// Whether a run is told that a write failed, counted from 1, with the files before it written and those after it untouched.
///
/// - `Memory`: memory ran out.
fn tells_write(alloc: Global, whole: &MemoryShelf, nth: u32) -> Result<bool, Memory> {
    let mut shelf = shelf_to_fail(alloc, LATER)?;
    stops_at_write(alloc, &mut shelf, whole, nth)
}

fn stops_at_write(
    alloc: Global,
    shelf: &mut MemoryShelf,
    whole: &MemoryShelf,
    nth: u32,
) -> Result<bool, Memory> {
    shelf.fail_write(nth)?;
    let place = (nth as usize).saturating_sub(1);
    let path = OUTPUT_PATHS.get(place).copied().unwrap_or(b"");
    let line = line_of(alloc, b"write failed: ", path)?;
    let expected = (Status::WriteFault, line.as_slice());
    Ok(ends(alloc, &WORDS, shelf, 1000, expected)? && is_written_to(shelf, whole, place))
}

/// Whether the writes from one to before another, counted from 1, are told if they fail.
///
/// - `Memory`: memory ran out.
fn tell_writes(alloc: Global, from: u32, to: u32) -> Result<bool, Memory> {
    let mut whole = shelf_to_fail(alloc, LATER)?;
    tell_writes_beside(alloc, &mut whole, from, to)
}

/// Whether the writes from one to before another, counted from 1, are told if they fail, beside a run on `whole`, a shelf on
/// which no write fails.
///
/// - `Memory`: memory ran out.
fn tell_writes_beside(
    alloc: Global,
    whole: &mut MemoryShelf,
    from: u32,
    to: u32,
) -> Result<bool, Memory> {
    let mut told = status_of(alloc, &WORDS, whole)? == Status::Done;
    for nth in from..to {
        told = tells_write(alloc, whole, nth)? && told;
    }
    Ok(told)
}

#[test]
fn failed_writes_of_source_files_are_told(rt: HostRuntime) -> Result<(), Fail> {
    assert!(rt; tell_writes(rt.alloc(), 1, 10)?);
    Ok(())
}

#[test]
fn failed_writes_of_other_files_are_told(rt: HostRuntime) -> Result<(), Fail> {
    assert!(rt; tell_writes(rt.alloc(), 10, 18)?);
    Ok(())
}

/// Whether a run into a sink with room for so many bytes writes each file as a whole run does, and tells so much of its
/// summary.
///
/// - `Memory`: memory ran out.
fn tells_in_part(alloc: Global, whole: &MemoryShelf, room: usize) -> Result<bool, Memory> {
    let mut shelf = shelf_to_fail(alloc, LATER)?;
    let told = BROKEN.get(..room).unwrap_or(b"");
    let expected = (Status::WriteFault, told);
    Ok(
        ends(alloc, &WORDS, &mut shelf, room, expected)?
            && is_written_to(&shelf, whole, OUTPUT_PATHS.len()),
    )
}

/// Whether runs into three sinks that are too small write each file as the run on `whole` does, and tell as much of their
/// summary as there is room for. The run on the shelf `whole` is told whole.
///
/// - `Memory`: memory ran out.
fn tell_in_part(alloc: Global, whole: &mut MemoryShelf) -> Result<bool, Memory> {
    let mut told = status_of(alloc, &WORDS, whole)? == Status::Done
        && holds(
            whole,
            &[(b"o/policy.txt", BREAKS), (b"o/UnicodeData.txt", LATER)],
        );
    for room in [0, 1, BROKEN.len() - 1] {
        told = tells_in_part(alloc, whole, room)? && told;
    }
    Ok(told)
}

#[test]
fn a_short_sink_keeps_the_files(rt: HostRuntime) -> Result<(), Fail> {
    let mut whole = shelf_to_fail(rt.alloc(), LATER)?;
    assert!(rt; tell_in_part(rt.alloc(), &mut whole)?);
    Ok(())
}
