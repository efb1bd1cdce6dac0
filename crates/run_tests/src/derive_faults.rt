//! Runs of `derive` that are refused, and those in which a read, a write or a print fails.

use crate::derives::{LETTERS_CORE, are_refused};
use crate::other_files::OTHER_PATHS;
use crate::runs::{
    CORE_PATH, LETTERS, SOURCE_PATHS, SUMMARY, derives, ends, holds, line_of, shelf_of,
};
use shelf_io::MemoryShelf;
use std::alloc::Global;
use std::test::Fail;
use ucd_model::{Memory, Text};
use ucdshop_core::Status;

const SWAPPED: &[u8] =
    b"0061;LATIN SMALL LETTER A;Ll;0;L;;;;;N;;;0041;;0041\n0041;LATIN CAPITAL LETTER A;Lu;0;L;;;;;N;;;;0061;\n";

/// UnicodeData.txt and PropList.txt, and the line that tells their first fault.
const FAULTS: [(&[u8], &[u8], &[u8]); 12] = [
    (
        b"0041;A;Xx;0;L;;;;;N;;;;0061;\n",
        b"",
        b"refused: d/UnicodeData.txt line 1 G05\n",
    ),
    (
        LETTERS,
        b"10FFFF..110000 ; Noncharacter_Code_Point\n",
        b"refused: d/PropList.txt line 1 G04\n",
    ),
    (
        b"0041\n",
        b"x\n",
        b"refused: d/UnicodeData.txt line 1 G03\n",
    ),
    (
        LETTERS,
        b"# head\n\n0041 ; A\n0042 ; \n",
        b"refused: d/PropList.txt line 4 G11\n",
    ),
    (
        b"4E00;<CJK Ideograph, First>;Lo;0;L;;;;;N;;;;;\n",
        b"",
        b"refused: d/UnicodeData.txt line 1 G09\n",
    ),
    // a comment between the lines of a range; another label; a last code point below the first; and no first one
    (
        b"4E00;<R, First>;Lo;0;L;;;;;N;;;;;\n# x\n4E10;<R, Last>;Lo;0;L;;;;;N;;;;;\n",
        b"",
        b"refused: d/UnicodeData.txt line 1 G09\n",
    ),
    (
        b"4E00;<R, First>;Lo;0;L;;;;;N;;;;;\n4E10;<S, Last>;Lo;0;L;;;;;N;;;;;\n",
        b"",
        b"refused: d/UnicodeData.txt line 1 G09\n",
    ),
    (
        b"4E00;<R, First>;Lo;0;L;;;;;N;;;;;\n4DFF;<R, Last>;Lo;0;L;;;;;N;;;;;\n",
        b"",
        b"refused: d/UnicodeData.txt line 2 G04\n",
    ),
    (
        b"4DFF;<R, Last>;Lo;0;L;;;;;N;;;;;\n",
        b"",
        b"refused: d/UnicodeData.txt line 1 G09\n",
    ),
    (
        LETTERS,
        b"0020 ; White_Space\n0020 ; White_Space\n",
        b"refused: d/PropList.txt line 2 K1\n",
    ),
    (
        LETTERS,
        b"0020..0022 ; White_Space\n0021 ; White_Space\n",
        b"refused: d/PropList.txt line 2 K4\n",
    ),
    (SWAPPED, b"", b"refused: d/UnicodeData.txt line 2 K5\n"),
];

/// Whether a release is refused by this line, and nothing is written.
fn is_refused(alloc: Global, data: &[u8], properties: &[u8], line: &[u8]) -> Result<bool, Memory> {
    let mut shelf = shelf_of(alloc, data, properties)?;
    let expected = (Status::LoadRefused, line, b"old".as_slice());
    derives(alloc, &mut shelf, 1000, expected)
}

#[test]
fn files_are_refused_by_their_first_fault(rt: HostRuntime) -> Result<(), Fail> {
    for (data, properties, line) in &FAULTS {
        assert!(rt; is_refused(rt.alloc(), data, properties, line)?);
    }
    Ok(())
}

/// Puts a row of a code point that maps to another one so many times.
///
/// - `Memory`: memory ran out.
fn put_times(data: &mut Text, times: u32) -> Result<(), Memory> {
    data.append(b"1000;X;So;0;L;<compat>")?;
    for _ in 0..times {
        data.append(b" 1000")?;
    }
    data.append(b";;;;N;;;;;\n")
}

fn long_mapping_is_refused(alloc: Global) -> Result<bool, Memory> {
    let mut data = Text::new(alloc);
    put_times(&mut data, 65)?;
    let line = b"refused: d/UnicodeData.txt line 1 G07\n";
    is_refused(alloc, data.as_slice(), b"", line)
}

#[test]
fn a_mapping_of_65_members_is_refused(rt: HostRuntime) -> Result<(), Fail> {
    assert!(rt; long_mapping_is_refused(rt.alloc())?);
    Ok(())
}

/// A file of the greatest size that is one line.
#[test]
fn a_line_of_semicolons_alone_is_refused(rt: HostRuntime) -> Result<(), Fail> {
    let line = b"refused: d/PropList.txt line 1 G03\n";
    let properties = vec![in rt.alloc(); b';'; 33_554_432]?;
    assert!(rt; is_refused(rt.alloc(), b"", properties.as_slice(), line)?);
    Ok(())
}

/// The first source file that is absent, the first one behind it that is not, and the line that is told.
const ABSENT: [(usize, usize, &[u8]); 3] = [
    (1, 2, b"refused: d/PropList.txt line 0 G01\n"),
    (5, 6, b"refused: d/CaseFolding.txt line 0 G01\n"),
    (1, 9, b"refused: d/PropList.txt line 0 G01\n"),
];

/// Places all source files but those from one to before another.
fn place_without(shelf: &mut MemoryShelf, from: usize, to: usize) -> Result<(), Memory> {
    for at in 0..SOURCE_PATHS.len() {
        if at < from || to <= at {
            shelf.place(SOURCE_PATHS[at], b"")?;
        }
    }
    shelf.place(b"d/UnicodeData.txt", LETTERS)
}

/// Whether a new shelf without these source files is refused by this line, and nothing is written.
fn refuses_without(alloc: Global, from: usize, to: usize, line: &[u8]) -> Result<bool, Memory> {
    let mut shelf = Box::new(alloc, MemoryShelf::new(alloc))?;
    refuses_over(alloc, &mut shelf, from, to, line)
}

fn refuses_over(
    alloc: Global,
    shelf: &mut MemoryShelf,
    from: usize,
    to: usize,
    line: &[u8],
) -> Result<bool, Memory> {
    place_without(shelf, from, to)?;
    let words: [&[u8]; 3] = [b"derive", b"d", b"o"];
    Ok(
        ends(alloc, &words, shelf, 1000, (Status::LoadRefused, line))?
            && shelf.held(CORE_PATH).is_none(),
    )
}

/// The first file that is absent is named, even if others behind it are absent too.
#[test]
fn an_absent_file_is_refused(rt: HostRuntime) -> Result<(), Fail> {
    for (from, to, line) in &ABSENT {
        assert!(rt; refuses_without(rt.alloc(), *from, *to, line)?);
    }
    Ok(())
}

/// How many bytes Scripts.txt has, and how a run ends then: its status, its line and the derived file.
const LIMITS: [(usize, (Status, &[u8], &[u8])); 2] = [
    (33_554_432, (Status::Clean, SUMMARY, LETTERS_CORE)),
    (
        33_554_433,
        (
            Status::LoadRefused,
            b"refused: d/Scripts.txt line 0 G02\n",
            b"old",
        ),
    ),
];

fn derives_long(
    alloc: Global,
    scripts: &[u8],
    expected: (Status, &[u8], &[u8]),
) -> Result<bool, Memory> {
    let mut shelf = shelf_of(alloc, LETTERS, b"")?;
    derives_with(alloc, &mut shelf, scripts, expected)
}

fn derives_with(
    alloc: Global,
    shelf: &mut MemoryShelf,
    scripts: &[u8],
    expected: (Status, &[u8], &[u8]),
) -> Result<bool, Memory> {
    shelf.place(b"d/Scripts.txt", scripts)?;
    derives(alloc, shelf, 1000, expected)
}

#[test]
fn a_file_has_a_limit(rt: HostRuntime) -> Result<(), Fail> {
    for (len, expected) in &LIMITS {
        let scripts = vec![in rt.alloc(); b'#'; *len]?;
        assert!(rt; derives_long(rt.alloc(), scripts.as_slice(), *expected)?);
    }
    Ok(())
}

/// Whether a run over a new shelf is told that the read of a source file failed, counted from 1.
fn tells_read(alloc: Global, nth: u32) -> Result<bool, Memory> {
    let mut shelf = shelf_of(alloc, LETTERS, b"")?;
    stops_at_read(alloc, &mut shelf, nth)
}

fn stops_at_read(alloc: Global, shelf: &mut MemoryShelf, nth: u32) -> Result<bool, Memory> {
    shelf.fail_read(nth)?;
    let at = (nth as usize).saturating_sub(1);
    let path = SOURCE_PATHS.get(at).copied().unwrap_or(b"");
    let line = line_of(alloc, b"read failed: ", path)?;
    let expected = (Status::ReadFault, line.as_slice(), b"old".as_slice());
    derives(alloc, shelf, 1000, expected)
}

#[test]
fn a_failed_read_is_told(rt: HostRuntime) -> Result<(), Fail> {
    for nth in 1..10 {
        assert!(rt; tells_read(rt.alloc(), nth)?, "read {nth}");
    }
    Ok(())
}

/// Whether a run is told that its second write failed, and writes no file behind it.
fn tells_second_write(alloc: Global) -> Result<bool, Memory> {
    let mut shelf = shelf_of(alloc, LETTERS, b"")?;
    stops_at_second_write(alloc, &mut shelf)
}

fn stops_at_second_write(alloc: Global, shelf: &mut MemoryShelf) -> Result<bool, Memory> {
    shelf.place(OTHER_PATHS[1], b"old")?;
    shelf.fail_write(2)?;
    let line = b"write failed: o/DerivedNormalizationProps.txt\n".as_slice();
    let expected = (Status::WriteFault, line, LETTERS_CORE);
    Ok(
        derives(alloc, shelf, 1000, expected)?
            && holds(shelf, &[(OTHER_PATHS[1], b"old")])
            && shelf.held(OTHER_PATHS[2]).is_none()
            && shelf.held(OTHER_PATHS[3]).is_none(),
    )
}

#[test]
fn a_failed_write_is_told(rt: HostRuntime) -> Result<(), Fail> {
    assert!(rt; tells_second_write(rt.alloc())?);
    Ok(())
}

/// Whether a run into a sink with room for so many bytes writes its files, and tells so much of its summary.
fn tells_in_part(alloc: Global, room: usize) -> Result<bool, Memory> {
    let mut shelf = shelf_of(alloc, LETTERS, b"")?;
    let told = SUMMARY.get(..room).unwrap_or(b"");
    derives(
        alloc,
        &mut shelf,
        room,
        (Status::WriteFault, told, LETTERS_CORE),
    )
}

#[test]
fn a_short_sink_keeps_the_files(rt: HostRuntime) -> Result<(), Fail> {
    for room in [0, 1, SUMMARY.len() - 1] {
        assert!(rt; tells_in_part(rt.alloc(), room)?, "room {room}");
    }
    assert!(rt; are_refused(rt.alloc(), &[b"derive"], 3, b"usa")?);
    Ok(())
}

/// Whether a run over a new shelf with one file is told that its second read failed.
fn tells_second_read(alloc: Global, path: &[u8]) -> Result<bool, Memory> {
    let mut shelf = Box::new(alloc, MemoryShelf::new(alloc))?;
    stops_at_second_read(alloc, &mut shelf, path)
}

fn stops_at_second_read(
    alloc: Global,
    shelf: &mut MemoryShelf,
    path: &[u8],
) -> Result<bool, Memory> {
    shelf.place(path, b"0041\n")?;
    shelf.fail_read(2)?;
    let line = b"read failed: d/PropList.txt\n".as_slice();
    ends(
        alloc,
        &[b"derive", b"d", b"o"],
        shelf,
        1000,
        (Status::ReadFault, line),
    )
}

/// A failed read is told even if a file that was read before it is refused or absent.
#[test]
fn a_failed_read_is_told_before_a_refusal(rt: HostRuntime) -> Result<(), Fail> {
    assert!(rt; tells_second_read(rt.alloc(), b"d/UnicodeData.txt")?);
    assert!(rt; tells_second_read(rt.alloc(), b"d/other")?);
    Ok(())
}
