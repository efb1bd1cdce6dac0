//! Runs of `ages` over folders that are refused.

use crate::runs::{EARLIER, LATER, ends, is_untouched, shelf_of};
use shelf_io::MemoryShelf;
use std::alloc::Global;
use std::test::Fail;
use ucd_model::Memory;
use ucdshop_more_core::Status;

/// The words of the runs.
const WORDS: [&[u8]; 4] = [b"ages", b"o", b"p", b"d"];

/// UnicodeData.txt of both releases, and the line that refuses them.
#[derive(Clone, Copy)]
struct Faulty {
    data: [&'static [u8]; 2],
    line: &'static [u8],
}

/// A row out of the grammar, and one whose mapping has no row.
const NO_ROW: &[u8] = b"0041\n";

const NO_MEMBER: &[u8] = b"1000;X;Lo;0;L;1001;;;;N;;;;;\n";

/// The first folder with a fault is refused, by its first fault.
const FAULTY: [Faulty; 5] = [
    Faulty {
        data: [EARLIER, NO_ROW],
        line: b"refused: d/UnicodeData.txt line 1 G03\n",
    },
    Faulty {
        data: [EARLIER, NO_MEMBER],
        line: b"refused: d point 1000 V1\n",
    },
    Faulty {
        data: [NO_ROW, LATER],
        line: b"refused: p/UnicodeData.txt line 1 G03\n",
    },
    Faulty {
        data: [NO_ROW, NO_MEMBER],
        line: b"refused: p/UnicodeData.txt line 1 G03\n",
    },
    Faulty {
        data: [NO_MEMBER, NO_ROW],
        line: b"refused: p point 1000 V1\n",
    },
];

/// Whether both releases are refused by the line, and nothing is written.
///
/// - `Memory`: memory ran out.
fn are_refused(alloc: Global, faulty: &Faulty) -> Result<bool, Memory> {
    let mut shelf = shelf_of(alloc, faulty.data[0], faulty.data[1])?;
    is_refused(alloc, &WORDS, &mut shelf, faulty.line)
}

/// Whether a run is refused by a line, and writes nothing.
///
/// - `Memory`: memory ran out.
fn is_refused(
    alloc: Global,
    words: &[&[u8]],
    shelf: &mut MemoryShelf,
    line: &[u8],
) -> Result<bool, Memory> {
    let expected = (Status::LoadRefused, line);
    Ok(ends(alloc, words, shelf, 1000, expected)? && is_untouched(shelf))
}

#[test]
fn the_first_faulty_folder_is_refused(rt: HostRuntime) -> Result<(), Fail> {
    for faulty in &FAULTY {
        assert!(rt; are_refused(rt.alloc(), faulty)?);
    }
    Ok(())
}

/// Whether a folder that is not there is refused.
///
/// - `Memory`: memory ran out.
fn refuses_an_absent_folder(alloc: Global) -> Result<bool, Memory> {
    let mut shelf = shelf_of(alloc, EARLIER, LATER)?;
    let words: [&[u8]; 5] = [b"ages", b"o", b"p", b"q", b"d"];
    let line = b"refused: q/UnicodeData.txt line 0 G01\n".as_slice();
    is_refused(alloc, &words, &mut shelf, line)
}

#[test]
fn an_absent_folder_is_refused(rt: HostRuntime) -> Result<(), Fail> {
    assert!(rt; refuses_an_absent_folder(rt.alloc())?);
    Ok(())
}

/// Whether a fault of the first folder is told before a read of the second one that would fail, so that it is not asked for.
///
/// - `Memory`: memory ran out.
fn tells_the_fault_first(alloc: Global, data: &[u8], line: &[u8]) -> Result<bool, Memory> {
    let mut shelf = shelf_of(alloc, data, LATER)?;
    shelf.fail_read(10)?;
    is_refused(alloc, &WORDS, &mut shelf, line)
}

#[test]
fn a_folder_is_judged_before_the_next_is_read(rt: HostRuntime) -> Result<(), Fail> {
    assert!(rt;
        tells_the_fault_first(
            rt.alloc(),
            NO_ROW,
            b"refused: p/UnicodeData.txt line 1 G03\n"
        )?
    );
    assert!(rt; tells_the_fault_first(rt.alloc(), NO_MEMBER, b"refused: p point 1000 V1\n")?);
    Ok(())
}

/// Whether a read of the first folder that fails is told before its fault.
///
/// - `Memory`: memory ran out.
fn tells_the_read_first(alloc: Global) -> Result<bool, Memory> {
    let mut shelf = shelf_of(alloc, NO_ROW, LATER)?;
    shelf.fail_read(9)?;
    let line = b"read failed: p/PropertyValueAliases.txt\n".as_slice();
    Ok(ends(alloc, &WORDS, &mut shelf, 1000, (Status::ReadFault, line))? && is_untouched(&shelf))
}

#[test]
fn a_folder_is_read_before_it_is_judged(rt: HostRuntime) -> Result<(), Fail> {
    assert!(rt; tells_the_read_first(rt.alloc())?);
    Ok(())
}
