//! Scripts of a history that are refused.

use crate::runs::ends;
use crate::undo::{shelf_of, words};
use run_tests::runs::{holds, place_release};
use shelf_io::MemoryShelf;
use std::alloc::Global;
use std::test::Fail;
use ucd_model::Memory;
use ucdshop_more_core::Status;

/// Lines that are no mark of an undo, though they begin as one.
const NO_MARKS: [&[u8]; 11] = [
    b"@",
    b"@ ",
    b"@undo",
    b"@  undo",
    b"@\tundo",
    b"@ undo ",
    b"@ undo 1",
    b"@ Undo",
    b"@ undone",
    b"@ undo # the last",
    b"@ open 1",
];

/// Whether a run over this shelf is told this, and writes nothing.
///
/// - `Memory`: memory ran out.
fn is_told(
    alloc: Global,
    shelf: &mut MemoryShelf,
    status: Status,
    line: &[u8],
) -> Result<bool, Memory> {
    Ok(
        ends(alloc, &words(b"1"), shelf, 1000, (status, line))?
            && holds(shelf, &[(b"o/undo.log", b"old")])
            && shelf.held(b"o/UnicodeData.txt").is_none()
            && shelf.held(b"o/DerivedCoreProperties.txt").is_none(),
    )
}

/// Whether a script is refused by this line, and nothing is written.
///
/// - `Memory`: memory ran out.
fn is_refused(alloc: Global, script: &[u8], line: &[u8]) -> Result<bool, Memory> {
    let mut shelf = shelf_of(alloc, script)?;
    is_told(alloc, &mut shelf, Status::LoadRefused, line)
}

#[test]
fn a_mark_has_one_form(rt: HostRuntime) -> Result<(), Fail> {
    for line in &NO_MARKS {
        assert!(rt; is_refused(rt.alloc(), line, b"refused: t line 1 E7\n")?);
    }
    Ok(())
}

/// Scripts with a fault, and the line that refuses them.
const FAULTS: [(&[u8], &[u8]); 11] = [
    // a question: by the mark's line, or where there is none by that of the first command
    (b"set [a]\n", b"refused: t line 1 E7\n"),
    (
        b"# first\nbegin\nend\nset [a]\n@ undo\n",
        b"refused: t line 2 E7\n",
    ),
    (
        b"begin\nend\n@ undo\nbegin\nend\nset [a]\n",
        b"refused: t line 3 E7\n",
    ),
    // the form of the mark comes before the script behind it, and that before the question
    (b"@ undo 1\nno command\n", b"refused: t line 1 E7\n"),
    (b"@ undo\nset [a]\nno command\n", b"refused: t line 3 E1\n"),
    // pieces are looked at in order
    (b"set [a]\n@ undo 1\n", b"refused: t line 1 E7\n"),
    (
        b"begin\nend\n@ undo\n@ undo\n@ undo 1\nno command\n",
        b"refused: t line 5 E7\n",
    ),
    // a mark ends what stands before it
    (b"begin\n@ undo\nend\n", b"refused: t line 1 E2\n"),
    (
        b"add UnicodeData.txt 1000;<X, First>;Lo;0;L;;;;;N;;;;;\n@ undo\nlast 1001;<X, Last>;Lo;0;L;;;;;N;;;;;\n",
        b"refused: t line 1 E6 G09\n",
    ),
    // lines are counted in the file
    (b"@ undo\nbegin\nbegin\nend\n", b"refused: t line 3 E3\n"),
    (
        b"begin\r\nend\r\n@ undo\r\nadd Scripts.txt 0041\r\n",
        b"refused: t line 4 E6 G03\n",
    ),
];

#[test]
fn scripts_are_refused_by_their_first_fault(rt: HostRuntime) -> Result<(), Fail> {
    for (script, line) in &FAULTS {
        assert!(rt; is_refused(rt.alloc(), script, line)?);
    }
    Ok(())
}

/// A release with a fault is told before a fault of the script, and a read that fails before both.
///
/// - `Memory`: memory ran out.
fn is_release_first(alloc: Global) -> Result<bool, Memory> {
    let mut shelf = shelf_of(alloc, b"@\n")?;
    place_release(alloc, &mut shelf, b"d", b"0041\n")?;
    let line = b"refused: d/UnicodeData.txt line 1 G03\n";
    let judged = is_told(alloc, &mut shelf, Status::LoadRefused, line)?;
    shelf.fail_read(11)?;
    let line = b"read failed: d/UnicodeData.txt\n";
    Ok(judged && is_told(alloc, &mut shelf, Status::ReadFault, line)?)
}

/// A script that is not there is refused as a whole.
///
/// - `Memory`: memory ran out.
fn is_absent_told(alloc: Global) -> Result<bool, Memory> {
    let mut shelf = Box::new(alloc, MemoryShelf::new(alloc))?;
    place_release(alloc, &mut shelf, b"d", b"")?;
    shelf.place(b"o/undo.log", b"old")?;
    let line = b"refused: t line 0 G01\n";
    is_told(alloc, &mut shelf, Status::LoadRefused, line)
}

#[test]
fn the_release_is_judged_first(rt: HostRuntime) -> Result<(), Fail> {
    assert!(rt; is_release_first(rt.alloc())?);
    assert!(rt; is_absent_told(rt.alloc())?);
    Ok(())
}
