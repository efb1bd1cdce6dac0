//! Files of events that are refused.

use crate::desk::{WORDS, shelf_of};
use crate::runs::ends;
use run_tests::runs::holds;
use shelf_io::MemoryShelf;
use std::alloc::Global;
use std::test::Fail;
use ucd_model::Memory;
use ucdshop_more_core::Status;

/// Lines that are no marks of a desk, though they begin as one.
const NO_MARKS: [&[u8]; 24] = [
    b"@",
    b"@ ",
    b"@open 1",
    b"@ open",
    b"@ open ",
    b"@ open  1",
    b"@ open 1 ",
    b"@ open 1\t",
    b"@ open 01",
    b"@ open +1",
    b"@ open 1 2",
    b"@ open x",
    b"@ open 4294967296",
    b"@ Open 1",
    b"@  open 1",
    b"@ leave",
    b"@ leave 1 0",
    b"@ leave -1",
    b"@ propose 1",
    b"@ propose 1 ",
    b"@ propose 1  0",
    b"@ propose 1 0 0",
    b"@ propose 1 00",
    b"@ undo",
];

/// Whether a run over this shelf is told this, and writes nothing.
///
/// - `Memory`: memory ran out.
fn is_told(alloc: Global, shelf: &mut MemoryShelf, line: &[u8]) -> Result<bool, Memory> {
    let expected = (Status::LoadRefused, line);
    Ok(
        ends(alloc, WORDS, shelf, 1000, expected)?
            && holds(shelf, &[(b"o/desk.log", b"old")])
            && shelf.held(b"o/UnicodeData.txt").is_none(),
    )
}

/// Whether a file of events is refused by this line, and nothing is written.
///
/// - `Memory`: memory ran out.
fn is_refused(alloc: Global, events: &[u8], line: &[u8]) -> Result<bool, Memory> {
    let mut shelf = shelf_of(alloc, events)?;
    is_told(alloc, &mut shelf, line)
}

#[test]
fn a_mark_has_one_of_three_forms(rt: HostRuntime) -> Result<(), Fail> {
    for line in &NO_MARKS {
        assert!(rt; is_refused(rt.alloc(), line, b"refused: t line 1 E7\n")?);
    }
    Ok(())
}

/// Files of events with a fault, and the line that refuses them.
const FAULTS: [(&[u8], &[u8]); 15] = [
    // commands where none may stand
    (
        b"@ open 1\n\nadd CompositionExclusions.txt 00C0\n",
        b"refused: t line 1 E7\n",
    ),
    (b"@ open 1\n@ leave 1\nset [a]\n", b"refused: t line 2 E7\n"),
    // no group, two groups, a question
    (b"@ open 1\n@ propose 1 0\n", b"refused: t line 2 E7\n"),
    (
        b"@ open 1\n@ propose 1 0\nbegin\nend\nbegin\nend\n",
        b"refused: t line 2 E7\n",
    ),
    (b"@ propose 1 0\nset [a]\n", b"refused: t line 1 E7\n"),
    // a command before the first mark
    (
        b"# first\n\nbegin\nend\nset [a]\n@ open 1\n",
        b"refused: t line 3 E7\n",
    ),
    (b"set [a]\n", b"refused: t line 1 E7\n"),
    // the form of the mark comes before the script behind it, and that before the fit
    (b"@ open 01\nno command\n", b"refused: t line 1 E7\n"),
    (b"@ open 1\nno command\n", b"refused: t line 2 E1\n"),
    (
        b"begin\nend\nno command\n@ open 1\n",
        b"refused: t line 3 E1\n",
    ),
    // pieces are looked at in order
    (
        b"@ open 1\n@ propose 1 0\nbegin\nend\n@ leave\n@ open 1\nno command\n",
        b"refused: t line 5 E7\n",
    ),
    // a mark ends what stands before it
    (
        b"@ open 1\n@ propose 1 0\nbegin\n@ leave 1\nend\n",
        b"refused: t line 3 E2\n",
    ),
    (
        b"@ propose 1 0\nadd UnicodeData.txt 1000;<X, First>;Lo;0;L;;;;;N;;;;;\n@ open 2\nlast 1001;<X, Last>;Lo;0;L;;;;;N;;;;;\n",
        b"refused: t line 2 E6 G09\n",
    ),
    // lines are counted in the file
    (
        b"@ open 1\n@ propose 1 0\nbegin\nbegin\nend\n",
        b"refused: t line 4 E3\n",
    ),
    (
        b"@ open 1\r\n@ propose 1 0\r\nbegin\r\nwithdraw UnicodeData.txt 0041\r\nadd Scripts.txt 0041\r\nend\r\n",
        b"refused: t line 5 E6 G03\n",
    ),
];

#[test]
fn files_of_events_are_refused_by_their_first_fault(rt: HostRuntime) -> Result<(), Fail> {
    for (events, line) in &FAULTS {
        assert!(rt; is_refused(rt.alloc(), events, line)?);
    }
    Ok(())
}
