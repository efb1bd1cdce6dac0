//! Runs of `desk` that write their files.

use crate::runs::{GRAVE, ends};
use run_tests::runs::{holds, place_release};
use shelf_io::MemoryShelf;
use std::alloc::Global;
use std::test::Fail;
use ucd_model::Memory;
use ucdshop_more_core::Status;

/// The words of each run.
pub const WORDS: &[&[u8]] = &[b"desk", b"d", b"t", b"o"];

/// A shelf with a letter, a mark and their composite in `d`, this file of events, and an old log.
///
/// - `Memory`: memory ran out.
pub fn shelf_of(alloc: Global, events: &[u8]) -> Result<Box<MemoryShelf>, Memory> {
    let mut shelf = Box::new(alloc, MemoryShelf::new(alloc))?;
    place_release(alloc, &mut shelf, b"d", GRAVE)?;
    shelf.place(b"t", events)?;
    shelf.place(b"o/desk.log", b"old")?;
    Ok(shelf)
}

/// A file of events, how the run over it ends, and the log that it writes.
#[derive(Clone, Copy)]
struct Session {
    events: &'static [u8],
    status: Status,
    summary: &'static [u8],
    log: &'static [u8],
}

const SESSIONS: [Session; 8] = [
    // the second editor has not seen the first one's group, and goes on once it has
    Session {
        events: b"@ open 1\n@ open 2\n@ propose 1 0\nadd CompositionExclusions.txt 00C0\n@ propose 2 0\nwithdraw CompositionExclusions.txt 00C0\n@ propose 2 1\nwithdraw CompositionExclusions.txt 00C0\n@ leave 3\n",
        status: Status::Done,
        summary: b"desk: 2 accepted, 2 refused\n",
        log: b"1 opened 0\n2 opened 0\n3 accepted 1 2\n5 stale 1 operation 1\n7 accepted 2 2\n9 absent\n",
    },
    // other rows are free, and a group without operations is one
    Session {
        events: b"@ open 1\n@ propose 1 0\nadd CompositionExclusions.txt 00C0\n@ propose 1 0\nadd UnicodeData.txt 0061;A;Ll;0;L;;;;;N;;;;;\n@ propose 1 5\nbegin\nend\n",
        status: Status::Done,
        summary: b"desk: 2 accepted, 1 refused\n",
        log: b"1 opened 0\n2 accepted 1 2\n4 accepted 2 1\n6 ahead 2\n",
    },
    // nobody is turned away
    Session {
        events: b"@ open 1\n@ open 2\n@ propose 1 0\nadd CompositionExclusions.txt 00C0\n@ leave 1\n",
        status: Status::Clean,
        summary: b"desk: 1 accepted, 0 refused\n",
        log: b"1 opened 0\n2 opened 0\n3 accepted 1 2\n5 left\n",
    },
    // whoever is present cannot come, and whoever is not can neither propose nor leave
    Session {
        events: b"@ propose 0 0\nbegin\nend\n@ open 0\n@ open 0\n@ leave 0\n@ leave 0\n@ open 4294967295\r\n",
        status: Status::Done,
        summary: b"desk: 0 accepted, 3 refused\n",
        log: b"1 absent\n4 opened 0\n5 present\n6 left\n7 absent\n8 opened 0\n",
    },
    // the first row that was touched meanwhile is told, and the last revision of any of them
    Session {
        events: b"@ open 1\n@ propose 1 0\nadd CompositionExclusions.txt 00C0\n@ propose 1 1\nadd PropList.txt 0020 ; White_Space\n@ propose 1 0\nbegin\nadd PropList.txt 0085 ; White_Space\nwithdraw CompositionExclusions.txt  00C0 # mine\nwithdraw PropList.txt 0020;White_Space\nend\n",
        status: Status::Done,
        summary: b"desk: 2 accepted, 1 refused\n",
        log: b"1 opened 0\n2 accepted 1 2\n4 accepted 2 0\n6 stale 2 operation 2\n",
    },
    // a group may break a rule of keys or of a valid release, and then touches nothing
    Session {
        events: b"@ open 7\n# a key that stands twice\n\n@ propose 7 0\nbegin\nadd CompositionExclusions.txt 00C0\nadd CompositionExclusions.txt 00C0\nend\n@ propose 7 0\nwithdraw UnicodeData.txt 0300\n@ propose 7 0\nadd CompositionExclusions.txt 00C0\n",
        status: Status::Done,
        summary: b"desk: 1 accepted, 2 refused\n",
        log: b"1 opened 0\n4 refused K1 operation 2\n9 refused V1 point 00C0\n11 accepted 1 2\n",
    },
    // what stands before the first mark may be comments and blank lines
    Session {
        events: b"# nobody\n\n",
        status: Status::Clean,
        summary: b"desk: 0 accepted, 0 refused\n",
        log: b"",
    },
    Session {
        events: b"",
        status: Status::Clean,
        summary: b"desk: 0 accepted, 0 refused\n",
        log: b"",
    },
];

/// Whether the run over a file of events ends so, and writes this log.
///
/// - `Memory`: memory ran out.
fn is_held(alloc: Global, session: &Session) -> Result<bool, Memory> {
    let mut shelf = shelf_of(alloc, session.events)?;
    let expected = (session.status, session.summary);
    Ok(
        ends(alloc, WORDS, &mut shelf, 1000, expected)?
            && holds(
                &shelf,
                &[
                    (b"o/desk.log", session.log),
                    (b"d/UnicodeData.txt", GRAVE),
                    (b"t", session.events),
                ],
            ),
    )
}

#[test]
fn each_reply_has_a_line(rt: HostRuntime) -> Result<(), Fail> {
    for session in &SESSIONS {
        assert!(rt; is_held(rt.alloc(), session)?);
    }
    Ok(())
}

/// The source files are written as the accepted groups leave them, and the others as they were.
///
/// - `Memory`: memory ran out.
fn writes_sources(alloc: Global) -> Result<bool, Memory> {
    let mut shelf = shelf_of(alloc, SESSIONS[4].events)?;
    let expected = (SESSIONS[4].status, SESSIONS[4].summary);
    Ok(ends(alloc, WORDS, &mut shelf, 1000, expected)? && holds_sources(&shelf))
}

fn holds_sources(shelf: &MemoryShelf) -> bool {
    let sources: [(&[u8], &[u8]); 9] = [
        (b"o/UnicodeData.txt", GRAVE),
        (b"o/PropList.txt", b"0020 ; White_Space\n"),
        (b"o/CompositionExclusions.txt", b"00C0\n"),
        (b"o/Scripts.txt", b""),
        (b"o/auxiliary/WordBreakProperty.txt", b""),
        (b"o/CaseFolding.txt", b""),
        (b"o/SpecialCasing.txt", b""),
        (b"o/PropertyAliases.txt", b""),
        (b"o/PropertyValueAliases.txt", b""),
    ];
    holds(shelf, &sources) && shelf.held(b"o/DerivedCoreProperties.txt").is_none()
}

#[test]
fn the_source_files_are_written(rt: HostRuntime) -> Result<(), Fail> {
    assert!(rt; writes_sources(rt.alloc())?);
    Ok(())
}
