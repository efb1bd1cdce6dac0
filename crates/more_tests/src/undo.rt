//! Runs of `undo` that write their files.

use crate::runs::{GRAVE, ends};
use run_tests::runs::{holds, place_in, place_release};
use shelf_io::MemoryShelf;
use std::alloc::Global;
use std::test::Fail;
use ucd_model::Memory;
use ucdshop_more_core::Status;

/// The words of a run with this depth.
pub const fn words(depth: &'static [u8]) -> [&'static [u8]; 5] {
    [b"undo", b"d", b"t", b"o", depth]
}

/// A PropList.txt with a comment, two line ends, and a last line without one.
const LINE_ENDS: &[u8] = b"# head\r\n0020 ; White_Space # SP\r\n\r\n0009..000D    ; White_Space";

/// A shelf with a letter, a mark and their composite in `d`, this script, and an old log.
///
/// - `Memory`: memory ran out.
pub fn shelf_of(alloc: Global, script: &[u8]) -> Result<Box<MemoryShelf>, Memory> {
    let mut shelf = Box::new(alloc, MemoryShelf::new(alloc))?;
    place_release(alloc, &mut shelf, b"d", GRAVE)?;
    shelf.place(b"t", script)?;
    shelf.place(b"o/undo.log", b"old")?;
    Ok(shelf)
}

/// A script, how the run over it ends, and two of the files that it writes.
#[derive(Clone, Copy)]
struct Course {
    properties: &'static [u8],
    script: &'static [u8],
    depth: &'static [u8],
    status: Status,
    summary: &'static [u8],
    log: &'static [u8],
    properties_after: &'static [u8],
    exclusions_after: &'static [u8],
}

const COURSES: [Course; 8] = [
    // the line end that an addition gave goes with it
    Course {
        properties: LINE_ENDS,
        script: b"add PropList.txt 0085 ; White_Space\n@ undo\n",
        depth: b"3",
        status: Status::Clean,
        summary: b"undo: 1 accepted, 1 undone\n",
        log: b"1 accepted 0\n2 undone 0\n",
        properties_after: LINE_ENDS,
        exclusions_after: b"",
    },
    // of two groups one is kept
    Course {
        properties: b"",
        script: b"add CompositionExclusions.txt 00C0\nadd PropList.txt 0020 ; White_Space\n@ undo\n@ undo\n",
        depth: b"1",
        status: Status::Done,
        summary: b"undo: 2 accepted, 1 undone\n",
        log: b"1 accepted 2\n2 accepted 0\n3 undone 0\n4 nothing to undo\n",
        properties_after: b"",
        exclusions_after: b"00C0\n",
    },
    // a withdrawn row comes back at its place, with its comment; and another group may follow
    Course {
        properties: LINE_ENDS,
        script: b"withdraw PropList.txt 0020 ; White_Space\n@ undo\n\nadd CompositionExclusions.txt 00C0\n@ undo\nadd CompositionExclusions.txt 00C0\n",
        depth: b"1",
        status: Status::Clean,
        summary: b"undo: 3 accepted, 2 undone\n",
        log: b"1 accepted 0\n2 undone 0\n4 accepted 2\n5 undone 2\n6 accepted 2\n",
        properties_after: LINE_ENDS,
        exclusions_after: b"00C0\n",
    },
    // a group is taken back whole, and the latest first
    Course {
        properties: b"0020 ; White_Space\n",
        script: b"begin\nwithdraw PropList.txt 0020 ; White_Space\nadd PropList.txt 0085 ; White_Space\nadd CompositionExclusions.txt 00C0\nend\nchange PropList.txt 0085..0086 ; White_Space\n@ undo\n@ undo\n",
        depth: b"1024",
        status: Status::Clean,
        summary: b"undo: 2 accepted, 2 undone\n",
        log: b"1 accepted 2\n6 accepted 0\n7 undone 0\n8 undone 2\n",
        properties_after: b"0020 ; White_Space\n",
        exclusions_after: b"",
    },
    // a refused group drops no earlier state
    Course {
        properties: b"",
        script: b"add CompositionExclusions.txt 00C0\nwithdraw UnicodeData.txt 0300\nadd CompositionExclusions.txt 00C0\n@ undo\n",
        depth: b"1",
        status: Status::Done,
        summary: b"undo: 1 accepted, 1 undone\n",
        log: b"1 accepted 2\n2 refused V1 point 00C0\n3 refused K1 operation 1\n4 undone 2\n",
        properties_after: b"",
        exclusions_after: b"",
    },
    // a group without operations is one, and is taken back
    Course {
        properties: b"",
        script: b"add CompositionExclusions.txt 00C0\nbegin\nend\n@ undo\n",
        depth: b"1",
        status: Status::Clean,
        summary: b"undo: 2 accepted, 1 undone\n",
        log: b"1 accepted 2\n2 accepted 0\n4 undone 0\n",
        properties_after: b"",
        exclusions_after: b"00C0\n",
    },
    // a mark may come first, and lines are counted in the file
    Course {
        properties: b"",
        script: b"# nothing yet\r\n@ undo\r\n# still\r\n@ undo\r\n",
        depth: b"2",
        status: Status::Done,
        summary: b"undo: 0 accepted, 0 undone\n",
        log: b"2 nothing to undo\n4 nothing to undo\n",
        properties_after: b"",
        exclusions_after: b"",
    },
    Course {
        properties: LINE_ENDS,
        script: b"",
        depth: b"1",
        status: Status::Clean,
        summary: b"undo: 0 accepted, 0 undone\n",
        log: b"",
        properties_after: LINE_ENDS,
        exclusions_after: b"",
    },
];

/// Whether the run over a script ends so, and writes these files.
///
/// - `Memory`: memory ran out.
fn is_run(alloc: Global, course: &Course) -> Result<bool, Memory> {
    let mut shelf = shelf_of(alloc, course.script)?;
    place_in(alloc, &mut shelf, b"d", b"PropList.txt", course.properties)?;
    let expected = (course.status, course.summary);
    Ok(
        ends(alloc, &words(course.depth), &mut shelf, 1000, expected)?
            && holds(
                &shelf,
                &[
                    (b"o/undo.log", course.log),
                    (b"o/PropList.txt", course.properties_after),
                    (b"o/CompositionExclusions.txt", course.exclusions_after),
                    (b"o/UnicodeData.txt", GRAVE),
                    (b"d/PropList.txt", course.properties),
                    (b"t", course.script),
                ],
            ),
    )
}

#[test]
fn each_undo_gives_the_bytes_back(rt: HostRuntime) -> Result<(), Fail> {
    for course in &COURSES {
        assert!(rt; is_run(rt.alloc(), course)?);
    }
    Ok(())
}

/// The combining classes that are derived.
const CLASSES: &[u8] = b"# Canonical_Combining_Class\n0300 ; 230\n# total 1\n\n";

/// The source files are written as the history leaves them, and what is derived of them.
///
/// - `Memory`: memory ran out.
fn writes_all(alloc: Global) -> Result<bool, Memory> {
    let mut shelf = shelf_of(alloc, b"add PropList.txt 0041 ; Other_Math\n")?;
    let expected = (Status::Clean, b"undo: 1 accepted, 0 undone\n".as_slice());
    Ok(
        ends(alloc, &words(b"1"), &mut shelf, 1000, expected)?
            && holds(
                &shelf,
                &[
                    (b"o/UnicodeData.txt", GRAVE),
                    (b"o/PropList.txt", b"0041 ; Other_Math\n"),
                    (b"o/Scripts.txt", b""),
                    (b"o/auxiliary/WordBreakProperty.txt", b""),
                    (b"o/CompositionExclusions.txt", b""),
                    (b"o/CaseFolding.txt", b""),
                    (b"o/SpecialCasing.txt", b""),
                    (b"o/PropertyAliases.txt", b""),
                    (b"o/PropertyValueAliases.txt", b""),
                    (b"o/undo.log", b"1 accepted 1\n"),
                    (b"o/extracted/DerivedCombiningClass.txt", CLASSES),
                ],
            )
            && begins(
                &shelf,
                b"o/DerivedCoreProperties.txt",
                b"# Math\n0041 ; Math\n# total 1\n",
            )
            && shelf.held(b"o/DerivedNormalizationProps.txt").is_some()
            && shelf
                .held(b"o/extracted/DerivedGeneralCategory.txt")
                .is_some()
            && shelf
                .held(b"o/extracted/DerivedDecompositionType.txt")
                .is_some(),
    )
}

/// Whether the file at this path is there, and begins so.
fn begins(shelf: &MemoryShelf, path: &[u8], text: &[u8]) -> bool {
    match shelf.held(path) {
        Some(bytes) => bytes.starts_with(text),
        None => false,
    }
}

#[test]
fn source_files_and_derived_files_are_written(rt: HostRuntime) -> Result<(), Fail> {
    assert!(rt; writes_all(rt.alloc())?);
    Ok(())
}
