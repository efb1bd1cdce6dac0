//! Runs of `apply` with an earlier release: the policy report, and what is refused.

use run_tests::runs::{CORE_PATH, File, PREVIOUS_PATHS, ends, holds, shelf_of, status_of};
use shelf_io::MemoryShelf;
use std::alloc::Global;
use std::test::Fail;
use ucd_model::Memory;
use ucdshop_core::Status;

/// Letters and marks, as UnicodeData.txt has them but for case mappings.
pub const EARLIER: &[u8] =
    b"0041;LATIN CAPITAL LETTER A;Lu;0;L;;;;;N;;;;;\n0061;LATIN SMALL LETTER A;Ll;0;L;;;;;N;;;;;\n0300;COMBINING GRAVE ACCENT;Mn;230;NSM;;;;;N;;;;;\n0301;COMBINING ACUTE ACCENT;Mn;230;NSM;;;;;N;;;;;\n";

/// Letters and marks: [`EARLIER`] without 0041, with another class of 0300, and with 00E0, the composite of 0061 and 0300.
pub const LATER: &[u8] =
    b"0061;LATIN SMALL LETTER A;Ll;0;L;;;;;N;;;;;\n00E0;LATIN SMALL LETTER A WITH GRAVE;Ll;0;L;0061 0300;;;;N;;;;;\n0300;COMBINING GRAVE ACCENT;Mn;220;NSM;;;;;N;;;;;\n0301;COMBINING ACUTE ACCENT;Mn;230;NSM;;;;;N;;;;;\n";

/// A change of a class, a withdrawal of no row, and a row whose mapping has no row.
const EDITS: &[u8] =
    b"change UnicodeData.txt 0300;COMBINING GRAVE ACCENT;Mn;220;NSM;;;;;N;;;;;\nwithdraw UnicodeData.txt 0042\nadd UnicodeData.txt 1000;X;Lo;0;L;1001;;;;N;;;;;\n";

/// The policy report of the later release against the earlier one.
pub const BREAKS: &[u8] =
    b"P01 0041\nP03 0300\nP05 00E0\nP06 0041\nP07 0041\nP08 0041\nP09 0041\n# total 7\n";

/// The summary with these breaks, and with none.
pub const BROKEN: &[u8] =
    b"ucdshop: 0 groups accepted, 0 commands refused, 0 sets answered, 7 policy breaks\n";

const UNBROKEN: &[u8] =
    b"ucdshop: 0 groups accepted, 0 commands refused, 0 sets answered, 0 policy breaks\n";

/// The words of the runs.
pub const WORDS: [&[u8]; 5] = [b"apply", b"d", b"s", b"o", b"p"];

/// A run over the two releases: the script, the words, how it ends, and files that it leaves.
#[derive(Clone, Copy)]
struct Compared {
    script: &'static [u8],
    words: [&'static [u8]; 5],
    status: Status,
    summary: &'static [u8],
    files: &'static [File],
}

/// Runs without edits.
const COMPARED: [Compared; 3] = [
    Compared {
        script: b"",
        words: WORDS,
        status: Status::Done,
        summary: BROKEN,
        files: &[
            (b"o/policy.txt", BREAKS),
            (b"o/UnicodeData.txt", LATER),
            (b"o/bench.log", b""),
            (b"p/UnicodeData.txt", EARLIER),
        ],
    },
    // nothing is broken against the same release
    Compared {
        script: b"",
        words: [b"apply", b"p", b"s", b"o", b"p"],
        status: Status::Clean,
        summary: UNBROKEN,
        files: &[(b"o/policy.txt", b"# total 0\n")],
    },
    // a refused command alone gives the status
    Compared {
        script: b"withdraw UnicodeData.txt 0042\n",
        words: [b"apply", b"p", b"s", b"o", b"p"],
        status: Status::Done,
        summary: b"ucdshop: 0 groups accepted, 1 commands refused, 0 sets answered, 0 policy breaks\n",
        files: &[(b"o/policy.txt", b"# total 0\n")],
    },
];

const EDITED_SUMMARY: &[u8] =
    b"ucdshop: 1 groups accepted, 2 commands refused, 0 sets answered, 1 policy breaks\n";

/// Runs with edits, and runs that write over a release that is read.
const EDITED: [Compared; 3] = [
    // the rows after the script are compared; refused commands leave none
    Compared {
        script: EDITS,
        words: [b"apply", b"p", b"s", b"o", b"p"],
        status: Status::Done,
        summary: EDITED_SUMMARY,
        files: &[
            (b"o/policy.txt", b"P03 0300\n# total 1\n"),
            (
                b"o/bench.log",
                b"1 accepted 1\n2 refused K2 operation 1\n3 refused V1 point 1000\n",
            ),
        ],
    },
    Compared {
        script: EDITS,
        words: [b"apply", b"p", b"s", b"p", b"p"],
        status: Status::Done,
        summary: EDITED_SUMMARY,
        files: &[
            (b"p/policy.txt", b"P03 0300\n# total 1\n"),
            (b"d/UnicodeData.txt", LATER),
        ],
    },
    // the earlier release may be written over, since all is read before
    Compared {
        script: b"",
        words: [b"apply", b"d", b"s", b"p", b"p"],
        status: Status::Done,
        summary: BROKEN,
        files: &[
            (b"p/policy.txt", BREAKS),
            (b"p/UnicodeData.txt", LATER),
            (CORE_PATH, b"old"),
        ],
    },
];

/// A shelf with the releases of these two UnicodeData.txt in `d` and `p`, and a script.
///
/// - `Memory`: memory ran out.
pub fn shelf_with(
    alloc: Global,
    data: &[u8],
    previous: &[u8],
    script: &[u8],
) -> Result<Box<MemoryShelf>, Memory> {
    let mut shelf = shelf_of(alloc, data, b"")?;
    place_earlier(&mut shelf, previous, script)?;
    Ok(shelf)
}

fn place_earlier(shelf: &mut MemoryShelf, previous: &[u8], script: &[u8]) -> Result<(), Memory> {
    for path in &PREVIOUS_PATHS {
        shelf.place(path, b"")?;
    }
    shelf.place(b"p/UnicodeData.txt", previous)?;
    shelf.place(b"s", script)
}

/// Whether a run over the two releases ends as it should.
///
/// - `Memory`: memory ran out.
fn ends_so(alloc: Global, compared: &Compared) -> Result<bool, Memory> {
    let mut shelf = shelf_with(alloc, LATER, EARLIER, compared.script)?;
    let expected = (compared.status, compared.summary);
    Ok(
        ends(alloc, &compared.words, &mut shelf, 1000, expected)?
            && holds(&shelf, compared.files)
            && holds(&shelf, &[(b"o/other", b"kept"), (b"s", compared.script)]),
    )
}

#[test]
fn releases_are_compared(rt: HostRuntime) -> Result<(), Fail> {
    for compared in &COMPARED {
        assert!(rt; ends_so(rt.alloc(), compared)?);
    }
    Ok(())
}

#[test]
fn edited_releases_are_compared(rt: HostRuntime) -> Result<(), Fail> {
    for compared in &EDITED {
        assert!(rt; ends_so(rt.alloc(), compared)?);
    }
    Ok(())
}

/// A comment of PropList.txt in the release, and comments in the earlier one: the same, another one, and none. None has a row.
const COMMENT: &[u8] = b"# a\n";

const EARLIER_COMMENTS: [&[u8]; 3] = [COMMENT, b"# b\n", b""];

/// The files of a run with edits on the earlier release itself.
const SAME_FILES: [File; 4] = [
    (b"o/policy.txt", b"P03 0300\n# total 1\n"),
    (
        b"o/bench.log",
        b"1 accepted 1\n2 refused K2 operation 1\n3 refused V1 point 1000\n",
    ),
    (b"o/PropList.txt", COMMENT),
    (b"p/UnicodeData.txt", EARLIER),
];

/// A shelf whose two releases are the same but for this comment of the earlier one, and a script with edits.
///
/// - `Memory`: memory ran out.
fn shelf_with_comments(alloc: Global, comment: &[u8]) -> Result<Box<MemoryShelf>, Memory> {
    let mut shelf = shelf_with(alloc, EARLIER, EARLIER, EDITS)?;
    place_comments(&mut shelf, comment)?;
    Ok(shelf)
}

fn place_comments(shelf: &mut MemoryShelf, comment: &[u8]) -> Result<(), Memory> {
    shelf.place(b"d/PropList.txt", COMMENT)?;
    shelf.place(b"p/PropList.txt", comment)
}

/// Whether a run with edits, against the same release but for this comment, ends as against the same bytes.
///
/// - `Memory`: memory ran out.
fn ends_as_the_same(alloc: Global, comment: &[u8]) -> Result<bool, Memory> {
    let mut shelf = shelf_with_comments(alloc, comment)?;
    let expected = (Status::Done, EDITED_SUMMARY);
    Ok(ends(alloc, &WORDS, &mut shelf, 1000, expected)? && holds(&shelf, &SAME_FILES))
}

#[test]
fn a_comment_breaks_no_policy(rt: HostRuntime) -> Result<(), Fail> {
    for comment in &EARLIER_COMMENTS {
        assert!(rt; ends_as_the_same(rt.alloc(), comment)?);
    }
    Ok(())
}

/// Whether a run without an earlier release writes no report.
fn has_no_report(alloc: Global) -> Result<bool, Memory> {
    let mut shelf = shelf_with(alloc, LATER, EARLIER, b"")?;
    let status = status_of(alloc, &[b"apply", b"d", b"s", b"o"], &mut shelf)?;
    Ok(status == Status::Clean && shelf.held(b"o/policy.txt").is_none())
}

#[test]
fn one_release_has_no_report(rt: HostRuntime) -> Result<(), Fail> {
    assert!(rt; has_no_report(rt.alloc())?);
    Ok(())
}

/// A release with a fault: UnicodeData.txt of `d` and of `p`, the script, the folder of the earlier release, and the line that
/// refuses it.
#[derive(Clone, Copy)]
struct Faulty {
    data: [&'static [u8]; 2],
    script: &'static [u8],
    previous: &'static [u8],
    line: &'static [u8],
}

/// A row out of the grammar, and one whose mapping has no row.
pub const NO_ROW: &[u8] = b"0041\n";

const NO_MEMBER: &[u8] = b"1000;X;Lo;0;L;1001;;;;N;;;;;\n";

/// Faults of the earlier release.
const FAULTY: [Faulty; 3] = [
    Faulty {
        data: [LATER, NO_ROW],
        script: b"",
        previous: b"p",
        line: b"refused: p/UnicodeData.txt line 1 G03\n",
    },
    Faulty {
        data: [LATER, NO_MEMBER],
        script: b"",
        previous: b"p",
        line: b"refused: p point 1000 V1\n",
    },
    // nothing is there
    Faulty {
        data: [LATER, EARLIER],
        script: b"",
        previous: b"q",
        line: b"refused: q/UnicodeData.txt line 0 G01\n",
    },
];

/// Faults that come before those of the earlier release.
const FIRST_FAULTS: [Faulty; 4] = [
    // the script comes before the earlier release, and before both the release
    Faulty {
        data: [LATER, NO_ROW],
        script: b"begin",
        previous: b"p",
        line: b"refused: s line 1 E2\n",
    },
    Faulty {
        data: [NO_ROW, NO_ROW],
        script: b"begin",
        previous: b"p",
        line: b"refused: d/UnicodeData.txt line 1 G03\n",
    },
    Faulty {
        data: [NO_MEMBER, NO_ROW],
        script: b"begin",
        previous: b"p",
        line: b"refused: d point 1000 V1\n",
    },
    Faulty {
        data: [NO_MEMBER, NO_MEMBER],
        script: b"",
        previous: b"p",
        line: b"refused: d point 1000 V1\n",
    },
];

/// Whether a run is refused by its line, and writes nothing.
///
/// - `Memory`: memory ran out.
fn is_refused(alloc: Global, faulty: &Faulty) -> Result<bool, Memory> {
    let mut shelf = shelf_with(alloc, faulty.data[0], faulty.data[1], faulty.script)?;
    let words: [&[u8]; 5] = [b"apply", b"d", b"s", b"o", faulty.previous];
    let expected = (Status::LoadRefused, faulty.line);
    Ok(
        ends(alloc, &words, &mut shelf, 1000, expected)?
            && holds(&shelf, &[(CORE_PATH, b"old")])
            && shelf.held(b"o/policy.txt").is_none(),
    )
}

#[test]
fn faults_of_the_earlier_release_are_told(rt: HostRuntime) -> Result<(), Fail> {
    for faulty in &FAULTY {
        assert!(rt; is_refused(rt.alloc(), faulty)?);
    }
    Ok(())
}

#[test]
fn the_first_fault_is_told(rt: HostRuntime) -> Result<(), Fail> {
    for faulty in &FIRST_FAULTS {
        assert!(rt; is_refused(rt.alloc(), faulty)?);
    }
    Ok(())
}
