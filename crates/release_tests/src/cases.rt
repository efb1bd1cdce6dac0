//! NormalizationTest.txt: its cases, and its faults.

use norm_conformance::{Case, CaseRule, CaseStop, Cases, read_cases};
use std::alloc::Global;
use std::test::Fail;
use ucd_facts::{Point, file_limit};

/// Lines of NormalizationTest.txt as it is for 15.0.0, with the ends of the parts left out.
const LINES: &[u8] =
    b"# NormalizationTest-15.0.0.txt\n#\n@Part0 # Specific cases\n#\n1E0A 0323;1E0C 0307;0044 0323 0307;1E0C 0307;0044 0323 0307; # LATIN CAPITAL LETTER D WITH DOT ABOVE, COMBINING DOT BELOW\n\n@Part1 # Character by character test\n# All characters not explicitly occurring in c1 of Part 1 have identical NFC, D, KC, KD forms.\n00A0;00A0;00A0;0020;0020; # NO-BREAK SPACE\n# EOF\n";

/// The cases of a text of a test, which is never above the limit.
fn cases_in(alloc: Global, text: &[u8]) -> Result<Cases, CaseStop> {
    if text.len() > file_limit() {
        return Err(CaseStop::Memory);
    }
    read_cases(alloc, text)
}

/// What a text holds: how many cases, and whether `@Part1` stands in it; or its first fault.
#[derive(Clone, Copy, Debug, PartialEq, Eq)]
enum Found {
    Cases(usize, bool),
    Fault(u32, CaseRule),
}

fn holds(alloc: Global, text: &[u8]) -> Option<Found> {
    match cases_in(alloc, text) {
        Ok(cases) => Some(Found::Cases(cases.list.len(), cases.part_one)),
        Err(CaseStop::Fault { line, rule }) => Some(Found::Fault(line, rule)),
        Err(CaseStop::Memory) => None,
    }
}

/// Texts, and what they hold.
const TEXTS: [(&[u8], Found); 20] = [
    (LINES, Found::Cases(2, true)),
    (b"", Found::Cases(0, false)),
    (b" \t# @Part1\r\n\n", Found::Cases(0, false)),
    (b"\t@Part1 # the parts", Found::Cases(0, true)),
    (b"@Part12", Found::Fault(1, CaseRule::N3)),
    (b"@Part", Found::Fault(1, CaseRule::N3)),
    (b"@part1", Found::Fault(1, CaseRule::N3)),
    (b"@Part1;", Found::Fault(1, CaseRule::N3)),
    (
        b"@Part1\n00C0;00C0;0041 0300;00C0;0041 0300; # A\n",
        Found::Cases(1, true),
    ),
    (
        b"00C0;00C0;0041 0300;00C0;0041 0300\n@Part1",
        Found::Cases(1, true),
    ),
    (
        b" 00C0 ; 00C0 ;0041\t0300; 00c0;  0041  0300 ; \r\n",
        Found::Cases(1, false),
    ),
    (b"\n00C0;00C0", Found::Fault(2, CaseRule::N1)),
    (
        b"00C0;00C0;0041 0300;00C0;0041 0300;;",
        Found::Fault(1, CaseRule::N1),
    ),
    (
        b"00C0;00C0;0041 0300;00C0;0041 0300;0041",
        Found::Fault(1, CaseRule::N1),
    ),
    (b"x;x", Found::Fault(1, CaseRule::N1)),
    (b";;;;", Found::Fault(1, CaseRule::N2)),
    (b"00C0;00C0;0041 0300;00C0;", Found::Fault(1, CaseRule::N2)),
    (
        b"00C0;00C0;0041,0300;00C0;0041",
        Found::Fault(1, CaseRule::N2),
    ),
    (
        b"00C0;00C0;0041 0300;00C0;0041\r",
        Found::Fault(1, CaseRule::N2),
    ),
    (
        b"0041;0041;0041;0041;41\n@Part",
        Found::Fault(1, CaseRule::N2),
    ),
];

#[test]
fn cases_and_first_faults(rt: HostRuntime) {
    for (text, expected) in &TEXTS {
        assert!(rt; holds(rt.alloc(), text) == Some(*expected), "{text:?}");
    }
}

/// Whether code points have these numbers.
fn are(points: &[Point], numbers: &[u32]) -> bool {
    points.len() == numbers.len()
        && points
            .iter()
            .zip(numbers)
            .all(|(point, number)| point.number() == *number)
}

/// Whether these are the two cases of `LINES`.
fn are_told(cases: &[Case]) -> bool {
    let [first, second] = cases else {
        return false;
    };
    (first.line, first.part) == (5, 0)
        && has_columns(first)
        && (second.line, second.part) == (9, 1)
        && are(second.c4.as_slice(), &[0x20])
}

/// Whether a case has the columns of the first one of `LINES`.
fn has_columns(case: &Case) -> bool {
    are(case.c1.as_slice(), &[0x1E0A, 0x323])
        && are(case.c2.as_slice(), &[0x1E0C, 0x307])
        && are(case.c3.as_slice(), &[0x44, 0x323, 0x307])
        && are(case.c4.as_slice(), &[0x1E0C, 0x307])
        && are(case.c5.as_slice(), &[0x44, 0x323, 0x307])
}

#[test]
fn columns_of_a_case(rt: HostRuntime) -> Result<(), Fail> {
    let cases = cases_in(rt.alloc(), LINES)?;
    let told = are_told(cases.list.as_slice());
    drop(cases);
    assert!(rt; told);
    Ok(())
}
