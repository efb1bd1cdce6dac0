//! Conformance to cases over a release of a few lines.

use crate::reports::{GRAVE, boxed};
use crate::samples::data;
use edit_session::Bench;
use norm_conformance::{CaseStop, Cases, Miss, misses, read_cases};
use std::alloc::Global;
use std::test::Fail;
use ucd_model::{Form, Memory, file_limit};

/// The cases of a text of a test, which is never above the limit.
fn cases_in(alloc: Global, text: &[u8]) -> Result<Cases, CaseStop> {
    if text.len() > file_limit() {
        return Err(CaseStop::Memory);
    }
    read_cases(alloc, text)
}

/// A miss as a test writes it.
#[derive(Clone, Copy)]
enum Missed {
    Line(u32, Form, u8),
    Point(u32, Form),
}

fn is_miss(miss: &Miss, expected: &Missed) -> bool {
    match (miss, expected) {
        (Miss::Line { line, form, column }, Missed::Line(n, f, k)) => {
            line == n && form == f && column == k
        }
        (Miss::Point { point, form }, Missed::Point(n, f)) => point.number() == *n && form == f,
        _ => false,
    }
}

fn misses_are(
    alloc: Global,
    bench: &Bench,
    cases: &Cases,
    expected: &[Missed],
) -> Result<bool, Memory> {
    let _release = bench.release();
    let found = misses(alloc, bench, cases)?;
    Ok(
        found.len() == expected.len()
            && found
                .as_slice()
                .iter()
                .zip(expected)
                .all(|(miss, missed)| is_miss(miss, missed)),
    )
}

/// Cases over a letter with a mark and its parts, and what is missed of them.
const TESTS: [(&[u8], &[Missed]); 7] = [
    (b"@Part1\n00E0;00E0;0061 0300;00E0;0061 0300; # A\n", &[]),
    (b"", &[]),
    (
        b"0061 0300 0300;00E0 0300;0061 0300 0300;00E0 0300;0061 0300 0300;",
        &[],
    ),
    (
        b"@Part1\n00E0;0061 0300;0061 0300;00E0;0061 0300;",
        &[
            Missed::Line(2, Form::Nfc, 1),
            Missed::Line(2, Form::Nfc, 2),
            Missed::Line(2, Form::Nfc, 3),
        ],
    ),
    (
        b"@Part1",
        &[
            Missed::Point(0xE0, Form::Nfd),
            Missed::Point(0xE0, Form::Nfkd),
        ],
    ),
    (
        b"00E0;00E0;00E0;00E0;00E0\n@Part1\n00E0 00E0;00E0 00E0;0061 0300 0061 0300;00E0 00E0;0061 0300 0061 0300",
        &[
            Missed::Line(1, Form::Nfd, 1),
            Missed::Line(1, Form::Nfd, 2),
            Missed::Line(1, Form::Nfd, 3),
            Missed::Line(1, Form::Nfd, 4),
            Missed::Line(1, Form::Nfd, 5),
            Missed::Line(1, Form::Nfkd, 1),
            Missed::Line(1, Form::Nfkd, 2),
            Missed::Line(1, Form::Nfkd, 3),
            Missed::Line(1, Form::Nfkd, 4),
            Missed::Line(1, Form::Nfkd, 5),
            Missed::Point(0xE0, Form::Nfd),
            Missed::Point(0xE0, Form::Nfkd),
        ],
    ),
    (
        b"0061;0061;0061;0300;0061",
        &[
            Missed::Line(1, Form::Nfd, 4),
            Missed::Line(1, Form::Nfc, 5),
            Missed::Line(1, Form::Nfkd, 4),
            Missed::Line(1, Form::Nfkc, 1),
            Missed::Line(1, Form::Nfkc, 2),
            Missed::Line(1, Form::Nfkc, 3),
            Missed::Line(1, Form::Nfkc, 5),
        ],
    ),
];

/// Whether this is missed of the cases of a text.
fn are_missed(
    alloc: Global,
    bench: &Bench,
    text: &[u8],
    expected: &[Missed],
) -> Result<bool, CaseStop> {
    let cases = cases_in(alloc, text)?;
    Ok(misses_are(alloc, bench, &cases, expected)?)
}

#[test]
fn misses_of_lines_and_of_code_points(rt: HostRuntime) -> Result<(), Fail> {
    let bench = boxed(rt.alloc(), &data(GRAVE))?;
    for (text, expected) in &TESTS {
        assert!(rt; are_missed(rt.alloc(), &bench, text, expected)?, "{text:?}");
    }
    Ok(())
}
