//! Missing rows of Scripts.txt and WordBreakProperty.txt: lines, keys and operations. UAX #44, section 4.2.10.

use crate::edits::{Case, Edit, leaves};
use crate::keys::{is_key, key_fault};
use crate::rows::{has_fault, is_written};
use release_rows::{KeyRule, OpStop};
use source_rows::RowFault;
use std::test::Fail;
use ucd_facts::SourceFile;

/// Lines, and what each is written as again.
const LINES: [(SourceFile, &[u8], &[u8]); 3] = [
    (
        SourceFile::Scripts,
        b"# @missing: 0000..10FFFF; Unknown",
        b"# @missing: 0000..10FFFF; Unknown",
    ),
    (
        SourceFile::WordBreakProperty,
        b" #\t@missing:0041;MidLetter # L&",
        b"# @missing: 0041; MidLetter",
    ),
    (
        SourceFile::Scripts,
        b"# @missing: 0400..0400 ; Cyrillic",
        b"# @missing: 0400; Cyrillic",
    ),
];

#[test]
fn missing_lines_are_written_again(rt: HostRuntime) {
    for (file, line, text) in &LINES {
        assert!(rt;
            is_written(rt.alloc(), *file, line, text) == Ok(true),
            "{line:?}"
        );
    }
}

/// Lines, and the first rule that each breaks. In PropList.txt such a line is a comment.
const FAULTS: [(SourceFile, &[u8], RowFault); 5] = [
    (SourceFile::Scripts, b"# @missing:", RowFault::G03),
    (SourceFile::Scripts, b"# @missing: 0041", RowFault::G03),
    (
        SourceFile::Scripts,
        b"# @missing: 0041..0040; Latin",
        RowFault::G04,
    ),
    (
        SourceFile::WordBreakProperty,
        b"# @missing: 0041; # MidLetter",
        RowFault::G11,
    ),
    (
        SourceFile::PropList,
        b"# @missing: 0041; Dash",
        RowFault::G03,
    ),
];

#[test]
fn first_faults_of_missing_lines(rt: HostRuntime) {
    for (file, line, fault) in &FAULTS {
        assert!(rt;
            has_fault(rt.alloc(), *file, line, Some(*fault)),
            "{line:?}"
        );
    }
}

#[test]
fn keys_of_missing_rows(rt: HostRuntime) {
    let scripts = SourceFile::Scripts;
    let one: [&[u8]; 2] = [b"# @missing: 0041", b"#@missing:0041..0041 # A"];
    for text in &one {
        assert!(rt;
            is_key(
                rt.alloc(),
                scripts,
                text,
                Some(0x41),
                &[b"@missing", b"0041"]
            ),
            "{text:?}"
        );
    }
}

#[test]
fn keys_of_other_missing_rows(rt: HostRuntime) {
    let scripts = SourceFile::Scripts;
    let all = b"# @missing: 0000..10FFFF";
    assert!(rt; is_key(rt.alloc(), scripts, all, Some(0), &[b"@missing", b"10FFFF"]));
    assert!(rt; key_fault(rt.alloc(), scripts, b"# @missing: 0041; A") == Some(RowFault::G03));
    assert!(rt; key_fault(rt.alloc(), scripts, b"# @missing: A") == Some(RowFault::G04));
    assert!(rt; key_fault(rt.alloc(), SourceFile::PropList, all) == Some(RowFault::G03));
}

/// The first missing row stands before all, the others behind the last one; rows with one last code point stand
/// together.
const EDITS: [Case<'static>; 8] = [
    (Edit::Add(b"# @missing: 0000..10FFFF; Unknown"), Ok(())),
    (Edit::Add(b"# @missing: 0400..04FF; Cyrillic"), Ok(())),
    (Edit::Add(b"# @missing: 0500..10FFFF; Greek"), Ok(())),
    (
        Edit::Add(b"# @missing: 0400..04FF; Latin"),
        Err(OpStop::Key(KeyRule::K1)),
    ),
    (Edit::Change(b"# @missing: 0400..04FF; Latin"), Ok(())),
    (
        Edit::Withdraw(b"# @missing: 0400"),
        Err(OpStop::Key(KeyRule::K2)),
    ),
    (Edit::Withdraw(b"# @missing: 0000..10FFFF"), Ok(())),
    (Edit::Add(b"0400 ; Latin"), Ok(())),
];

#[test]
fn operations_on_missing_rows(rt: HostRuntime) -> Result<(), Fail> {
    assert!(rt;
        leaves(
            rt.alloc(),
            SourceFile::Scripts,
            b"# head\n0041 ; Latin\n",
            &EDITS,
            b"# @missing: 0400..04FF; Latin\n# @missing: 0500..10FFFF; Greek\n# head\n0041 ; Latin\n0400 ; Latin\n",
        )?
    );
    Ok(())
}
