//! Files that load, and the first line of those that do not.

use release_rows::{LoadRule, LoadStop, Release};
use source_rows::RowFault;
use std::alloc::Global;
use std::test::Fail;
use ucd_facts::{Memory, SourceFile, Text};

/// Whether a file is answered so, of its bytes and of its text, and keeps its bytes if it loads and none if it does
/// not.
pub fn is_answered(
    alloc: Global,
    file: SourceFile,
    bytes: &[u8],
    expected: Result<(), LoadStop>,
) -> Result<bool, Memory> {
    let kept = if expected.is_ok() { bytes } else { b"" };
    let copied = bytes_are_answered(alloc, file, bytes, &expected, kept)?;
    let moved = text_is_answered(alloc, file, bytes, &expected, kept)?;
    Ok(copied && moved)
}

/// Whether bytes that are loaded are answered so, and the file has these bytes then.
fn bytes_are_answered(
    alloc: Global,
    file: SourceFile,
    bytes: &[u8],
    expected: &Result<(), LoadStop>,
    kept: &[u8],
) -> Result<bool, Memory> {
    let mut release = Release::empty(alloc);
    let answered = release.load_file(file, bytes) == *expected;
    Ok(answered && release.text(alloc, file)?.as_slice() == kept)
}

/// Whether a text of these bytes that is moved into a release is answered so, and the file has the bytes `kept` then.
fn text_is_answered(
    alloc: Global,
    file: SourceFile,
    bytes: &[u8],
    expected: &Result<(), LoadStop>,
    kept: &[u8],
) -> Result<bool, Memory> {
    let text = Text::from_vec(Vec::from_slice(alloc, bytes)?);
    let mut release = Release::empty(alloc);
    let answered = release.load_text(file, text) == *expected;
    Ok(answered && release.text(alloc, file)?.as_slice() == kept)
}

/// The release with one file.
pub fn release_of(alloc: Global, file: SourceFile, bytes: &[u8]) -> Result<Release, LoadStop> {
    let mut release = Release::empty(alloc);
    release.load_file(file, bytes)?;
    Ok(release)
}

/// A file with its bytes, and the line and the rule of its first fault.
type Fault = (SourceFile, &'static [u8], u32, LoadRule);

/// Whether each file has this first fault.
fn are_refused(alloc: Global, faults: &[Fault]) -> Result<bool, Memory> {
    for (file, bytes, line, rule) in faults {
        let expected = Err(LoadStop::Fault {
            line: *line,
            rule: *rule,
        });
        if !is_answered(alloc, *file, bytes, expected)? {
            return Ok(false);
        }
    }
    Ok(true)
}

/// Whether each file loads.
fn are_loaded(alloc: Global, files: &[(SourceFile, &[u8])]) -> Result<bool, Memory> {
    for (file, bytes) in files {
        if !is_answered(alloc, *file, bytes, Ok(()))? {
            return Ok(false);
        }
    }
    Ok(true)
}

const SPAN_FAULTS: [Fault; 7] = [
    (
        SourceFile::PropList,
        b"0020 ; White_Space\n0020 ; White_Space\n",
        2,
        LoadRule::K1,
    ),
    (
        SourceFile::PropList,
        b"0020..0022 ; White_Space\n0021 ; White_Space\n",
        2,
        LoadRule::K4,
    ),
    (
        SourceFile::Scripts,
        b"0009..0020 ; Common\n0009..0020 ; Latin\n",
        2,
        LoadRule::K1,
    ),
    (
        SourceFile::Scripts,
        b"0041..005A ; Latin\n\n0030..0041 ; Common\n",
        3,
        LoadRule::K4,
    ),
    (
        SourceFile::Scripts,
        b"0041 ; Latin\n0042..0043 ; Latin\n0030..0050 ; Common\n",
        3,
        LoadRule::K4,
    ),
    (
        SourceFile::WordBreakProperty,
        b"0041..005A ; ALetter\n0050 ; ALetter\n",
        2,
        LoadRule::K4,
    ),
    (
        SourceFile::CompositionExclusions,
        b"0958..095F\n# Tibetan\n0F43\n095F\n",
        4,
        LoadRule::K4,
    ),
];

/// One property's spans may touch, and two properties' may be the same.
const SPANS: [(SourceFile, &[u8]); 1] = [(
    SourceFile::PropList,
    b"0021 ; Dash\n0009..0020 ; Dash\n0022..0030 ; Dash\n0009..0020 ; Hyphen\n",
)];

#[test]
fn rows_with_spans_are_compared_with_the_rows_above(rt: HostRuntime) -> Result<(), Fail> {
    assert!(rt; are_refused(rt.alloc(), &SPAN_FAULTS)?);
    assert!(rt; are_loaded(rt.alloc(), &SPANS)?);
    Ok(())
}

const OTHER_FAULTS: [Fault; 5] = [
    (
        SourceFile::CaseFolding,
        b"0130; F; 0069 0307;\n0130; T; 0069;\n0130; T; 0069;\n",
        3,
        LoadRule::K1,
    ),
    (
        SourceFile::SpecialCasing,
        b"0049; 0131; 0049; 0049; tr;\n0049; 0131; 0049; 0049; az;\n0049; 0131; 0049; 0049; az;\n",
        3,
        LoadRule::K1,
    ),
    (
        SourceFile::PropertyAliases,
        b"sc ; Script\nsc ; Script ; Other\n",
        2,
        LoadRule::K1,
    ),
    (
        SourceFile::PropertyValueAliases,
        b"gc ; Lu ; Uppercase_Letter\ngc ; Lu ; Upper\ngc ; Lu ; Upper ; U\n",
        3,
        LoadRule::K1,
    ),
    // the row's own fault comes before the key
    (
        SourceFile::Scripts,
        b"0041 ; Latin\n0041 ; \n",
        2,
        LoadRule::Row(RowFault::G11),
    ),
];

/// One code may case by two conditions, and fold by two statuses.
const OTHERS: [(SourceFile, &[u8]); 3] = [
    (
        SourceFile::SpecialCasing,
        b"00DF; 00DF; 0053 0073; 0053 0053;\n00DF; 00DF; 0053 0073; 0053 0053; tr;\n",
    ),
    (SourceFile::PropertyAliases, b"sc ; Script\nscx ; Script\n"),
    (SourceFile::Scripts, b"0041 ; Latin\n\r\n# end"),
];

#[test]
fn rows_without_spans_are_compared_with_the_rows_above(rt: HostRuntime) -> Result<(), Fail> {
    assert!(rt; are_refused(rt.alloc(), &OTHER_FAULTS)?);
    assert!(rt; are_loaded(rt.alloc(), &OTHERS)?);
    Ok(())
}
