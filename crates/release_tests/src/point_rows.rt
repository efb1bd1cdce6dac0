//! The rows of a release that speak of a code point, as they stand in their files.

use record_lines::{PointText, put_rows};
use release_rows::{LoadStop, Release};
use std::alloc::Global;
use std::test::Fail;
use ucd_facts::{Point, SourceFile, Text};

/// Lines of UnicodeData.txt of Unicode 15.0.0, with CR LF.
const DATA: &[u8] =
    b"0041;LATIN CAPITAL LETTER A;Lu;0;L;;;;;N;;;;0061;\r\n3400;<CJK Ideograph Extension A, First>;Lo;0;L;;;;;N;;;;;\r\n4DBF;<CJK Ideograph Extension A, Last>;Lo;0;L;;;;;N;;;;;\r\n";

/// Lines of Scripts.txt, without a line end behind the last one.
const SCRIPTS: &[u8] =
    b"# @missing: 0000..10FFFF; Unknown\n\n# comment\n3400..4DBF    ; Han # Lo [6592] CJK UNIFIED IDEOGRAPH-3400..CJK UNIFIED IDEOGRAPH-4DBF\n0041..005A    ; Latin # L&  [26] LATIN CAPITAL LETTER A..LATIN CAPITAL LETTER Z";

/// A line of WordBreakProperty.txt.
const BREAKS: &[u8] =
    b"0041..005A    ; ALetter # L&  [26] LATIN CAPITAL LETTER A..LATIN CAPITAL LETTER Z\n";

/// Code points, and the rows that speak of each.
const ROWS: [(u32, &[u8]); 4] = [
    (
        0x41,
        b"UnicodeData.txt line 1: 0041;LATIN CAPITAL LETTER A;Lu;0;L;;;;;N;;;;0061;\n\
          Scripts.txt line 1: # @missing: 0000..10FFFF; Unknown\n\
          Scripts.txt line 5: 0041..005A    ; Latin # L&  [26] LATIN CAPITAL LETTER A..LATIN CAPITAL LETTER Z\n\
          auxiliary/WordBreakProperty.txt line 1: 0041..005A    ; ALetter # L&  [26] LATIN CAPITAL LETTER A..LATIN CAPITAL LETTER Z\n",
    ),
    (
        0x3401,
        b"UnicodeData.txt line 2: 3400;<CJK Ideograph Extension A, First>;Lo;0;L;;;;;N;;;;;\n\
          UnicodeData.txt line 3: 4DBF;<CJK Ideograph Extension A, Last>;Lo;0;L;;;;;N;;;;;\n\
          Scripts.txt line 1: # @missing: 0000..10FFFF; Unknown\n\
          Scripts.txt line 4: 3400..4DBF    ; Han # Lo [6592] CJK UNIFIED IDEOGRAPH-3400..CJK UNIFIED IDEOGRAPH-4DBF\n",
    ),
    (
        0x0,
        b"Scripts.txt line 1: # @missing: 0000..10FFFF; Unknown\n",
    ),
    (
        0x10_FFFF,
        b"Scripts.txt line 1: # @missing: 0000..10FFFF; Unknown\n",
    ),
];

/// The release of these lines.
fn release(alloc: Global) -> Result<Release, LoadStop> {
    let mut release = Release::empty(alloc);
    release.load_file(SourceFile::UnicodeData, DATA)?;
    release.load_file(SourceFile::Scripts, SCRIPTS)?;
    release.load_file(SourceFile::WordBreakProperty, BREAKS)?;
    Ok(release)
}

/// The code points of the rows, with nothing told of them.
fn untold(alloc: Global) -> Result<Vec<PointText>, Fail> {
    let mut told = Vec::new(alloc);
    for (number, _) in &ROWS {
        let point = Point::new(*number).ok_or("a code point")?;
        let text = Text::new(alloc);
        told.push(PointText { point, text })?;
    }
    Ok(told)
}

/// Whether each code point is told its rows.
fn have_rows(told: &[PointText]) -> bool {
    for (one, (_, expected)) in told.iter().zip(&ROWS) {
        if one.text.as_slice() != *expected {
            return false;
        }
    }
    told.len() == ROWS.len()
}

#[test]
fn rows_of_code_points_by_file_and_line(rt: HostRuntime) -> Result<(), Fail> {
    let alloc = rt.alloc();
    let release = release(alloc)?;
    let mut told = untold(alloc)?;
    put_rows(alloc, &release, told.as_mut_slice())?;
    assert!(rt; have_rows(told.as_slice()));
    Ok(())
}
