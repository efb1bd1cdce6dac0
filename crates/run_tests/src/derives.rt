//! Derived files, words that have no form, and a shelf that never fails.

use crate::runs::{
    CORE_PATH, LETTERS, SOURCE_PATHS, SUMMARY, derives, ends, holds, shelf_of, words_of,
};
use shelf_io::{MemorySink, PerfectShelf};
use std::alloc::Global;
use std::test::Fail;
use ucd_model::Memory;
use ucdshop_core::{Status, run};

/// The core properties that are derived from the letters.
pub const LETTERS_CORE: &[u8] =
    b"# Math\n# total 0\n\n# Alphabetic\n0041 ; Alphabetic\n0061 ; Alphabetic\n# total 2\n\n# Lowercase\n0061 ; Lowercase\n# total 1\n\n# Uppercase\n0041 ; Uppercase\n# total 1\n\n# Cased\n0041 ; Cased\n0061 ; Cased\n# total 2\n\n# Case_Ignorable\n# total 0\n\n# Changes_When_Lowercased\n0041 ; Changes_When_Lowercased\n# total 1\n\n# Changes_When_Uppercased\n0061 ; Changes_When_Uppercased\n# total 1\n\n# Changes_When_Titlecased\n0061 ; Changes_When_Titlecased\n# total 1\n\n# Changes_When_Casefolded\n# total 0\n\n# Changes_When_Casemapped\n0041 ; Changes_When_Casemapped\n0061 ; Changes_When_Casemapped\n# total 2\n\n# ID_Start\n0041 ; ID_Start\n0061 ; ID_Start\n# total 2\n\n# ID_Continue\n0041 ; ID_Continue\n0061 ; ID_Continue\n# total 2\n\n# XID_Start\n0041 ; XID_Start\n0061 ; XID_Start\n# total 2\n\n# XID_Continue\n0041 ; XID_Continue\n0061 ; XID_Continue\n# total 2\n\n# Default_Ignorable_Code_Point\n# total 0\n\n# Grapheme_Extend\n# total 0\n\n# Grapheme_Base\n0041 ; Grapheme_Base\n0061 ; Grapheme_Base\n# total 2\n\n# Grapheme_Link\n# total 0\n\n";

const EMPTY_CORE: &[u8] =
    b"# Math\n# total 0\n\n# Alphabetic\n# total 0\n\n# Lowercase\n# total 0\n\n# Uppercase\n# total 0\n\n# Cased\n# total 0\n\n# Case_Ignorable\n# total 0\n\n# Changes_When_Lowercased\n# total 0\n\n# Changes_When_Uppercased\n# total 0\n\n# Changes_When_Titlecased\n# total 0\n\n# Changes_When_Casefolded\n# total 0\n\n# Changes_When_Casemapped\n# total 0\n\n# ID_Start\n# total 0\n\n# ID_Continue\n# total 0\n\n# XID_Start\n# total 0\n\n# XID_Continue\n# total 0\n\n# Default_Ignorable_Code_Point\n# total 0\n\n# Grapheme_Extend\n# total 0\n\n# Grapheme_Base\n# total 0\n\n# Grapheme_Link\n# total 0\n\n";

const PROPERTIES: &[u8] =
    b"# head\r\n005E          ; Other_Math # Sk       CIRCUMFLEX ACCENT\n2160..216F    ; Other_Uppercase # Nl  [16] ROMAN NUMERAL ONE..ROMAN NUMERAL SIXTEEN\n0345 ; Other_Alphabetic\n0346..0347;Other_Alphabetic\n10FFFF ; Other_Lowercase\n10FFFE..10FFFF ; Noncharacter_Code_Point\n";

const PROPERTIES_DATA: &[u8] =
    b"002B;PLUS SIGN;Sm;0;ES;;;;;N;;;;;\n01C5;X;Lt;0;L;;;;;N;;;;;\n2160;ROMAN NUMERAL ONE;Nl;0;L;;;;1;N;;;;;\n";

const PROPERTIES_CORE: &[u8] =
    b"# Math\n002B ; Math\n005E ; Math\n# total 2\n\n# Alphabetic\n01C5 ; Alphabetic\n0345..0347 ; Alphabetic\n2160..216F ; Alphabetic\n10FFFF ; Alphabetic\n# total 21\n\n# Lowercase\n10FFFF ; Lowercase\n# total 1\n\n# Uppercase\n2160..216F ; Uppercase\n# total 16\n\n# Cased\n01C5 ; Cased\n2160..216F ; Cased\n10FFFF ; Cased\n# total 18\n\n# Case_Ignorable\n# total 0\n\n# Changes_When_Lowercased\n# total 0\n\n# Changes_When_Uppercased\n# total 0\n\n# Changes_When_Titlecased\n# total 0\n\n# Changes_When_Casefolded\n# total 0\n\n# Changes_When_Casemapped\n# total 0\n\n# ID_Start\n01C5 ; ID_Start\n2160 ; ID_Start\n# total 2\n\n# ID_Continue\n01C5 ; ID_Continue\n2160 ; ID_Continue\n# total 2\n\n# XID_Start\n01C5 ; XID_Start\n2160 ; XID_Start\n# total 2\n\n# XID_Continue\n01C5 ; XID_Continue\n2160 ; XID_Continue\n# total 2\n\n# Default_Ignorable_Code_Point\n# total 0\n\n# Grapheme_Extend\n# total 0\n\n# Grapheme_Base\n002B ; Grapheme_Base\n01C5 ; Grapheme_Base\n2160 ; Grapheme_Base\n# total 3\n\n# Grapheme_Link\n# total 0\n\n";

const RANGE: &[u8] =
    b"4E00;<CJK Ideograph, First>;Lo;0;L;;;;;N;;;;;\r\n9FFF;<CJK Ideograph, Last>;Lo;0;L;;;;;N;;;;;";

const RANGE_CORE: &[u8] =
    b"# Math\n# total 0\n\n# Alphabetic\n4E00..9FFF ; Alphabetic\n# total 20992\n\n# Lowercase\n# total 0\n\n# Uppercase\n# total 0\n\n# Cased\n# total 0\n\n# Case_Ignorable\n# total 0\n\n# Changes_When_Lowercased\n# total 0\n\n# Changes_When_Uppercased\n# total 0\n\n# Changes_When_Titlecased\n# total 0\n\n# Changes_When_Casefolded\n# total 0\n\n# Changes_When_Casemapped\n# total 0\n\n# ID_Start\n4E00..9FFF ; ID_Start\n# total 20992\n\n# ID_Continue\n4E00..9FFF ; ID_Continue\n# total 20992\n\n# XID_Start\n4E00..9FFF ; XID_Start\n# total 20992\n\n# XID_Continue\n4E00..9FFF ; XID_Continue\n# total 20992\n\n# Default_Ignorable_Code_Point\n# total 0\n\n# Grapheme_Extend\n# total 0\n\n# Grapheme_Base\n4E00..9FFF ; Grapheme_Base\n# total 20992\n\n# Grapheme_Link\n# total 0\n\n";

/// UnicodeData.txt and PropList.txt, and the core properties that are derived from them.
const FLAGGED: [(&[u8], &[u8], &[u8]); 2] = [
    (LETTERS, b"", LETTERS_CORE),
    (PROPERTIES_DATA, PROPERTIES, PROPERTIES_CORE),
];

/// UnicodeData.txt, and the core properties that are derived from it alone.
const BARE: [(&[u8], &[u8]); 2] = [(RANGE, RANGE_CORE), (b"", EMPTY_CORE)];

/// Whether these core properties are derived, and the release stays.
fn derives_core(
    alloc: Global,
    data: &[u8],
    properties: &[u8],
    core: &[u8],
) -> Result<bool, Memory> {
    let mut shelf = shelf_of(alloc, data, properties)?;
    let expected = (Status::Clean, SUMMARY, core);
    Ok(
        derives(alloc, &mut shelf, 1000, expected)?
            && holds(
                &shelf,
                &[
                    (b"d/UnicodeData.txt", data),
                    (b"d/PropList.txt", properties),
                ],
            ),
    )
}

#[test]
fn flags_enter_the_sections(rt: HostRuntime) -> Result<(), Fail> {
    for (data, properties, core) in &FLAGGED {
        assert!(rt; derives_core(rt.alloc(), data, properties, core)?);
    }
    Ok(())
}

#[test]
fn sources_stay(rt: HostRuntime) -> Result<(), Fail> {
    for (data, core) in &BARE {
        assert!(rt; derives_core(rt.alloc(), data, b"", core)?);
    }
    Ok(())
}

/// The line that bad words are told.
pub const USAGE: &[u8] =
    b"usage: ucdshop derive DATA OUT | apply DATA SCRIPT OUT [PREVIOUS] | make NUMBER OUT\n";

/// Words that have no form.
const NO_FORMS: [&[&[u8]]; 14] = [
    &[],
    &[b"make", b"51", b"o"],
    &[b"make", b"1"],
    &[b"make", b"1", b"s", b"o"],
    &[b"Make", b"1", b"o"],
    &[b"derive", b"d"],
    &[b"derive", b"d", b"o", b"p"],
    &[b"Derive", b"d", b"o"],
    &[b"--help"],
    &[b"apply", b"d", b"s"],
    &[b"apply", b"d", b"s", b"o", b"p", b"q"],
    &[b"Apply", b"d", b"s", b"o", b"p"],
    &[b"derive", b"d", b"s", b"o", b"p"],
    &[b"derive", b"d", b"s", b"o"],
];

/// Whether these words are refused, into a sink with room for so many bytes of this line, and nothing is written.
pub fn are_refused(
    alloc: Global,
    words: &[&[u8]],
    room: usize,
    line: &[u8],
) -> Result<bool, Memory> {
    let mut shelf = shelf_of(alloc, LETTERS, b"")?;
    Ok(
        ends(alloc, words, &mut shelf, room, (Status::BadWords, line))?
            && holds(&shelf, &[(CORE_PATH, b"old")]),
    )
}

#[test]
fn words_of_no_form_are_refused(rt: HostRuntime) -> Result<(), Fail> {
    for words in &NO_FORMS {
        assert!(rt; are_refused(rt.alloc(), words, 1000, USAGE)?);
    }
    Ok(())
}

/// The status of a run over empty files on a shelf that never fails. That it ends with no read fault is proved, and not
/// only tried.
fn status_on_perfect(alloc: Global, shelf: &mut PerfectShelf) -> Result<Status, Memory> {
    for path in &SOURCE_PATHS {
        shelf.place(path, b"")?;
    }
    let words = words_of(alloc, &[b"derive", b"d", b"o"])?;
    let mut out = MemorySink::new(alloc, 1000)?;
    let status = run(alloc, &words, shelf, &mut out);
    if let Status::ReadFault = status {
        unreachable!();
    }
    Ok(status)
}

/// Whether such a run ends with status 0, and leaves the derived file.
fn ends_perfectly(alloc: Global) -> Result<bool, Memory> {
    let mut shelf = PerfectShelf::new(alloc);
    let status = status_on_perfect(alloc, &mut shelf)?;
    Ok(status.code() == 0 && shelf.held(CORE_PATH) == Some(EMPTY_CORE))
}

#[test]
fn a_perfect_shelf_has_no_read_fault(rt: HostRuntime) -> Result<(), Fail> {
    assert!(rt; ends_perfectly(rt.alloc())?);
    Ok(())
}
