//! Real lines and what they are written as again, and for each rule lines that break it first.

ghost use Rattle.ucd_facts.specs.RowValues.{RowOk};

use source_rows::*;
use std::alloc::Global;
use std::test::Fail;
use ucd_facts::{Point, Row, SourceFile, Text};

/// Whether the row of a line is written so, or why the line has none.
pub fn is_written(
    alloc: Global,
    file: SourceFile,
    bytes: &[u8],
    expected: &[u8],
) -> Result<bool, RowStop> {
    let row = read_row(alloc, file, bytes)?;
    Ok(has_text(alloc, file, &row, expected))
}

fn has_text(alloc: Global, file: SourceFile, row: &Row, expected: &[u8]) -> bool
    requires { RowOk file row.now }
{
    match row_text(alloc, file, row) {
        Ok(text) => text.as_slice() == expected,
        Err(_) => false,
    }
}

/// Whether a line has this fault, or none.
pub fn has_fault(alloc: Global, file: SourceFile, bytes: &[u8], fault: Option<RowFault>) -> bool {
    match is_written(alloc, file, bytes, b"") {
        Ok(_) => fault.is_none(),
        Err(stop) => is_stop(&stop, fault),
    }
}

fn is_stop(stop: &RowStop, fault: Option<RowFault>) -> bool {
    match stop {
        RowStop::Fault(found) => fault == Some(*found),
        RowStop::Memory => false,
    }
}

/// Whether a line of UnicodeData.txt has this fault, or none, if only the fields are read that give something.
fn has_point_fault(bytes: &[u8], fault: Option<RowFault>) -> bool {
    match read_point_values(bytes) {
        Ok(_) => fault.is_none(),
        Err(found) => fault == Some(found),
    }
}

/// Lines of real files, and what each is written as again.
const REAL_LINES: [(SourceFile, &[u8], &[u8]); 16] = [
    (
        SourceFile::UnicodeData,
        b"0041;LATIN CAPITAL LETTER A;Lu;0;L;;;;;N;;;;0061;",
        b"0041;LATIN CAPITAL LETTER A;Lu;0;L;;;;;N;;;;0061;",
    ),
    (
        SourceFile::UnicodeData,
        b"01C5;LATIN CAPITAL LETTER D WITH SMALL LETTER Z WITH CARON;Lt;0;L;<compat> 0044 017E;;;;N;LATIN LETTER CAPITAL D SMALL Z HACEK;;01C4;01C6;01C5",
        b"01C5;LATIN CAPITAL LETTER D WITH SMALL LETTER Z WITH CARON;Lt;0;L;<compat> 0044 017E;;;;N;LATIN LETTER CAPITAL D SMALL Z HACEK;;01C4;01C6;01C5",
    ),
    (
        SourceFile::UnicodeData,
        b"0344;COMBINING GREEK DIALYTIKA TONOS;Mn;230;NSM;0308 0301;;;;N;GREEK NON-SPACING DIAERESIS TONOS;;;;",
        b"0344;COMBINING GREEK DIALYTIKA TONOS;Mn;230;NSM;0308 0301;;;;N;GREEK NON-SPACING DIAERESIS TONOS;;;;",
    ),
    (
        SourceFile::UnicodeData,
        b"ac00;<Hangul Syllable, First>;Lo;0;L;;;;;N;;;;;\r\nD7A3;<Hangul Syllable, Last>;Lo;0;L;;;;;N;;;;;",
        b"AC00;<Hangul Syllable, First>;Lo;0;L;;;;;N;;;;;\nD7A3;<Hangul Syllable, Last>;Lo;0;L;;;;;N;;;;;",
    ),
    (
        SourceFile::UnicodeData,
        b" 10fffd;<, First>; Co;007;;<noBreak>0020  0041;#;\r;a b;;;;;;\t",
        b"10FFFD;<, First>;Co;7;;<noBreak> 0020 0041;#;\r;a b;;;;;;",
    ),
    (
        SourceFile::PropList,
        b"1FFFE..1FFFF  ; Noncharacter_Code_Point # Cn   [2] <noncharacter-1FFFE>..<noncharacter-1FFFF>",
        b"1FFFE..1FFFF ; Noncharacter_Code_Point",
    ),
    (
        SourceFile::Scripts,
        b"0000..001F    ; Common # Cc  [32] <control-0000>..<control-001F>",
        b"0000..001F ; Common",
    ),
    (
        SourceFile::WordBreakProperty,
        b"0022          ; Double_Quote # Po       QUOTATION MARK",
        b"0022 ; Double_Quote",
    ),
    (
        SourceFile::CompositionExclusions,
        b"0958    #  DEVANAGARI LETTER QA",
        b"0958",
    ),
    (
        SourceFile::CaseFolding,
        b"00DF; F; 0073 0073; # LATIN SMALL LETTER SHARP S",
        b"00DF; F; 0073 0073;",
    ),
    (SourceFile::CaseFolding, b"0041;C;0061", b"0041; C; 0061;"),
    (
        SourceFile::SpecialCasing,
        b"00DF; 00DF; 0053 0073; 0053 0053; # LATIN SMALL LETTER SHARP S",
        b"00DF; 00DF; 0053 0073; 0053 0053;",
    ),
    (
        SourceFile::SpecialCasing,
        b"0307; ; 0307; 0307; lt  After_Soft_Dotted; # COMBINING DOT ABOVE",
        b"0307; ; 0307; 0307; lt After_Soft_Dotted;",
    ),
    (
        SourceFile::PropertyAliases,
        b"AHex                     ; ASCII_Hex_Digit",
        b"AHex ; ASCII_Hex_Digit",
    ),
    (
        SourceFile::PropertyValueAliases,
        b"ccc; 230; A                    ; Above",
        b"ccc ; 230 ; A ; Above",
    ),
    (SourceFile::PropertyValueAliases, b"JSN; ; ", b"JSN ;  ; "),
];

#[test]
fn real_lines_are_written_again(rt: HostRuntime) {
    for (file, line, text) in &REAL_LINES {
        assert!(rt;
            is_written(rt.alloc(), *file, line, text) == Ok(true),
            "{line:?}"
        );
    }
}

/// Lines of UnicodeData.txt, and the fault of each.
const DATA_FAULTS: [(&[u8], Option<RowFault>); 29] = [
    (b"41;14 fields;Xx;0;L;;;;;N;;;;", Some(RowFault::G03)),
    (
        b"0041;no comment;Lu;0;L;;;;;N;;;;; # ;",
        Some(RowFault::G03),
    ),
    (b"0041;line feed;Lu;0;L;;;;;N;;;;;\n", Some(RowFault::G03)),
    (
        b"0041;two;Lu;0;L;;;;;N;;;;;\n0042;lines;Lu;0;L;;;;;N;;;;;",
        Some(RowFault::G03),
    ),
    (b"41;\x7f;Xx;0;L;;;;;N;;;;;", Some(RowFault::G04)),
    (
        b"0000041;seven digits;Lu;0;L;;;;;N;;;;;",
        Some(RowFault::G04),
    ),
    (
        b"110000;past the end;Lu;0;L;;;;;N;;;;;",
        Some(RowFault::G04),
    ),
    (
        b"0041..0042;no code point;Lu;0;L;;;;;N;;;;;",
        Some(RowFault::G04),
    ),
    (b"0041;;Xx;0;L;;;;;N;;;;;", Some(RowFault::G11)),
    (b"0041;<\x7f, First>;Lu;0;L;;;;;N;;;;;", Some(RowFault::G11)),
    (b"0378;unassigned;Cn;255;L;;;;;N;;;;;", Some(RowFault::G05)),
    (b"0041;class;Lu;255;L;x;;;;N;;;;;", Some(RowFault::G06)),
    (b"0041;class;Lu;0230;L;;;;;N;;;;;", Some(RowFault::G06)),
    (b"0041;class;Lu;254;L;;;;;N;;;;;", None),
    (
        b"0041;kept fields;Lu;0;\x7f;;x;<;0041 43;\xff;\r;#;;;",
        None,
    ),
    (
        b"0041;kept fields;Lu;0;\x7f;;x;<;0041 43;\xff;\r;#;x;;",
        Some(RowFault::G07),
    ),
    (
        b"0041;kept fields;Lu;0;\x7f;;x;<;0041 43;\xff;\r;#;;x;",
        Some(RowFault::G07),
    ),
    (
        b"0041;kept fields;Lu;0;\x7f;;x;<;0041 43;\xff;\r;#;;;x",
        Some(RowFault::G07),
    ),
    (
        b"0041;tag;Lu;0;L;<none> 0041;;;;N;;;;;",
        Some(RowFault::G07),
    ),
    (
        b"0041;tag alone;Lu;0;L;<font>;;;;N;;;;;",
        Some(RowFault::G07),
    ),
    (
        b"0041;three, one bad;Lu;0;L;0041 0042 43;;;;N;;;;;",
        Some(RowFault::G07),
    ),
    (
        b"0041;three;Lu;0;L;0041 0042 0043;;;;N;;x;;;",
        Some(RowFault::G10),
    ),
    (b"0041;return;Lu;0;L;;;;;N;;;;;\r", Some(RowFault::G07)),
    (b"3400;<A, First>;Xx;0;L;;;;;N;;;;;", Some(RowFault::G05)),
    (b"3400;<A, First>;Lo;0;L;;;;;N;;;;;", Some(RowFault::G09)),
    (b"4DBF;<A, Last>;Lo;0;L;;;;;N;;;;;", Some(RowFault::G09)),
    (
        b"3400;<A, First>;Lo;0;L;;;;;N;;;;;\n41;<B, Last>;;;;;;;;;;;;;",
        Some(RowFault::G09),
    ),
    (
        b"3400;<A, First>;Lo;0;L;;;;;N;;;;;\n33FF;<A, Last>;;;;;;;;;;;;;",
        Some(RowFault::G04),
    ),
    (
        b"3400;<A, First>;Lo;0;L;;;;;N;;;;;\n4DBF;<A, Last>;;;;;;;;;;;;;",
        None,
    ),
];

#[test]
fn first_faults_of_unicode_data(rt: HostRuntime) {
    for (line, fault) in &DATA_FAULTS {
        assert!(rt;
            has_fault(rt.alloc(), SourceFile::UnicodeData, line, *fault),
            "{line:?}"
        );
        assert!(rt; has_point_fault(line, *fault), "{line:?}");
    }
}

/// Lines of the other files, and the fault of each.
const OTHER_FAULTS: [(SourceFile, &[u8], RowFault); 25] = [
    (SourceFile::PropList, b"41", RowFault::G03),
    (SourceFile::PropList, b"0041 # ; Math", RowFault::G03),
    (SourceFile::PropList, b"0041 ; Math\n", RowFault::G03),
    (SourceFile::PropList, b"0022..0021 ;", RowFault::G04),
    (SourceFile::PropList, b"0020 .. 0021 ; Math", RowFault::G04),
    (SourceFile::Scripts, b"0041 ; # Latin", RowFault::G11),
    (
        SourceFile::WordBreakProperty,
        b"0041 ; Math\r",
        RowFault::G11,
    ),
    (SourceFile::CompositionExclusions, b"41;", RowFault::G03),
    (SourceFile::CompositionExclusions, b"# 0041", RowFault::G04),
    (SourceFile::CaseFolding, b"41; X", RowFault::G03),
    (SourceFile::CaseFolding, b"41; X; 41; x", RowFault::G03),
    (SourceFile::CaseFolding, b"41; X; 41;", RowFault::G04),
    (SourceFile::CaseFolding, b"0041; X; 41;", RowFault::G08),
    (
        SourceFile::CaseFolding,
        b"0041; C; 0061 0061;",
        RowFault::G07,
    ),
    (SourceFile::CaseFolding, b"0041; F; ;", RowFault::G07),
    (SourceFile::SpecialCasing, b"41; ; ", RowFault::G03),
    (SourceFile::SpecialCasing, b"41; ; ; ; ; x", RowFault::G03),
    (SourceFile::SpecialCasing, b"41; 41; ; ;", RowFault::G04),
    (
        SourceFile::SpecialCasing,
        b"0041; ; ; 41; \x7f;",
        RowFault::G07,
    ),
    (
        SourceFile::SpecialCasing,
        b"0041; ; ; ; \x7f;",
        RowFault::G11,
    ),
    (SourceFile::PropertyAliases, b"", RowFault::G03),
    (
        SourceFile::PropertyAliases,
        b"; ASCII_Hex_Digit",
        RowFault::G11,
    ),
    (SourceFile::PropertyAliases, b"AHex ; \x7f", RowFault::G11),
    (SourceFile::PropertyValueAliases, b"; A", RowFault::G03),
    (
        SourceFile::PropertyValueAliases,
        b"ccc ; 0 ; \xff",
        RowFault::G11,
    ),
];

#[test]
fn first_faults_of_other_files(rt: HostRuntime) {
    for (file, line, fault) in &OTHER_FAULTS {
        assert!(rt;
            has_fault(rt.alloc(), *file, line, Some(*fault)),
            "{line:?}"
        );
    }
}

/// Whether a folding of 0041 to itself, so many times, has this fault, or none.
fn folds_so(alloc: Global, count: usize, fault: Option<RowFault>) -> bool {
    let mut line = Text::new(alloc);
    put_folding(&mut line, count);
    has_fault(alloc, SourceFile::CaseFolding, line.as_slice(), fault)
}

fn put_folding(line: &mut Text, count: usize) {
    let _ = line.append(b"0041; F;");
    for _ in 0..count {
        let _ = line.append(b" 0041");
    }
}

#[test]
fn a_mapping_has_at_most_64_code_points(rt: HostRuntime) {
    assert!(rt; folds_so(rt.alloc(), 64, None));
    assert!(rt; folds_so(rt.alloc(), 65, Some(RowFault::G07)));
}

/// Whether a line of PropertyAliases.txt has these names.
fn has_names(bytes: &[u8], expected: &[&[u8]]) -> bool {
    let Ok(RowRef::Alias(mut names)) = read_row_ref(SourceFile::PropertyAliases, bytes) else {
        return false;
    };
    for name in expected {
        if names.next() != Some(*name) {
            return false;
        }
    }
    names.next().is_none()
}

/// Whether a line of Scripts.txt gives this script to the code points from the first to the last one.
fn has_script(bytes: &[u8], first: u32, last: u32, expected: &[u8]) -> bool {
    match read_row_ref(SourceFile::Scripts, bytes) {
        Ok(RowRef::Value(text)) => {
            text.span.first() == first && text.span.last() == last && text.value == expected
        }
        _ => false,
    }
}

/// Whether a line of CaseFolding.txt folds its code point to these two.
fn folds_to(bytes: &[u8], first: u32, second: u32) -> bool {
    let Ok(RowRef::Fold(mut text)) = read_row_ref(SourceFile::CaseFolding, bytes) else {
        return false;
    };
    let found = (
        text.mapping.next(),
        text.mapping.next(),
        text.mapping.next(),
    );
    found == (Point::new(first), Point::new(second), None)
}

/// Whether a line of UnicodeData.txt gives its code points this class, and a mapping of so many members.
fn gives(bytes: &[u8], class: u8, members: usize) -> bool {
    match read_point_values(bytes) {
        Ok(PointValues { values, .. }) => {
            values.class == class && values.decomposition.mapping.len() == members
        }
        Err(_) => false,
    }
}

#[test]
fn real_lines_without_a_copy(rt: HostRuntime) {
    assert!(rt;
        gives(
            b"0344;COMBINING GREEK DIALYTIKA TONOS;Mn;230;NSM;0308 0301;;;;N;;;;;",
            230,
            2,
        )
    );
    assert!(rt; has_names(b"gc ; General_Category", &[b"gc", b"General_Category"]));
    assert!(rt;
        folds_to(
            b"1F80; F; 1F00 03B9; # GREEK SMALL LETTER ALPHA WITH PSILI AND YPOGEGRAMMENI",
            0x1F00,
            0x03B9
        )
    );
    assert!(rt;
        has_script(
            b"0041..005A    ; Latin # L&  [26] LATIN CAPITAL LETTER A..LATIN CAPITAL LETTER Z",
            0x41,
            0x5A,
            b"Latin",
        )
    );
}

/// Lines that are read one after the other, with what each gives, a class and a number of members, or its fault. What
/// stands behind the name is often that of a line above.
const IN_TURN: [(&[u8], Result<(u8, usize), RowFault>); 9] = [
    (
        b"0315;COMBINING COMMA ABOVE RIGHT;Mn;232;NSM;;;;;N;;;;;",
        Ok((232, 0)),
    ),
    (
        b"0316;COMBINING GRAVE ACCENT BELOW;Mn;220;NSM;;;;;N;;;;;",
        Ok((220, 0)),
    ),
    (
        b"0317;COMBINING ACUTE ACCENT BELOW;Mn;220;NSM;;;;;N;;;;;",
        Ok((220, 0)),
    ),
    (b"0318;;Mn;220;NSM;;;;;N;;;;;", Err(RowFault::G11)),
    (b"110000;A;Mn;220;NSM;;;;;N;;;;;", Err(RowFault::G04)),
    (b"0319;<A, Last>;Mn;220;NSM;;;;;N;;;;;", Err(RowFault::G09)),
    (b"031A;A;Mn;220;NSM;;;;;N;;;;", Err(RowFault::G03)),
    (
        b"0344;COMBINING GREEK DIALYTIKA TONOS;Mn;230;NSM;0308 0301;;;;N;;;;;",
        Ok((230, 2)),
    ),
    (
        b"0318;COMBINING LEFT TACK BELOW;Mn;220;NSM;;;;;N;;;;;",
        Ok((220, 0)),
    ),
];

#[test]
fn lines_in_turn(rt: HostRuntime) {
    let mut above = FieldsCache::with_letter_tail();
    for (line, expected) in &IN_TURN {
        let given = match read_point_values_with_cache(line, &mut above) {
            Ok(PointValues { values, .. }) => {
                Ok((values.class, values.decomposition.mapping.len()))
            }
            Err(fault) => Err(fault),
        };
        assert!(rt; given == *expected, "{line:?}");
    }
}

/// Lines, and whether each begins a range.
const FIRST_LINES: [(&[u8], bool); 5] = [
    (b"3400;<A, First>;Xx;0;L;;;;;N;;;;;", true),
    (b"3400;<A, First>;Xx;0;L;;;;;N;;;;", false),
    (b"3400;<A, Last>;Lo;0;L;;;;;N;;;;;", false),
    (b"3400;<, First>;Lo;0;L;;;;;N;;;;;", false),
    (b"3400;<\x7f, First>;Lo;0;L;;;;;N;;;;;", false),
];

#[test]
fn first_lines(rt: HostRuntime) {
    for (line, begins) in &FIRST_LINES {
        assert!(rt; begins_range(line) == *begins, "{line:?}");
    }
}
