//! The edges of lines, fields and code points, and callers that know the lists by the contracts alone.

ghost use Rattle.std.specs.Prelude.{◌≡◌, length, IfOk};
ghost use Rattle.ucd_points.specs.Fields.{fields};

use std::alloc::Global;
use ucd_lines::*;
use ucd_model::{Memory, Point, SourceFile, Text};

/// The text again, line by line.
fn copied(alloc: Global, bytes: &[u8]) -> Result<Text, Memory>
    ensures { IfOk result (λ text. text ≡ bytes.now) }
{
    let mut text = Text::new(alloc);
    'lines: for item in items(bytes) {
        join(item, &mut text)?;
    }
    Ok(text)
}

/// How many fields a line has.
fn field_count(file: SourceFile, content: &[u8]) -> usize
    ensures { result ≡ length (fields file content.now) }
{
    fields(file, content).count()
}

/// Whether the lines of a text are these, and put together give the text.
fn has_lines(alloc: Global, bytes: &[u8], wanted: &[(&[u8], Ending)]) -> Result<bool, Memory> {
    let mut lines = items(bytes);
    for (content, ending) in wanted {
        let Some(item) = lines.next() else {
            return Ok(false);
        };
        if item.content != *content || item.ending != *ending {
            return Ok(false);
        }
    }
    Ok(lines.next().is_none() && copied(alloc, bytes)?.as_slice() == bytes)
}

/// Texts and their lines, each with its ending.
const LINES: [(&[u8], &[(&[u8], Ending)]); 10] = [
    (b"", &[]),
    (b"\n", &[(b"", Ending::Lf)]),
    (b"\r\n", &[(b"", Ending::CrLf)]),
    (b"\n\n", &[(b"", Ending::Lf), (b"", Ending::Lf)]),
    (b"\r", &[(b"\r", Ending::None)]),
    (b"0041;A", &[(b"0041;A", Ending::None)]),
    (b"a\r\nb\n", &[(b"a", Ending::CrLf), (b"b", Ending::Lf)]),
    (
        b"a\rb\nc\r",
        &[(b"a\rb", Ending::Lf), (b"c\r", Ending::None)],
    ),
    (b"a\r\r\n", &[(b"a\r", Ending::CrLf)]),
    (b"a\n\rb", &[(b"a", Ending::Lf), (b"\rb", Ending::None)]),
];

#[test]
fn lines_and_their_endings(rt: HostRuntime) {
    for (bytes, wanted) in &LINES {
        assert!(rt;
            has_lines(rt.alloc(), bytes, wanted) == Ok(true),
            "{bytes:?}"
        );
    }
}

/// Lines, and whether each is passed over in all files but Scripts.txt and WordBreakProperty.txt.
const TRIVIA: [(&[u8], bool); 9] = [
    (b"", true),
    (b" \t", true),
    (b"#", true),
    (b"# @missing: 0000..10FFFF; Unknown", true),
    (b" \t# EOF", true),
    (b"\r", false),
    (b"\x0c# form feed", false),
    (b"0041;A # comment", false),
    (b";#", false),
];

#[test]
fn blank_lines_and_comments(rt: HostRuntime) {
    for (content, trivia) in &TRIVIA {
        assert!(rt;
            is_trivia(SourceFile::PropList, content) == *trivia,
            "{content:?}"
        );
    }
}

/// Lines, and whether each is a missing line in Scripts.txt.
const MISSING: [(&[u8], bool); 8] = [
    (b"# @missing: 0000..10FFFF; Unknown", true),
    (b"#@missing:", true),
    (b" \t# \t@missing:0041;A", true),
    (b"## @missing: 0041; A", false),
    (b"# @Missing: 0041; A", false),
    (b"# @missing 0041; A", false),
    (b"# x @missing: 0041; A", false),
    (b"0041; A # @missing: 0041; A", false),
];

#[test]
fn missing_lines(rt: HostRuntime) {
    for (content, missing) in &MISSING {
        assert!(rt;
            missing_rest(SourceFile::Scripts, content).is_some() == *missing,
            "{content:?}"
        );
        assert!(rt;
            missing_rest(SourceFile::WordBreakProperty, content).is_some() == *missing,
            "{content:?}"
        );
        assert!(rt;
            missing_rest(SourceFile::PropList, content).is_none(),
            "{content:?}"
        );
    }
}

/// Whether the fields of a line are these.
fn has_fields(file: SourceFile, content: &[u8], wanted: &[&[u8]]) -> bool {
    let mut left = fields(file, content);
    for field in wanted {
        let Some(found) = left.next() else {
            return false;
        };
        if found != *field {
            return false;
        }
    }
    left.next().is_none() && field_count(file, content) == wanted.len()
}

/// Lines and their fields.
const FIELDS: [(SourceFile, &[u8], &[&[u8]]); 9] = [
    (SourceFile::PropList, b"", &[b""]),
    (SourceFile::PropList, b";", &[b"", b""]),
    (
        SourceFile::PropList,
        b"005E          ; Other_Math # Sk       CIRCUMFLEX ACCENT",
        &[b"005E", b"Other_Math"],
    ),
    (
        SourceFile::SpecialCasing,
        b"00DF; 00DF; 0053 0073; 0053 0053; # LATIN SMALL LETTER SHARP S",
        &[b"00DF", b"00DF", b"0053 0073", b"0053 0053", b""],
    ),
    (
        SourceFile::CaseFolding,
        b"\t 0041 \t;\tC\t; 0061;#a;b",
        &[b"0041", b"C", b"0061", b""],
    ),
    (SourceFile::PropertyAliases, b"# only a comment", &[b""]),
    (
        SourceFile::Scripts,
        b"0041 ; Latin\r",
        &[b"0041", b"Latin\r"],
    ),
    (
        SourceFile::UnicodeData,
        b"0023;NUMBER SIGN; Po ;0;ET;;;;;N;#;;;;",
        &[
            b"0023",
            b"NUMBER SIGN",
            b"Po",
            b"0",
            b"ET",
            b"",
            b"",
            b"",
            b"",
            b"N",
            b"#",
            b"",
            b"",
            b"",
            b"",
        ],
    ),
    (SourceFile::UnicodeData, b"a # b ; c", &[b"a # b", b"c"]),
];

#[test]
fn fields_and_comments(rt: HostRuntime) {
    for (file, content, wanted) in &FIELDS {
        assert!(rt; has_fields(*file, content, wanted), "{content:?}");
    }
}

/// Fields, and the code point that each spells.
const CODE_POINTS: [(&[u8], Option<u32>); 16] = [
    (b"0000", Some(0)),
    (b"0041", Some(0x41)),
    (b"FFFF", Some(0xffff)),
    (b"00abcD", Some(0xabcd)),
    (b"1F600", Some(0x1_f600)),
    (b"10FFFF", Some(0x10_ffff)),
    (b"10ffff", Some(0x10_ffff)),
    (b"000041", Some(0x41)),
    (b"110000", None),
    (b"FFFFFF", None),
    (b"", None),
    (b"041", None),
    (b"0000041", None),
    (b"004G", None),
    (b" 0041", None),
    (b"+041", None),
];

#[test]
fn code_points_that_are_read(rt: HostRuntime) {
    for (field, number) in &CODE_POINTS {
        assert!(rt; hex(field).map(|c| c.number()) == *number, "{field:?}");
    }
}

/// Whether a code point is written in these digits, behind what was there.
fn is_written(alloc: Global, number: u32, digits: &[u8]) -> Result<bool, Memory> {
    let mut text = Text::new(alloc);
    text.append(b"U+")?;
    let Some(c) = Point::new(number) else {
        return Ok(false);
    };
    put_hex(c, &mut text)?;
    Ok(text.as_slice().strip_prefix(b"U+") == Some(digits))
}

/// Code points, and the digits that they are written in.
const DIGITS: [(u32, &[u8]); 8] = [
    (0, b"0000"),
    (0x41, b"0041"),
    (0xabcd, b"ABCD"),
    (0xffff, b"FFFF"),
    (0x1_0000, b"10000"),
    (0xf_ffff, b"FFFFF"),
    (0x10_0000, b"100000"),
    (0x10_ffff, b"10FFFF"),
];

#[test]
fn code_points_that_are_written(rt: HostRuntime) {
    for (number, digits) in &DIGITS {
        assert!(rt;
            is_written(rt.alloc(), *number, digits) == Ok(true),
            "{digits:?}"
        );
    }
}
