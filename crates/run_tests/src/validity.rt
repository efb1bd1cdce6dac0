//! Releases whose files load and whose code points break a rule.

use crate::runs::{SUMMARY, derives, ends, shelf_of};
use std::alloc::Global;
use std::test::Fail;
use ucd_model::{Memory, Text};
use ucdshop_core::Status;

const GRAVE: &[u8] =
    b"0041;LATIN CAPITAL LETTER A;Lu;0;L;;;;;N;;;;;\n00C0;LATIN CAPITAL LETTER A WITH GRAVE;Lu;0;L;0041 0300;;;;N;;;;;\n";

const MARK: &[u8] = b"0300;COMBINING GRAVE ACCENT;Mn;230;NSM;;;;;N;;;;;\n";

/// A mark and more rows behind a letter and its composite, and the line that refuses them, if one does.
const CASES: [(&[u8], &[u8], &[u8]); 7] = [
    // a member of the mapping has no row
    (b"", b"", b"refused: d point 00C0 V1\n"),
    // and so has what a simple case mapping gives
    (
        MARK,
        b"1E00;X;Lu;0;L;;;;;N;;;;1E01;\n",
        b"refused: d point 1E00 V1\n",
    ),
    // the point alone is not looked at
    (MARK, b"1E00;X;Lu;0;L;;;;;N;;;;1E00;\n", b""),
    (
        MARK,
        b"1000;X;Lo;0;L;1001;;;;N;;;;;\n1001;Y;Lo;0;L;1000;;;;N;;;;;\n",
        b"refused: d point 1000 V2\n",
    ),
    (
        b"00C1;X;Lu;0;L;0041 0300;;;;N;;;;;\n0300;COMBINING GRAVE ACCENT;Mn;230;NSM;;;;;N;;;;;\n",
        b"",
        b"refused: d point 00C1 V4\n",
    ),
    // a lesser point breaks a later rule than a greater one
    (
        MARK,
        b"1000;X;Lu;0;L;0041 0300;;;;N;;;;;\n1001;Y;Lo;0;L;2000;;;;N;;;;;\n",
        b"refused: d point 1000 V4\n",
    ),
    // a fault of a file comes first
    (
        MARK,
        b"1000;X;Lu;0;L;0041 0300;;;;N;;;;;\n1000;X;Lu;0;L;;;;;N;;;;;\n",
        b"refused: d/UnicodeData.txt line 5 K1\n",
    ),
];

/// Whether a release with these rows is refused by this line; by none if it is empty.
fn is_judged(alloc: Global, data: &[u8], line: &[u8]) -> Result<bool, Memory> {
    let mut shelf = shelf_of(alloc, data, b"")?;
    let expected = if line.is_empty() {
        (Status::Clean, SUMMARY)
    } else {
        (Status::LoadRefused, line)
    };
    ends(alloc, &[b"derive", b"d", b"o"], &mut shelf, 1000, expected)
}

/// Whether a release with the rows of a letter and its composite, and with a mark and more rows behind them, is refused by
/// this line; by none if it is empty.
fn are_judged(alloc: Global, mark: &[u8], more: &[u8], line: &[u8]) -> Result<bool, Memory> {
    let mut data = Text::new(alloc);
    put_all(&mut data, &[GRAVE, mark, more])?;
    is_judged(alloc, data.as_slice(), line)
}

fn put_all(text: &mut Text, parts: &[&[u8]]) -> Result<(), Memory> {
    for part in parts {
        text.append(part)?;
    }
    Ok(())
}

#[test]
fn the_least_point_is_refused_by_its_first_rule(rt: HostRuntime) -> Result<(), Fail> {
    for (mark, more, line) in &CASES {
        assert!(rt; are_judged(rt.alloc(), mark, more, line)?);
    }
    Ok(())
}

/// A letter, its composite with a mark, the mark, and a code point of 64 members that expand to two each.
///
/// - `Memory`: memory ran out.
fn put_long(data: &mut Text) -> Result<(), Memory> {
    put_all(data, &[GRAVE, MARK, b"1000;X;So;0;L;<compat>"])?;
    for _ in 0..64 {
        data.append(b" 00C0")?;
    }
    data.append(b";;;;N;;;;;\n")
}

/// Whether a release is refused by this line, and nothing is written.
fn is_refused(alloc: Global, data: &[u8], line: &[u8]) -> Result<bool, Memory> {
    let mut shelf = shelf_of(alloc, data, b"")?;
    let expected = (Status::LoadRefused, line, b"old".as_slice());
    derives(alloc, &mut shelf, 1000, expected)
}

fn a_long_one_is_refused(alloc: Global) -> Result<bool, Memory> {
    let mut data = Text::new(alloc);
    put_long(&mut data)?;
    is_refused(alloc, data.as_slice(), b"refused: d point 1000 V3\n")
}

#[test]
fn a_long_expansion_is_refused(rt: HostRuntime) -> Result<(), Fail> {
    assert!(rt; a_long_one_is_refused(rt.alloc())?);
    Ok(())
}

/// Code points, each one behind the one before.
const LINKS: [&[u8]; 9] = [
    b"0FFF", b"1000", b"1001", b"1002", b"1003", b"1004", b"1005", b"1006", b"1007",
];

/// Puts the row of a code point that maps to 64 times another one.
///
/// - `Memory`: memory ran out.
fn put_link(data: &mut Text, link: &[u8], next: &[u8]) -> Result<(), Memory> {
    put_all(data, &[link, b";X;So;0;L;<compat>"])?;
    for _ in 0..64 {
        put_all(data, &[b" ", next])?;
    }
    data.append(b";;;;N;;;;;\n")
}

/// The rows of the links from a place on, each of which maps to 64 times the next one, and that of the last one.
///
/// - `Memory`: memory ran out.
fn put_links(data: &mut Text, from: usize) -> Result<(), Memory> {
    for at in from..8 {
        put_link(data, LINKS[at], LINKS[at + 1])?;
    }
    data.append(b"1007;X;So;0;L;;;;;N;;;;;\n")
}

fn links_are_refused(alloc: Global, from: usize, line: &[u8]) -> Result<bool, Memory> {
    let mut data = Text::new(alloc);
    put_links(&mut data, from)?;
    is_refused(alloc, data.as_slice(), line)
}

/// A walk through each branch would take 64 to the power of 7 steps, and of 8.
#[test]
fn expansions_of_many_branches_are_refused(rt: HostRuntime) -> Result<(), Fail> {
    assert!(rt; links_are_refused(rt.alloc(), 1, b"refused: d point 1000 V3\n")?);
    assert!(rt; links_are_refused(rt.alloc(), 0, b"refused: d point 0FFF V2\n")?);
    Ok(())
}
