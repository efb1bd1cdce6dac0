//! Writes code points in hexadecimal digits, and spans of them, and compares texts with these digits.

ghost use Rattle.std.specs.Prelude.{◌≡◌, ◌≤◌, ◌<◌, ◌/◌, ◌%◌, ◌∷◌, ◌++◌, OnOk, OnErr, codes};
ghost use Rattle.std.specs.Cmp.Lexicographic.{slice_cmp};
ghost use Rattle.std.specs.Ordering.{nat_cmp};
ghost use Rattle.ucd_points.specs.HexText.{four_digits, hex_digit, hex_text, span_text};
ghost use Rattle.ucd_lines.specs.Digits.{six_digits};

use std::cmp::Ordering;
use ucd_points::{Memory, Point, Span, Text};

/// Appends the hexadecimal digits of a code point in upper case: at least four, and no more than it needs.
/// UAX #44, section 4.2.
///
/// - `Memory`: memory ran out. The text stays as it was.
#[tactic(auto, unfolding(ucd_points::specs::HexText::hex_text))]
pub fn put_hex(c: Point, into: &mut Text) -> Result<(), Memory>
    ensures ok { OnOk result (into.new ≡ into.old ++ hex_text c) }
    ensures err { OnErr result (into.new ≡ into.old) }
{
    let number = c.number();
    match number {
        ..0x1_0000 => into.append(&four_digits(number)),
        ..0x10_0000 => into.append(&five_digits(number)),
        _ => into.append(&six_digits(number)),
    }
}

/// How a text compares with the hexadecimal digits that [`put_hex`] writes, byte by byte. It takes no memory.
#[tactic(auto, unfolding(ucd_points::specs::HexText::hex_text))]
pub fn compare_hex(text: &[u8], c: Point) -> Ordering
    ensures { result ≡ slice_cmp nat_cmp text.now (hex_text c) }
{
    let number = c.number();
    match number {
        ..0x1_0000 => text.cmp(four_digits(number).as_slice()),
        ..0x10_0000 => text.cmp(five_digits(number).as_slice()),
        _ => text.cmp(six_digits(number).as_slice()),
    }
}

/// Appends a code point, or the first and the last one joined by `..`. UAX #44, section 4.2.
///
/// - `Memory`: memory ran out. A part may then stand at the end of the text.
#[tactic(auto, unfolding(ucd_points::specs::HexText::span_text))]
pub fn put_span(span: Span, into: &mut Text) -> Result<(), Memory>
    ensures { OnOk result (into.new ≡ into.old ++ span_text span) }
{
    if span.first() == span.last() {
        return put_hex(span.lo, into);
    }
    if span.last() < 0x1_0000 {
        return into.append(&four_digit_span(span.first(), span.last()));
    }
    if span.first() >= 0x1_0000 && span.last() < 0x10_0000 {
        return into.append(&five_digit_span(span.first(), span.last()));
    }
    put_hex(span.lo, into)?;
    into.append(b"..")?;
    put_hex(span.hi, into)
}

/// The last four hexadecimal digits of a number.
fn four_digits(number: u32) -> [u8; 4]
    ensures { result ≡ four_digits number }
{
    [
        digit(number / 0x1000 % 16),
        digit(number / 0x100 % 16),
        digit(number / 0x10 % 16),
        digit(number % 16),
    ]
}

/// The last five hexadecimal digits of a number.
fn five_digits(number: u32) -> [u8; 5]
    ensures { result ≡ hex_digit (number / 65536 % 16) ∷ four_digits number }
{
    [
        digit(number / 0x1_0000 % 16),
        digit(number / 0x1000 % 16),
        digit(number / 0x100 % 16),
        digit(number / 0x10 % 16),
        digit(number % 16),
    ]
}

/// The last six hexadecimal digits of a number.
fn six_digits(number: u32) -> [u8; 6]
    ensures { result ≡ six_digits number }
{
    [
        digit(number / 0x10_0000 % 16),
        digit(number / 0x1_0000 % 16),
        digit(number / 0x1000 % 16),
        digit(number / 0x100 % 16),
        digit(number / 0x10 % 16),
        digit(number % 16),
    ]
}

/// The digits of two code points below 10000, joined by `..`.
#[tactic(auto, unfolding(ucd_points::specs::HexText::hex_text))]
fn four_digit_span(first: u32, last: u32) -> [u8; 10]
    requires ordered { first ≤ last }
    requires short { last < 65536 }
    ensures { result ≡ hex_text first ++ codes ".." ++ hex_text last }
{
    [
        digit(first / 0x1000 % 16),
        digit(first / 0x100 % 16),
        digit(first / 0x10 % 16),
        digit(first % 16),
        b'.',
        b'.',
        digit(last / 0x1000 % 16),
        digit(last / 0x100 % 16),
        digit(last / 0x10 % 16),
        digit(last % 16),
    ]
}

/// The digits of two code points from 10000 to before 100000, joined by `..`.
#[tactic(auto, unfolding(ucd_points::specs::HexText::hex_text))]
fn five_digit_span(first: u32, last: u32) -> [u8; 12]
    requires from { 65536 ≤ first }
    requires ordered { first ≤ last }
    requires below { last < 1048576 }
    ensures { result ≡ hex_text first ++ codes ".." ++ hex_text last }
{
    [
        digit(first / 0x1_0000 % 16),
        digit(first / 0x1000 % 16),
        digit(first / 0x100 % 16),
        digit(first / 0x10 % 16),
        digit(first % 16),
        b'.',
        b'.',
        digit(last / 0x1_0000 % 16),
        digit(last / 0x1000 % 16),
        digit(last / 0x100 % 16),
        digit(last / 0x10 % 16),
        digit(last % 16),
    ]
}

/// The hexadecimal digit of a value below 16, in upper case.
fn digit(value: u32) -> u8
    requires { value < 16 }
    ensures { result ≡ hex_digit value }
{
    if value < 10 {
        b'0' + value as u8
    } else {
        b'A' + (value - 10) as u8
    }
}
