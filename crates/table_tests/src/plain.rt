//! What tests of tables and stores share: spans, and one comparison.

use std::process::Abort;
use ucd_facts::{Point, Span};

/// Stops unless these two are seen at a number. One function for all tests keeps each of them small.
pub fn expect(rt: &impl Abort, number: u32, seen: Option<(u64, u64)>, expected: (u64, u64)) {
    assert_eq!(rt; (number, seen), (number, Some(expected)));
}

/// The span from one number to another: if that is less, of the first number alone.
pub fn span(lo: u32, hi: u32) -> Span {
    let (lo, hi) = (point(lo), point(hi));
    match Span::new(lo, hi) {
        Some(span) => span,
        None => Span::one(lo),
    }
}

fn point(number: u32) -> Point {
    Point::at(number.min(0x10_FFFF))
}
