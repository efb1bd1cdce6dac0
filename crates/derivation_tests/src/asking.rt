//! What the derivations of a small release ask, worked by hand after UAX #15.

ghost use Rattle.std.specs.Prelude.{◌≡◌};

use crate::facts::{CANONICAL, COMPAT, FoldedRow, PLAIN, listed_folded, point};
use point_queries::{Derived, derive_point};
use std::alloc::Global;
use std::marker::Brand;
use std::sync::ledger::{Blank, Ledger};
use ucd_model::{Category, FactView, FormStop, Memory, Point, Queries, Query, Steps};

/// A letter, a mark, and a compatibility character of the two.
const BEFORE: [FoldedRow<'static>; 3] = [
    (0x0061, Category::Ll, 0, PLAIN, &[], &[]),
    (0x0300, Category::Mn, 230, PLAIN, &[], &[]),
    (0xFB00, Category::Lo, 0, COMPAT, &[0x0061, 0x0300], &[]),
];

/// A letter, a mark, a compatibility character of the two, and their composite, which is folded to the letter.
const AFTER: [FoldedRow<'static>; 4] = [
    (0x0061, Category::Ll, 0, PLAIN, &[], &[]),
    (0x0300, Category::Mn, 230, PLAIN, &[], &[]),
    (0xFB00, Category::Lo, 0, COMPAT, &[0x0061, 0x0300], &[]),
    (
        0x00E0,
        Category::Ll,
        0,
        CANONICAL,
        &[0x0061, 0x0300],
        &[0x0061],
    ),
];

/// What the derivation of a code point asks, counted on a ledger.
fn counted<W: FactView, L: Ledger>(
    alloc: Global,
    view: &W,
    c: Point,
    blank: Blank,
) -> Result<Queries, FormStop>
    requires name { blank.name ≡ L.name }
    requires parts { blank.parts ≡ L.parts }
    requires some { blank.parts ≡ 1 }
{
    let mut steps = Steps::<L>::new(blank);
    let Derived { value: _, asked } = derive_point(alloc, view, c, &mut steps)?;
    Ok(asked)
}

/// What the derivation of a code point asks.
fn asked<W: FactView>(alloc: Global, view: &W, c: Point) -> Result<Queries, FormStop> {
    counted::<W, Brand>(alloc, view, c, Blank::new(1))
}

/// Whether the derivation of a code point asks just these questions.
pub fn asks<W: FactView>(alloc: Global, view: &W, c: Point, wanted: &[Query]) -> bool {
    match asked(alloc, view, c) {
        Ok(asked) => asked.as_slice() == wanted,
        Err(_) => false,
    }
}

/// What FB00 asks while the letter and the mark have no composite.
fn without_composite() -> [Query; 5] {
    let (letter, mark, ligature) = (point(0x0061), point(0x0300), point(0xFB00));
    [
        Query::Row(letter),
        Query::Row(mark),
        Query::Row(ligature),
        Query::Pair(letter, mark),
        Query::Second(ligature),
    ]
}

/// What FB00 asks once they have.
fn with_composite() -> [Query; 6] {
    let (letter, mark, ligature) = (point(0x0061), point(0x0300), point(0xFB00));
    [
        Query::Row(letter),
        Query::Row(point(0x00E0)),
        Query::Row(mark),
        Query::Row(ligature),
        Query::Pair(letter, mark),
        Query::Second(ligature),
    ]
}

/// Whether the derivation of a code point of these rows asks just these questions.
fn asks_over(alloc: Global, rows: &[FoldedRow<'_>], c: Point, wanted: &[Query]) -> bool {
    match listed_folded(alloc, rows) {
        Ok(list) => asks(alloc, &list, c, wanted),
        Err(Memory) => false,
    }
}

fn letter_asks_its_own(alloc: Global) -> bool {
    let letter = point(0x0061);
    asks_over(
        alloc,
        &BEFORE,
        letter,
        &[Query::Row(letter), Query::Second(letter)],
    )
}

fn ligature_asks_before(alloc: Global) -> bool {
    asks_over(alloc, &BEFORE, point(0xFB00), &without_composite())
}

fn ligature_asks_after(alloc: Global) -> bool {
    asks_over(alloc, &AFTER, point(0xFB00), &with_composite())
}

#[test]
fn a_letter_asks_its_own(rt: HostRuntime) {
    assert!(rt; letter_asks_its_own(rt.alloc()));
}

#[test]
fn a_composite_is_asked_for_and_then_asked(rt: HostRuntime) {
    assert!(rt; ligature_asks_before(rt.alloc()) && ligature_asks_after(rt.alloc()));
}
