//! Worked normalisation forms, over a view that lists a few rows of the Unicode Character Database.

use crate::facts::{
    Answer, CANONICAL, COMPAT, HANGUL, PLAIN, Row, are, is_answer, listed, points, put, repeated,
};
use normalisation::{compose, nfc, nfd, nfkc, nfkd, order};
use std::alloc::Global;
use ucd_model::{Bad, FactList, FactView, Form, FormStop, Memory, Point, Points};

/// Marks of four classes, and the letter c with them.
const MARKS: [Row<'static>; 6] = [
    (0x0300, 230, PLAIN, &[]),
    (0x0301, 230, PLAIN, &[]),
    (0x0327, 202, PLAIN, &[]),
    (0x00E7, 0, CANONICAL, &[0x0063, 0x0327]),
    (0x1E09, 0, CANONICAL, &[0x00E7, 0x0301]),
    (0x0107, 0, CANONICAL, &[0x0063, 0x0301]),
];

/// The letters of the figures of UAX #15, section 1.2.
const LETTERS: [Row<'static>; 12] = [
    (0x0307, 230, PLAIN, &[]),
    (0x030A, 230, PLAIN, &[]),
    (0x0323, 220, PLAIN, &[]),
    (0x00C5, 0, CANONICAL, &[0x0041, 0x030A]),
    (0x212B, 0, CANONICAL, &[0x00C5]),
    (0x1E0B, 0, CANONICAL, &[0x0064, 0x0307]),
    (0x1E0D, 0, CANONICAL, &[0x0064, 0x0323]),
    (0x1E63, 0, CANONICAL, &[0x0073, 0x0323]),
    (0x1E69, 0, CANONICAL, &[0x1E63, 0x0307]),
    (0x1E9B, 0, CANONICAL, &[0x017F, 0x0307]),
    (0x017F, 0, COMPAT, &[0x0073]),
    (0xFB01, 0, COMPAT, &[0x0066, 0x0069]),
];

/// A form, a list, and the form of the list or the rule that stands in its place.
type Case = (Form, &'static [u32], Answer);

const MARK_CASES: [Case; 9] = [
    // marks are put in order and composed, in the forms of compatibility too
    (Form::Nfd, &[0x63, 0x301, 0x327], Ok(&[0x63, 0x327, 0x301])),
    (Form::Nfkd, &[0x63, 0x301, 0x327], Ok(&[0x63, 0x327, 0x301])),
    (Form::Nfc, &[0x63, 0x301, 0x327], Ok(&[0x1E09])),
    (Form::Nfkc, &[0x63, 0x301, 0x327], Ok(&[0x1E09])),
    (Form::Nfc, &[0xE7, 0x327, 0x301], Ok(&[0x1E09, 0x327])),
    (Form::Nfkc, &[0xE7, 0x327, 0x301], Ok(&[0x1E09, 0x327])),
    // a mark is blocked by one of its class, and by a starter
    (Form::Nfc, &[0xE7, 0x300, 0x301], Ok(&[0xE7, 0x300, 0x301])),
    (Form::Nfkc, &[0xE7, 0x300, 0x301], Ok(&[0xE7, 0x300, 0x301])),
    (Form::Nfc, &[0x63, 0x62, 0x327], Ok(&[0x63, 0x62, 0x327])),
];

const HANGUL_CASES: [Case; 2] = [
    (Form::Nfd, &[0xAC01], Ok(&[0x1100, 0x1161, 0x11A8])),
    (Form::Nfc, &[0x1100, 0x1161, 0x11A8], Ok(&[0xAC01])),
];

const LETTER_CASES: [Case; 8] = [
    // the four forms of a long s with two dots
    (Form::Nfd, &[0x1E9B, 0x323], Ok(&[0x17F, 0x323, 0x307])),
    (Form::Nfc, &[0x1E9B, 0x323], Ok(&[0x1E9B, 0x323])),
    (Form::Nfkd, &[0x1E9B, 0x323], Ok(&[0x73, 0x323, 0x307])),
    (Form::Nfkc, &[0x1E9B, 0x323], Ok(&[0x1E69])),
    // a singleton is not composed, and a ligature is undone only for compatibility
    (Form::Nfc, &[0x212B], Ok(&[0xC5])),
    (Form::Nfc, &[0x1E0B, 0x323], Ok(&[0x1E0D, 0x307])),
    (Form::Nfc, &[0xFB01], Ok(&[0xFB01])),
    (Form::Nfkc, &[0xFB01], Ok(&[0x66, 0x69])),
];

fn formed<W: FactView>(
    alloc: Global,
    view: &W,
    form: Form,
    s: &[Point],
) -> Result<Points, FormStop> {
    match form {
        Form::Nfd => nfd(alloc, view, s),
        Form::Nfc => nfc(alloc, view, s),
        Form::Nfkd => nfkd(alloc, view, s),
        Form::Nfkc => nfkc(alloc, view, s),
    }
}

/// Whether the form is the wanted one.
fn is_form<W: FactView>(alloc: Global, view: &W, case: &Case) -> bool {
    match points(alloc, case.1) {
        Ok(s) => is_answer(formed(alloc, view, case.0, s.as_slice()), &case.2),
        Err(Memory) => false,
    }
}

fn are_forms<W: FactView>(alloc: Global, view: &W, cases: &[Case]) -> bool {
    for case in cases {
        if !is_form(alloc, view, case) {
            return false;
        }
    }
    true
}

/// Whether each form of a list of rows is the wanted one.
fn rows_have_forms(alloc: Global, rows: &[Row<'_>], cases: &[Case]) -> bool {
    match listed(alloc, rows) {
        Ok(list) => are_forms(alloc, &list, cases),
        Err(Memory) => false,
    }
}

fn marks_have_forms(alloc: Global) -> bool {
    rows_have_forms(alloc, &MARKS, &MARK_CASES)
}

fn syllables_have_forms(alloc: Global) -> bool {
    rows_have_forms(alloc, &HANGUL, &HANGUL_CASES)
}

fn letters_have_forms(alloc: Global) -> bool {
    rows_have_forms(alloc, &LETTERS, &LETTER_CASES)
}

#[test]
fn lists_have_their_forms(rt: HostRuntime) {
    let alloc = rt.alloc();
    assert!(rt;
        marks_have_forms(alloc) && syllables_have_forms(alloc) && letters_have_forms(alloc)
    );
}

fn is_ordered<W: FactView>(alloc: Global, view: &W, s: &[u32], wanted: &[u32]) -> bool {
    match points(alloc, s) {
        Ok(mut s) => {
            order(view, &mut s);
            are(s.as_slice(), wanted)
        }
        Err(Memory) => false,
    }
}

fn is_composed<W: FactView>(alloc: Global, view: &W, s: &[u32], wanted: &[u32]) -> bool {
    match points(alloc, s) {
        Ok(mut s) => {
            compose(view, &mut s);
            are(s.as_slice(), wanted)
        }
        Err(Memory) => false,
    }
}

/// Marks of equal and of lesser classes, and in order.
const UNORDERED: [u32; 3] = [0x0301, 0x0300, 0x0327];

const ORDERED: [u32; 3] = [0x0327, 0x0301, 0x0300];

/// A letter with marks that are not in order.
const UNCOMPOSED: [u32; 3] = [0x0063, 0x0300, 0x0327];

fn are_put_in_place<W: FactView>(alloc: Global, view: &W) -> bool {
    is_ordered(alloc, view, &UNORDERED, &ORDERED)
        && is_composed(alloc, view, &UNCOMPOSED, &UNCOMPOSED)
}

fn marks_are_put_in_place(alloc: Global) -> bool {
    match listed(alloc, &MARKS) {
        Ok(list) => are_put_in_place(alloc, &list),
        Err(Memory) => false,
    }
}

#[test]
fn lists_are_put_in_order_and_composed_in_place(rt: HostRuntime) {
    assert!(rt; marks_are_put_in_place(rt.alloc()));
}

const ENDLESS: [Row<'static>; 1] = [(0x1000, 0, CANONICAL, &[0x1000])];

/// Puts a code point that is mapped to 65 times 0061.
fn put_long(alloc: Global, list: &mut FactList) -> Result<(), Memory> {
    let mapping = repeated(alloc, 0x0061, 65)?;
    put(alloc, list, (0x2000, 0, COMPAT, mapping.as_slice()))
}

/// A list in which 1000 is mapped to itself, and 2000 to 65 times 0061.
fn broken(alloc: Global) -> Result<FactList, Memory> {
    let mut list = listed(alloc, &ENDLESS)?;
    put_long(alloc, &mut list)?;
    Ok(list)
}

const RULE_CASES: [Case; 3] = [
    (Form::Nfkd, &[0x0061, 0x2000, 0x1000], Err(Bad::V3)),
    (Form::Nfkc, &[0x1000, 0x2000], Err(Bad::V2)),
    (Form::Nfc, &[0x0061, 0x2000], Ok(&[0x0061, 0x2000])),
];

fn rules_are_told(alloc: Global) -> bool {
    match broken(alloc) {
        Ok(list) => are_forms(alloc, &list, &RULE_CASES),
        Err(Memory) => false,
    }
}

#[test]
fn the_rule_of_the_first_member_is_named(rt: HostRuntime) {
    assert!(rt; rules_are_told(rt.alloc()));
}
