//! Worked quick checks, over a view that lists a few rows of the Unicode Character Database.

use crate::facts::{CANONICAL, COMPAT, FoldedRow, HANGUL, PLAIN, Row, facts_of, listed, point};
use quick_checks::{full_exclusion, quick, quick_composed, quick_decomposed};
use std::alloc::Global;
use ucd_model::{Bad, Category, FactList, FactView, Form, FormStop, Memory, Point, Quick};

/// A letter with a mark, the marks, and a ligature.
const LETTERS: [Row<'static>; 5] = [
    (0x0300, 230, PLAIN, &[]),
    (0x0340, 230, CANONICAL, &[0x0300]),
    (0x0344, 230, CANONICAL, &[0x0308, 0x0301]),
    (0x00C0, 0, CANONICAL, &[0x0041, 0x0300]),
    (0xFB01, 0, COMPAT, &[0x0066, 0x0069]),
];

/// A code point, and its quick checks of the forms D, C, KD and KC.
type Case = (u32, [Quick; 4]);

const LETTER_CASES: [Case; 5] = [
    (0x0041, [Quick::Yes, Quick::Yes, Quick::Yes, Quick::Yes]),
    (0x00C0, [Quick::No, Quick::Yes, Quick::No, Quick::Yes]),
    (0x0300, [Quick::Yes, Quick::Maybe, Quick::Yes, Quick::Maybe]),
    (0x0340, [Quick::No, Quick::No, Quick::No, Quick::No]),
    (0xFB01, [Quick::Yes, Quick::Yes, Quick::No, Quick::No]),
];

const HANGUL_CASES: [Case; 3] = [
    (0xAC01, [Quick::No, Quick::Yes, Quick::No, Quick::Yes]),
    (0x11A8, [Quick::Yes, Quick::Maybe, Quick::Yes, Quick::Maybe]),
    (0x1100, [Quick::Yes, Quick::Yes, Quick::Yes, Quick::Yes]),
];

/// Whether a quick check is the wanted one, or the rule that stands in its place.
fn is_check<W: FactView>(
    alloc: Global,
    view: &W,
    form: Form,
    c: u32,
    wanted: Result<Quick, Bad>,
) -> bool {
    match (quick(alloc, view, form, point(c)), wanted) {
        (Ok(found), Ok(wanted)) => found == wanted,
        (Err(FormStop::Bad(found)), Err(wanted)) => found == wanted,
        _ => false,
    }
}

/// Whether the quick checks of a code point are the wanted ones.
fn is_checked<W: FactView>(alloc: Global, view: &W, case: &Case) -> bool {
    let (c, [nfd, nfc, nfkd, nfkc]) = *case;
    is_check(alloc, view, Form::Nfd, c, Ok(nfd))
        && is_check(alloc, view, Form::Nfc, c, Ok(nfc))
        && is_check(alloc, view, Form::Nfkd, c, Ok(nfkd))
        && is_check(alloc, view, Form::Nfkc, c, Ok(nfkc))
}

fn are_checked<W: FactView>(alloc: Global, view: &W, cases: &[Case]) -> bool {
    for case in cases {
        if !is_checked(alloc, view, case) {
            return false;
        }
    }
    true
}

/// Whether the quick checks of each code point are the wanted ones, by the facts of these rows.
fn rows_are_checked(alloc: Global, rows: &[Row<'_>], cases: &[Case]) -> bool {
    match listed(alloc, rows) {
        Ok(list) => are_checked(alloc, &list, cases),
        Err(Memory) => false,
    }
}

fn letters_are_checked(alloc: Global) -> bool {
    rows_are_checked(alloc, &LETTERS, &LETTER_CASES)
}

fn syllables_are_checked(alloc: Global) -> bool {
    rows_are_checked(alloc, &HANGUL, &HANGUL_CASES)
}

#[test]
fn letters_and_syllables_are_checked(rt: HostRuntime) {
    assert!(rt; letters_are_checked(rt.alloc()) && syllables_are_checked(rt.alloc()));
}

fn letters(alloc: Global) -> Result<FactList, Memory> {
    listed(alloc, &LETTERS)
}

/// A letter with a mark that CompositionExclusions.txt lists.
const EXCLUDED: FoldedRow<'static> = (0x0958, Category::Lo, 0, CANONICAL, &[0x0915, 0x093C], &[]);

fn put_excluded(alloc: Global, list: &mut FactList) -> Result<(), Memory> {
    let mut facts = facts_of(alloc, EXCLUDED)?;
    facts.excluded = true;
    list.push((point(EXCLUDED.0), facts))
}

/// Code points, and whether they are excluded.
const EXCLUSIONS: [(u32, bool); 6] = [
    (0x00C0, false),
    (0x0300, false),
    (0x0340, true),
    (0x0344, true),
    (0x0958, true),
    (0xFB01, false),
];

fn are_excluded<W: FactView>(view: &W) -> bool {
    for (c, wanted) in &EXCLUSIONS {
        if full_exclusion(view, point(*c)) != *wanted {
            return false;
        }
    }
    true
}

fn is_listed_excluded<W: FactView>(alloc: Global, view: &W) -> bool {
    are_excluded(view)
        && is_check(alloc, view, Form::Nfc, 0x0958, Ok(Quick::No))
        && is_check(alloc, view, Form::Nfc, 0x093C, Ok(Quick::Yes))
}

fn letters_and_excluded(alloc: Global) -> Result<FactList, Memory> {
    let mut list = letters(alloc)?;
    put_excluded(alloc, &mut list)?;
    Ok(list)
}

fn excluded_are_told(alloc: Global) -> bool {
    match letters_and_excluded(alloc) {
        Ok(list) => is_listed_excluded(alloc, &list),
        Err(Memory) => false,
    }
}

#[test]
fn singletons_marks_and_listed_letters_are_excluded(rt: HostRuntime) {
    assert!(rt; excluded_are_told(rt.alloc()));
}

/// Whether forms that are known are checked.
fn known_are_checked<W: FactView>(view: &W, mark: Point) -> bool {
    quick_composed(view, mark, &[mark]) == Quick::Maybe
        && quick_composed(view, mark, &[mark, mark]) == Quick::No
        && quick_decomposed(COMPAT, false) == Quick::Yes
        && quick_decomposed(COMPAT, true) == Quick::No
        && quick_decomposed(CANONICAL, false) == Quick::No
}

fn known_of_letters_are_checked(alloc: Global) -> bool {
    match letters(alloc) {
        Ok(list) => known_are_checked(&list, point(0x0300)),
        Err(Memory) => false,
    }
}

#[test]
fn forms_that_are_known_are_checked(rt: HostRuntime) {
    assert!(rt; known_of_letters_are_checked(rt.alloc()));
}

const ENDLESS: [Row<'static>; 2] = [
    (0x1000, 0, CANONICAL, &[0x1000]),
    (0x2000, 0, COMPAT, &[0x2000]),
];

/// Forms and code points, with their quick checks or the rules that stand in their place.
const RULES: [(Form, u32, Result<Quick, Bad>); 6] = [
    (Form::Nfd, 0x1000, Err(Bad::V2)),
    (Form::Nfc, 0x1000, Err(Bad::V2)),
    (Form::Nfkd, 0x1000, Err(Bad::V2)),
    (Form::Nfkc, 0x1000, Err(Bad::V2)),
    (Form::Nfc, 0x2000, Ok(Quick::Yes)),
    (Form::Nfkd, 0x2000, Err(Bad::V2)),
];

fn rules_are_told<W: FactView>(alloc: Global, view: &W) -> bool {
    for (form, c, wanted) in &RULES {
        if !is_check(alloc, view, *form, *c, *wanted) {
            return false;
        }
    }
    true
}

fn endless_are_told(alloc: Global) -> bool {
    match listed(alloc, &ENDLESS) {
        Ok(list) => rules_are_told(alloc, &list),
        Err(Memory) => false,
    }
}

#[test]
fn an_endless_mapping_has_no_quick_check(rt: HostRuntime) {
    assert!(rt; endless_are_told(rt.alloc()));
}
