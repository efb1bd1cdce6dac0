//! Worked foldings of letters whose simple folding differs from the full one.

use crate::asking::asks;
use crate::facts::{COMPAT, FoldedRow, PLAIN, facts_of, is_image, is_image_answer, point};
use crate::records::record;
use fold_rounds::{nfkc_casefold, nfkc_simple_casefold};
use std::alloc::Global;
use ucd_model::{Category, FactList, FactView, Memory, Query};

/// The capital sharp s, which CaseFolding.txt folds to two letters with status F, and to the small one with status S.
const SHARP: FoldedRow<'static> = (0x1E9E, Category::Lo, 0, PLAIN, &[], &[0x0073, 0x0073]);

/// Puts the facts of a row, with another simple folding, at the end of a list.
fn put_simple(
    alloc: Global,
    list: &mut FactList,
    row: FoldedRow<'_>,
    simple: u32,
) -> Result<(), Memory> {
    let mut facts = facts_of(alloc, row)?;
    facts.simple_fold = point(simple);
    list.push((point(row.0), facts))
}

/// Whether NFKC_Casefold and NFKC_Simple_Casefold of the capital sharp s are two letters and one.
fn sharp_is_folded<W: FactView>(alloc: Global, view: &W) -> bool {
    let c = point(SHARP.0);
    is_image_answer(nfkc_casefold(alloc, view, c), c, &Ok(&[0x0073, 0x0073]))
        && is_image_answer(nfkc_simple_casefold(alloc, view, c), c, &Ok(&[0x00DF]))
}

/// A row, its simple folding, and what the code point is folded to under NFKC, by the full and by the simple folding.
type BothCase = (FoldedRow<'static>, u32, &'static [u32], &'static [u32]);

const LETTER: Category = Category::Lo;

/// Letters that CaseFolding.txt folds with statuses F and S, F alone, S alone, and C.
const FOLDED: [BothCase; 4] = [
    (SHARP, 0x00DF, &[0x0073, 0x0073], &[0x00DF]),
    (
        (0x00DF, LETTER, 0, PLAIN, &[], &[0x0073, 0x0073]),
        0x00DF,
        &[0x0073, 0x0073],
        &[0x00DF],
    ),
    (
        (0x0062, LETTER, 0, PLAIN, &[], &[]),
        0x0061,
        &[0x0062],
        &[0x0061],
    ),
    (
        (0x0041, LETTER, 0, PLAIN, &[], &[0x0061]),
        0x0061,
        &[0x0061],
        &[0x0061],
    ),
];

/// A letter that folds to one with status S alone, two that fold to nothing else, and a compatibility character of the first one.
const OTHERS: [BothCase; 4] = [
    (
        (0x0042, LETTER, 0, PLAIN, &[], &[0x0062]),
        0x0062,
        &[0x0062],
        &[0x0061],
    ),
    (
        (0x0061, LETTER, 0, PLAIN, &[], &[]),
        0x0061,
        &[0x0061],
        &[0x0061],
    ),
    (
        (0x0073, LETTER, 0, PLAIN, &[], &[]),
        0x0073,
        &[0x0073],
        &[0x0073],
    ),
    (
        (0x2000, LETTER, 0, COMPAT, &[0x1E9E], &[]),
        0x2000,
        &[0x0073, 0x0073],
        &[0x00DF],
    ),
];

/// Puts the facts of these letters.
fn put_letters(alloc: Global, list: &mut FactList, cases: &[BothCase]) -> Result<(), Memory> {
    for (row, simple, _, _) in cases {
        put_simple(alloc, list, *row, *simple)?;
    }
    Ok(())
}

fn put_all(alloc: Global, list: &mut FactList) -> Result<(), Memory> {
    put_letters(alloc, list, &FOLDED)?;
    put_others(alloc, list)
}

fn put_others(alloc: Global, list: &mut FactList) -> Result<(), Memory> {
    put_letters(alloc, list, &OTHERS)
}

/// The facts of all these letters.
fn letters(alloc: Global) -> Result<FactList, Memory> {
    let mut list = FactList::new(alloc);
    put_all(alloc, &mut list)?;
    Ok(list)
}

/// The facts of the capital sharp s alone.
fn sharp(alloc: Global) -> Result<FactList, Memory> {
    let mut list = FactList::new(alloc);
    put_simple(alloc, &mut list, SHARP, 0x00DF)?;
    Ok(list)
}

fn sharp_alone_is_folded(alloc: Global) -> bool {
    match sharp(alloc) {
        Ok(list) => sharp_is_folded(alloc, &list),
        Err(Memory) => false,
    }
}

#[test]
fn each_folding_has_its_own_list(rt: HostRuntime) {
    assert!(rt; sharp_alone_is_folded(rt.alloc()));
}

/// Whether the record of a letter has the wanted foldings.
fn has_both<W: FactView>(alloc: Global, view: &W, case: &BothCase) -> bool {
    let c = point(case.0.0);
    match record(alloc, view, c) {
        Ok(found) => {
            is_image(&found.casefold, c, case.2) && is_image(&found.simple_casefold, c, case.3)
        }
        Err(_) => false,
    }
}

/// Whether the records of these letters have them.
fn have_both<W: FactView>(alloc: Global, view: &W, cases: &[BothCase]) -> bool {
    for case in cases {
        if !has_both(alloc, view, case) {
            return false;
        }
    }
    true
}

/// Whether the records of these letters have the wanted foldings, by the facts of all letters.
fn are_folded(alloc: Global, cases: &[BothCase]) -> bool {
    match letters(alloc) {
        Ok(list) => have_both(alloc, &list, cases),
        Err(Memory) => false,
    }
}

fn folded_are_folded(alloc: Global) -> bool {
    are_folded(alloc, &FOLDED)
}

fn others_are_folded(alloc: Global) -> bool {
    are_folded(alloc, &OTHERS)
}

#[test]
fn records_have_both_foldings(rt: HostRuntime) {
    assert!(rt; folded_are_folded(rt.alloc()) && others_are_folded(rt.alloc()));
}

/// What the compatibility character asks: of the members of its full folding, and of that of its simple one.
fn asked_by_both() -> [Query; 6] {
    let (letter, compat) = (point(0x0073), point(0x2000));
    [
        Query::Row(letter),
        Query::Row(point(0x00DF)),
        Query::Row(point(0x1E9E)),
        Query::Row(compat),
        Query::Pair(letter, letter),
        Query::Second(compat),
    ]
}

fn letters_ask(alloc: Global) -> bool {
    match letters(alloc) {
        Ok(list) => asks(alloc, &list, point(0x2000), &asked_by_both()),
        Err(Memory) => false,
    }
}

#[test]
fn both_foldings_ask(rt: HostRuntime) {
    assert!(rt; letters_ask(rt.alloc()));
}
