//! Worked expansions, over a view that lists a few rows of the Unicode Character Database.

use crate::facts::{
    Answer, CANONICAL, COMPAT, HANGUL, Row, is_answer, listed, point, put, repeated,
};
use decomposition::expand;
use std::alloc::Global;
use ucd_model::{Bad, FactList, FactView, Memory};

/// Letters of UnicodeData.txt.
const LETTERS: [Row<'static>; 6] = [
    (0x00E7, 0, CANONICAL, &[0x0063, 0x0327]),
    (0x1E09, 0, CANONICAL, &[0x00E7, 0x0301]),
    (0x212B, 0, CANONICAL, &[0x00C5]),
    (0x00C5, 0, CANONICAL, &[0x0041, 0x030A]),
    (0x0132, 0, COMPAT, &[0x0049, 0x004A]),
    (0x01C4, 0, COMPAT, &[0x0044, 0x017D]),
];

/// Whether an expansion is one by compatibility mappings too, the code point, and the answer: its expansion, or the rule
/// that it breaks.
type Case = (bool, u32, Answer);

const LETTER_CASES: [Case; 6] = [
    (false, 0x1E09, Ok(&[0x0063, 0x0327, 0x0301])),
    (false, 0x212B, Ok(&[0x0041, 0x030A])),
    (true, 0x1E09, Ok(&[0x0063, 0x0327, 0x0301])),
    (false, 0x0061, Ok(&[0x0061])),
    // compatibility mappings count for their expansion alone
    (false, 0x0132, Ok(&[0x0132])),
    (true, 0x0132, Ok(&[0x0049, 0x004A])),
];

const HANGUL_CASES: [Case; 1] = [(false, 0xAC01, Ok(&[0x1100, 0x1161, 0x11A8]))];

const SEVEN_CASES: [Case; 3] = [
    (false, 0x1000, Ok(&[0x1007])),
    (true, 0x1000, Err(Bad::V2)),
    (true, 0x1001, Ok(&[0x0061])),
];

const EIGHT_CASES: [Case; 2] = [
    (false, 0x1000, Err(Bad::V2)),
    (false, 0x1001, Ok(&[0x1008])),
];

const CYCLE: [Row<'static>; 2] = [
    (0x1000, 0, CANONICAL, &[0x0061, 0x1001]),
    (0x1001, 0, CANONICAL, &[0x1000]),
];

const CYCLE_CASES: [Case; 2] = [(false, 0x1000, Err(Bad::V2)), (false, 0x1001, Err(Bad::V2))];

const LONG_CASES: [Case; 2] = [(true, 0x2000, Err(Bad::V3)), (false, 0x2000, Ok(&[0x2000]))];

fn is_answered<W: FactView>(alloc: Global, view: &W, case: &Case) -> bool {
    is_answer(expand(alloc, view, case.0, point(case.1)), &case.2)
}

/// Whether each answer is the wanted one.
fn are_answered<W: FactView>(alloc: Global, view: &W, cases: &[Case]) -> bool {
    for case in cases {
        if !is_answered(alloc, view, case) {
            return false;
        }
    }
    true
}

/// Whether each expansion, or the rule that it breaks, is the wanted one, by the facts of these rows.
fn rows_are_answered(alloc: Global, rows: &[Row<'_>], cases: &[Case]) -> bool {
    match listed(alloc, rows) {
        Ok(list) => are_answered(alloc, &list, cases),
        Err(Memory) => false,
    }
}

fn letters_are_answered(alloc: Global) -> bool {
    rows_are_answered(alloc, &LETTERS, &LETTER_CASES)
}

fn syllables_are_answered(alloc: Global) -> bool {
    rows_are_answered(alloc, &HANGUL, &HANGUL_CASES)
}

#[test]
fn members_are_expanded_in_turn(rt: HostRuntime) {
    assert!(rt; letters_are_answered(rt.alloc()) && syllables_are_answered(rt.alloc()));
}

/// Puts 1000, which begins a chain of canonical mappings, each to the next code point; the last of these has a
/// compatibility mapping to 0061.
fn put_chain(alloc: Global, list: &mut FactList, links: u8) -> Result<(), Memory> {
    for at in 0..links {
        let c = 0x1000 + at as u32;
        put(alloc, list, (c, 0, CANONICAL, &[c + 1]))?;
    }
    put(alloc, list, (0x1000 + links as u32, 0, COMPAT, &[0x0061]))
}

fn chain(alloc: Global, links: u8) -> Result<FactList, Memory> {
    let mut list = FactList::new(alloc);
    put_chain(alloc, &mut list, links)?;
    Ok(list)
}

fn chain_is_answered(alloc: Global, links: u8, cases: &[Case]) -> bool {
    match chain(alloc, links) {
        Ok(list) => are_answered(alloc, &list, cases),
        Err(Memory) => false,
    }
}

fn chains_are_answered(alloc: Global) -> bool {
    chain_is_answered(alloc, 7, &SEVEN_CASES) && chain_is_answered(alloc, 8, &EIGHT_CASES)
}

fn cycle_is_answered(alloc: Global) -> bool {
    rows_are_answered(alloc, &CYCLE, &CYCLE_CASES)
}

#[test]
fn a_chain_has_at_most_seven_mappings(rt: HostRuntime) {
    assert!(rt; chains_are_answered(rt.alloc()) && cycle_is_answered(rt.alloc()));
}

const TWO: [Row<'static>; 1] = [(0x1000, 0, COMPAT, &[0x0061, 0x0062])];

/// Puts 2000, which maps to 1000 this many times.
fn put_times(alloc: Global, list: &mut FactList, times: u32) -> Result<(), Memory> {
    let mapping = repeated(alloc, 0x1000, times)?;
    put(alloc, list, (0x2000, 0, COMPAT, mapping.as_slice()))
}

fn two(alloc: Global) -> Result<FactList, Memory> {
    listed(alloc, &TWO)
}

/// A list in which 2000 maps to 1000 this many times, and 1000 maps to two code points.
fn doubled(alloc: Global, times: u32) -> Result<FactList, Memory> {
    let mut list = two(alloc)?;
    put_times(alloc, &mut list, times)?;
    Ok(list)
}

/// Whether the expansion of 2000 has as many code points as there may be.
fn is_full<W: FactView>(alloc: Global, view: &W) -> bool {
    match expand(alloc, view, true, point(0x2000)) {
        Ok(found) => found.len() == 64,
        Err(_) => false,
    }
}

fn doubled_is_full(alloc: Global) -> bool {
    match doubled(alloc, 32) {
        Ok(list) => is_full(alloc, &list),
        Err(Memory) => false,
    }
}

fn more_are_answered(alloc: Global) -> bool {
    match doubled(alloc, 33) {
        Ok(list) => are_answered(alloc, &list, &LONG_CASES),
        Err(Memory) => false,
    }
}

#[test]
fn an_expansion_has_at_most_64_points(rt: HostRuntime) {
    assert!(rt; doubled_is_full(rt.alloc()) && more_are_answered(rt.alloc()));
}

const BEFORE_CASES: [Case; 1] = [(true, 0x3000, Err(Bad::V3))];

const AFTER_CASES: [Case; 1] = [(true, 0x3000, Err(Bad::V2))];

/// A list in which 3000 has a mapping that is too long.
fn long(alloc: Global) -> Result<FactList, Memory> {
    let mut list = doubled(alloc, 64)?;
    put(alloc, &mut list, (0x3000, 0, COMPAT, &[0x2000, 0x3001]))?;
    Ok(list)
}

/// A list in which 3000 has a mapping that is too long, and a member of that mapping has an endless one.
fn endless(alloc: Global) -> Result<FactList, Memory> {
    let mut list = long(alloc)?;
    put(alloc, &mut list, (0x3001, 0, COMPAT, &[0x3001]))?;
    Ok(list)
}

fn long_is_named(alloc: Global) -> bool {
    match long(alloc) {
        Ok(list) => are_answered(alloc, &list, &BEFORE_CASES),
        Err(Memory) => false,
    }
}

fn endless_is_named(alloc: Global) -> bool {
    match endless(alloc) {
        Ok(list) => are_answered(alloc, &list, &AFTER_CASES),
        Err(Memory) => false,
    }
}

#[test]
fn a_long_chain_is_named_before_a_long_expansion(rt: HostRuntime) {
    assert!(rt; long_is_named(rt.alloc()) && endless_is_named(rt.alloc()));
}
