//! Worked mappings, over a view that lists a few rows of the Unicode Character Database.

use crate::facts::{FoldedRow, PLAIN, are, facts_of, point, points, put_flagged};
use case_derivation::{Changes, case_ignorable, cased, changes_when, fold, lower, title, upper};
use std::alloc::Global;
use ucd_model::{Category, FactList, FactView, Facts, Flag, Flags, Image, Memory, Point, Points};

/// A code point, its category, and its full mappings: lower, upper, title, and the folding.
type CaseRow = (
    u32,
    Category,
    &'static [u32],
    &'static [u32],
    &'static [u32],
    &'static [u32],
);

/// A capital s, a sharp s, and a small s.
const SHARP: [u32; 3] = [0x53, 0xDF, 0x73];

const BOTH: [u32; 2] = [0x1000, 0x1001];

/// LATIN CAPITAL LETTER S, LATIN SMALL LETTER S, LATIN SMALL LETTER SHARP S, and LATIN CAPITAL LETTER D WITH SMALL
/// LETTER Z WITH CARON.
const LETTERS: [CaseRow; 4] = [
    (
        0x0053,
        Category::Lu,
        &[0x0073],
        &[0x0053],
        &[0x0053],
        &[0x0073],
    ),
    (
        0x0073,
        Category::Ll,
        &[0x0073],
        &[0x0053],
        &[0x0053],
        &[0x0073],
    ),
    (
        0x00DF,
        Category::Ll,
        &[0x00DF],
        &[0x0053, 0x0053],
        &[0x0053, 0x0073],
        &[0x0073, 0x0073],
    ),
    (
        0x01C5,
        Category::Lt,
        &[0x01C6],
        &[0x01C4],
        &[0x01C5],
        &[0x01C6],
    ),
];

/// The full mappings of one list.
#[derive(Clone, Copy)]
enum Mapping {
    Lower,
    Upper,
    Title,
    Fold,
}

/// A mapping, a list, and what it is mapped to.
type MappingCase = (Mapping, &'static [u32], &'static [u32]);

const MAPPING_CASES: [MappingCase; 6] = [
    // a sharp s has two letters in upper case
    (Mapping::Lower, &SHARP, &[0x73, 0xDF, 0x73]),
    (Mapping::Upper, &SHARP, &[0x53, 0x53, 0x53, 0x53]),
    (Mapping::Fold, &SHARP, &[0x73, 0x73, 0x73, 0x73]),
    // only the first cased member of a title is a capital
    (
        Mapping::Title,
        &[0x2E, 0xDF, 0x53],
        &[0x2E, 0x53, 0x73, 0x73],
    ),
    (Mapping::Title, &[0x1C5, 0x53], &[0x1C5, 0x73]),
    (Mapping::Title, &[0x2E, 0x2E], &[0x2E, 0x2E]),
];

/// A list, and what changes of it: lower, upper, title, folding, and one of the first three.
type ChangeCase = (&'static [u32], [bool; 5]);

/// As DerivedCoreProperties.txt lists them.
const CHANGE_CASES: [ChangeCase; 6] = [
    (&[0x0053], [true, false, false, true, true]),
    (&[0x0073], [false, true, true, false, true]),
    (&[0x00DF], [false, true, true, true, true]),
    (&[0x002E], [false; 5]),
    (&[0x002E, 0x0053], [true, false, false, true, true]),
    (&[], [false; 5]),
];

/// 1000 is mapped to nothing and 1001 to both: the joined images are the list, although no image is that of its point.
const CUT_OTHERWISE: [CaseRow; 2] = [
    (0x1000, Category::Lu, &[], &[], &[], &[]),
    (0x1001, Category::Lu, &BOTH, &BOTH, &BOTH, &BOTH),
];

const CUT_CASES: [ChangeCase; 3] = [
    (&[0x1000, 0x1001], [false; 5]),
    (&[0x1000], [true; 5]),
    (&[0x1001], [true; 5]),
];

/// Gives a code point an image.
fn put_image(alloc: Global, image: &mut Image, c: Point, numbers: &[u32]) -> Result<(), Memory> {
    *image = Image::of(c, points(alloc, numbers)?);
    Ok(())
}

fn put_images(alloc: Global, facts: &mut Facts, c: Point, row: &CaseRow) -> Result<(), Memory> {
    put_image(alloc, &mut facts.lower, c, row.2)?;
    put_image(alloc, &mut facts.upper, c, row.3)?;
    put_image(alloc, &mut facts.title, c, row.4)?;
    put_image(alloc, &mut facts.fold, c, row.5)
}

fn put_facts(alloc: Global, facts: &mut Facts, c: Point, row: &CaseRow) -> Result<(), Memory> {
    facts.assigned = true;
    facts.category = row.1;
    put_images(alloc, facts, c, row)
}

fn cased_facts(alloc: Global, c: Point, row: &CaseRow) -> Result<Facts, Memory> {
    let mut facts = Facts::unassigned(alloc, c);
    put_facts(alloc, &mut facts, c, row)?;
    Ok(facts)
}

fn put_cased(alloc: Global, list: &mut FactList, row: &CaseRow) -> Result<(), Memory> {
    let c = point(row.0);
    let facts = cased_facts(alloc, c, row)?;
    list.push((c, facts))
}

fn put_all_cased(alloc: Global, list: &mut FactList, rows: &[CaseRow]) -> Result<(), Memory> {
    for row in rows {
        put_cased(alloc, list, row)?;
    }
    Ok(())
}

fn listed_cased(alloc: Global, rows: &[CaseRow]) -> Result<FactList, Memory> {
    let mut list = FactList::new(alloc);
    put_all_cased(alloc, &mut list, rows)?;
    Ok(list)
}

fn mapped<W: FactView>(
    alloc: Global,
    view: &W,
    mapping: Mapping,
    s: &[Point],
) -> Result<Points, Memory> {
    match mapping {
        Mapping::Lower => lower(alloc, view, s),
        Mapping::Upper => upper(alloc, view, s),
        Mapping::Title => title(alloc, view, s),
        Mapping::Fold => fold(alloc, view, s),
    }
}

/// Whether a list is mapped to exactly the wanted code points.
fn is_mapped<W: FactView>(alloc: Global, view: &W, case: &MappingCase) -> bool {
    match points(alloc, case.1) {
        Ok(s) => maps_to(alloc, view, case.0, s.as_slice(), case.2),
        Err(Memory) => false,
    }
}

fn maps_to<W: FactView>(
    alloc: Global,
    view: &W,
    mapping: Mapping,
    s: &[Point],
    wanted: &[u32],
) -> bool {
    match mapped(alloc, view, mapping, s) {
        Ok(found) => are(found.as_slice(), wanted),
        Err(Memory) => false,
    }
}

fn are_mapped<W: FactView>(alloc: Global, view: &W) -> bool {
    for case in &MAPPING_CASES {
        if !is_mapped(alloc, view, case) {
            return false;
        }
    }
    true
}

fn letters_have_images(alloc: Global) -> bool {
    match letters(alloc) {
        Ok(list) => are_mapped(alloc, &list),
        Err(Memory) => false,
    }
}

fn letters(alloc: Global) -> Result<FactList, Memory> {
    listed_cased(alloc, &LETTERS)
}

#[test]
fn letters_are_mapped(rt: HostRuntime) {
    assert!(rt; letters_have_images(rt.alloc()));
}

/// What changes of a list: lower, upper, title, folding, and one of the first three.
fn changes<W: FactView>(view: &W, s: &[Point]) -> [bool; 5] {
    let found: Changes = changes_when(view, s);
    [
        found.lowered,
        found.uppered,
        found.titled,
        found.folded,
        found.mapped,
    ]
}

fn is_changed<W: FactView>(alloc: Global, view: &W, case: &ChangeCase) -> bool {
    match points(alloc, case.0) {
        Ok(s) => changes(view, s.as_slice()) == case.1,
        Err(Memory) => false,
    }
}

/// Whether just the wanted changes of each list.
fn are_changed<W: FactView>(alloc: Global, view: &W, cases: &[ChangeCase]) -> bool {
    for case in cases {
        if !is_changed(alloc, view, case) {
            return false;
        }
    }
    true
}

/// Whether just what is wanted changes of each list, by the facts of these rows.
fn rows_are_changed(alloc: Global, rows: &[CaseRow], cases: &[ChangeCase]) -> bool {
    match listed_cased(alloc, rows) {
        Ok(list) => are_changed(alloc, &list, cases),
        Err(Memory) => false,
    }
}

fn letters_are_changed(alloc: Global) -> bool {
    rows_are_changed(alloc, &LETTERS, &CHANGE_CASES)
}

fn cuts_are_changed(alloc: Global) -> bool {
    rows_are_changed(alloc, &CUT_OTHERWISE, &CUT_CASES)
}

#[test]
fn lists_change_by_their_joined_images(rt: HostRuntime) {
    assert!(rt; letters_are_changed(rt.alloc()) && cuts_are_changed(rt.alloc()));
}

const APOSTROPHE: FoldedRow<'static> = (0x0027, Category::Po, 0, PLAIN, &[], &[]);

/// Puts APOSTROPHE, which stands in the middle of words.
fn put_apostrophe(alloc: Global, list: &mut FactList) -> Result<(), Memory> {
    let mut facts = facts_of(alloc, APOSTROPHE)?;
    facts.mid_word = true;
    list.push((point(APOSTROPHE.0), facts))
}

/// A code point, whether it is cased, and whether it is ignored around cased ones.
type CasedCase = (u32, bool, bool);

const CASED_CASES: [CasedCase; 6] = [
    (0x0053, true, false),
    (0x01C5, true, false),
    (0x00AA, true, false),
    (0x00AD, false, true),
    (0x0027, false, true),
    (0x0031, false, false),
];

/// Whether a view tells this of each code point.
fn are_told<W: FactView>(view: &W) -> bool {
    for (c, is_one, is_passed) in &CASED_CASES {
        let c = point(*c);
        if cased(view, c) != *is_one || case_ignorable(view, c) != *is_passed {
            return false;
        }
    }
    true
}

/// Puts FEMININE ORDINAL INDICATOR, SOFT HYPHEN and APOSTROPHE.
fn put_others(alloc: Global, list: &mut FactList) -> Result<(), Memory> {
    let lowercase = Flags::none().with(Flag::OtherLowercase, true);
    put_flagged(alloc, list, 0x00AA, Category::Lo, lowercase)?;
    put_flagged(alloc, list, 0x00AD, Category::Cf, Flags::none())?;
    put_apostrophe(alloc, list)
}

fn letters_and_others(alloc: Global) -> Result<FactList, Memory> {
    let mut list = letters(alloc)?;
    put_others(alloc, &mut list)?;
    Ok(list)
}

fn others_are_told(alloc: Global) -> bool {
    match letters_and_others(alloc) {
        Ok(list) => are_told(&list),
        Err(Memory) => false,
    }
}

#[test]
fn which_points_are_cased_and_ignored_around_them(rt: HostRuntime) {
    assert!(rt; others_are_told(rt.alloc()));
}
