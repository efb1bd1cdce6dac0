//! Worked case foldings, over a view that lists a few code points.

use crate::facts::{
    Answer, CANONICAL, FoldedRow, PLAIN, is_image_answer, listed_folded, point, put_flagged,
    put_folded, repeated,
};
use fold_rounds::{
    casefold_of, default_ignorable, is_default_ignorable, is_visible_format, nfkc_casefold,
};
use normalisation::nfkc;
use std::alloc::Global;
use ucd_model::{
    Bad, Category, FactList, FactView, Flag, Flags, Folding, FormStop, Image, Kind, ListOf, Memory,
    Point, Tag,
};

const LETTER: Category = Category::Lo;

const WIDE: Kind = Kind::Compat(Tag::Wide);

/// Letters as a release has them.
const LETTERS: [FoldedRow<'static>; 5] = [
    (0x0053, LETTER, 0, PLAIN, &[], &[0x0073]),
    (0x00C0, LETTER, 0, CANONICAL, &[0x0041, 0x0300], &[]),
    (0x00DF, LETTER, 0, PLAIN, &[], &[0x0073, 0x0073]),
    (0xFF33, LETTER, 0, WIDE, &[0x0053], &[0xFF53]),
    (0xFF53, LETTER, 0, WIDE, &[0x0073], &[]),
];

/// A code point, and its NFKC_Casefold or the rule that stands in its place.
type Case = (u32, Answer);

fn is_answered<W: FactView>(alloc: Global, view: &W, case: &Case) -> bool {
    let c = point(case.0);
    is_image_answer(nfkc_casefold(alloc, view, c), c, &case.1)
}

/// Whether each answer is the wanted one.
fn are_answered<W: FactView>(alloc: Global, view: &W, cases: &[Case]) -> bool {
    for case in cases {
        if !is_answered(alloc, view, case) {
            return false;
        }
    }
    true
}

/// Whether each NFKC_Casefold, or the rule that stands in its place, is the wanted one, by the facts of these rows.
fn rows_are_answered(alloc: Global, rows: &[FoldedRow<'_>], cases: &[Case]) -> bool {
    match listed_folded(alloc, rows) {
        Ok(list) => are_answered(alloc, &list, cases),
        Err(Memory) => false,
    }
}

const LETTER_CASES: [Case; 5] = [
    (0x0053, Ok(&[0x0073])),
    (0x0073, Ok(&[0x0073])),
    (0x00C0, Ok(&[0x00C0])),
    (0x00DF, Ok(&[0x0073, 0x0073])),
    (0xFF33, Ok(&[0x0073])),
];

/// The image of a code point under the rounds by a folding, with its facts and its form looked up before.
fn casefold_by_form<W: FactView>(
    alloc: Global,
    view: &W,
    folding: Folding,
    c: Point,
) -> Result<Image, FormStop> {
    let form = nfkc(alloc, view, &[c])?;
    let found = casefold_of(alloc, view, folding, c, &view.facts(c), form.as_slice())?;
    Ok(found.image)
}

/// Whether NFKC_Casefold of a code point is no code points, with its facts and its form looked up before.
fn is_dropped<W: FactView>(alloc: Global, view: &W, c: Point) -> bool {
    is_image_answer(casefold_by_form(alloc, view, Folding::Full, c), c, &Ok(&[]))
}

const IGNORED: [FoldedRow<'static>; 2] = [
    (0x1000, LETTER, 0, PLAIN, &[], &[0x00AD, 0x1001, 0x00AD]),
    (0x00AD, Category::Cf, 0, PLAIN, &[], &[]),
];

const IGNORED_CASES: [Case; 2] = [(0x00AD, Ok(&[])), (0x1000, Ok(&[0x1001]))];

fn ignored_are_dropped<W: FactView>(alloc: Global, view: &W) -> bool {
    are_answered(alloc, view, &IGNORED_CASES) && is_dropped(alloc, view, point(0x00AD))
}

fn ignored_of_rows_are_dropped(alloc: Global) -> bool {
    match listed_folded(alloc, &IGNORED) {
        Ok(list) => ignored_are_dropped(alloc, &list),
        Err(Memory) => false,
    }
}

#[test]
fn ignored_points_are_dropped(rt: HostRuntime) {
    assert!(rt; ignored_of_rows_are_dropped(rt.alloc()));
}

const ENDLESS: [FoldedRow<'static>; 5] = [
    (0x0061, LETTER, 0, PLAIN, &[], &[0x0062]),
    (0x0062, LETTER, 0, PLAIN, &[], &[0x0061]),
    (0x0300, LETTER, 230, PLAIN, &[], &[0x0300, 0x0300]),
    (0x0064, LETTER, 0, CANONICAL, &[0x0064], &[]),
    (0x0065, LETTER, 0, PLAIN, &[], &[0x0064]),
];

const ENDLESS_CASES: [Case; 5] = [
    (0x0061, Err(Bad::V5)),
    (0x0062, Err(Bad::V5)),
    (0x0300, Err(Bad::V5)),
    (0x0064, Err(Bad::V5)),
    (0x0065, Err(Bad::V5)),
];

fn letters_are_answered(alloc: Global) -> bool {
    rows_are_answered(alloc, &LETTERS, &LETTER_CASES)
}

fn endless_are_answered(alloc: Global) -> bool {
    rows_are_answered(alloc, &ENDLESS, &ENDLESS_CASES)
}

#[test]
fn letters_are_folded_unless_rounds_have_no_end(rt: HostRuntime) {
    assert!(rt; letters_are_answered(rt.alloc()) && endless_are_answered(rt.alloc()));
}

/// Puts so many code points from 1000 on, each of which folds to the next one.
fn put_chain(alloc: Global, list: &mut FactList, links: u8) -> Result<(), Memory> {
    for at in 0..links {
        let c = 0x1000 + at as u32;
        put_folded(alloc, list, (c, LETTER, 0, PLAIN, &[], &[c + 1]))?;
    }
    Ok(())
}

fn chain(alloc: Global, links: u8) -> Result<FactList, Memory> {
    let mut list = FactList::new(alloc);
    put_chain(alloc, &mut list, links)?;
    Ok(list)
}

fn chain_is_answered(alloc: Global, links: u8, cases: &[Case]) -> bool {
    match chain(alloc, links) {
        Ok(list) => are_answered(alloc, &list, cases),
        Err(Memory) => false,
    }
}

const SEVEN_CASES: [Case; 1] = [(0x1000, Ok(&[0x1007]))];

const EIGHT_CASES: [Case; 2] = [(0x1000, Err(Bad::V5)), (0x1001, Ok(&[0x1008]))];

fn chains_are_answered(alloc: Global) -> bool {
    chain_is_answered(alloc, 7, &SEVEN_CASES) && chain_is_answered(alloc, 8, &EIGHT_CASES)
}

#[test]
fn there_are_at_most_seven_rounds(rt: HostRuntime) {
    assert!(rt; chains_are_answered(rt.alloc()));
}

/// Marks, of which one is two marks, and an ignored point.
const MARKS: [FoldedRow<'static>; 4] = [
    (0x0301, LETTER, 230, PLAIN, &[], &[]),
    (0x0308, LETTER, 230, PLAIN, &[], &[]),
    (0x0344, LETTER, 230, CANONICAL, &[0x0308, 0x0301], &[]),
    (0x00AD, Category::Cf, 0, PLAIN, &[], &[]),
];

/// So many marks, and then these.
fn marks(alloc: Global, times: u32, then: &[u32]) -> Result<ListOf<u32>, Memory> {
    let mut marks = repeated(alloc, 0x0301, times)?;
    marks.append(then)?;
    Ok(marks)
}

/// Puts 2000, which folds to so many marks and then to these.
fn put_marked(alloc: Global, list: &mut FactList, times: u32, then: &[u32]) -> Result<(), Memory> {
    let fold = marks(alloc, times, then)?;
    put_folded(
        alloc,
        list,
        (0x2000, LETTER, 0, PLAIN, &[], fold.as_slice()),
    )
}

/// Whether NFKC_Casefold of 2000 has this rule in its place, or none.
fn has_rule<W: FactView>(alloc: Global, view: &W, wanted: Option<Bad>) -> bool {
    match nfkc_casefold(alloc, view, point(0x2000)) {
        Ok(_) => wanted.is_none(),
        Err(FormStop::Bad(rule)) => wanted == Some(rule),
        Err(FormStop::Memory) => false,
    }
}

fn unmarked(alloc: Global) -> Result<FactList, Memory> {
    listed_folded(alloc, &MARKS)
}

fn marked(alloc: Global, times: u32, then: &[u32]) -> Result<FactList, Memory> {
    let mut list = unmarked(alloc)?;
    put_marked(alloc, &mut list, times, then)?;
    Ok(list)
}

/// How many marks 2000 folds to, what comes behind them, and the rule that stands in the place of its NFKC_Casefold.
type Length = (u32, &'static [u32], Option<Bad>);

const LENGTHS: [Length; 5] = [
    (255, &[], None),
    (256, &[], Some(Bad::V5)),
    (255, &[0x00AD], None),
    (253, &[0x0344], None),
    (254, &[0x0344], Some(Bad::V5)),
];

fn length_has_rule(alloc: Global, length: &Length) -> bool {
    match marked(alloc, length.0, length.1) {
        Ok(list) => has_rule(alloc, &list, length.2),
        Err(Memory) => false,
    }
}

fn lengths_have_rules(alloc: Global) -> bool {
    for length in &LENGTHS {
        if !length_has_rule(alloc, length) {
            return false;
        }
    }
    true
}

#[test]
fn a_list_has_at_most_255_points(rt: HostRuntime) {
    assert!(rt; lengths_have_rules(rt.alloc()));
}

/// Whether a code point is ignored or not, as is wanted, by the view and by the facts that it shows.
fn is_ignored_alike<W: FactView>(view: &W, c: Point, wanted: bool) -> bool {
    default_ignorable(view, c) == wanted && is_default_ignorable(c, &view.facts(c)) == wanted
}

/// Format characters and marks, with the flag that they have.
const FORMATS: [(u32, Category, Option<Flag>); 6] = [
    (0x00AD, Category::Cf, None),
    (0xFFF9, Category::Cf, None),
    (0x13430, Category::Cf, None),
    (0x0600, Category::Cf, Some(Flag::PrependedConcatenationMark)),
    (0x180B, Category::Mn, Some(Flag::VariationSelector)),
    (
        0x034F,
        Category::Mn,
        Some(Flag::OtherDefaultIgnorableCodePoint),
    ),
];

/// Format characters and marks, and a letter that is not listed, with whether they are ignored.
const FORMAT_CASES: [(u32, bool); 7] = [
    (0x00AD, true),
    (0x180B, true),
    (0x034F, true),
    (0xFFF9, false),
    (0x13430, false),
    (0x0600, false),
    (0x0061, false),
];

fn flags_of(flag: Option<Flag>) -> Flags {
    match flag {
        Some(flag) => Flags::none().with(flag, true),
        None => Flags::none(),
    }
}

fn put_formats(alloc: Global, list: &mut FactList) -> Result<(), Memory> {
    for (c, category, flag) in &FORMATS {
        put_flagged(alloc, list, *c, *category, flags_of(*flag))?;
    }
    Ok(())
}

fn are_ignored<W: FactView>(view: &W) -> bool {
    for (c, wanted) in &FORMAT_CASES {
        if !is_ignored_alike(view, point(*c), *wanted) {
            return false;
        }
    }
    true
}

fn formats(alloc: Global) -> Result<FactList, Memory> {
    let mut list = FactList::new(alloc);
    put_formats(alloc, &mut list)?;
    Ok(list)
}

fn formats_are_ignored(alloc: Global) -> bool {
    match formats(alloc) {
        Ok(list) => are_ignored(&list),
        Err(Memory) => false,
    }
}

#[test]
fn some_format_characters_are_shown(rt: HostRuntime) {
    assert!(rt; formats_are_ignored(rt.alloc()));
}

#[test]
fn the_last_annotation_character_is_shown(rt: HostRuntime) {
    assert!(rt; is_visible_format(point(0xFFFB)) && !is_visible_format(point(0xFFFC)));
}
