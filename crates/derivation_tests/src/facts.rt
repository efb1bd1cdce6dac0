//! Lists of the facts of a few code points, as the tests make them.

use std::alloc::Global;
use ucd_model::{
    Bad, Category, FactList, Facts, Flags, FormStop, Image, Kind, ListOf, Memory, Point, Points,
    Tag,
};

/// A code point, its class, the kind of its mapping, and the mapping.
pub type Row<'a> = (u32, u8, Kind, &'a [u32]);

/// A code point, its category, class, kind and mapping, and its folding: no code points if that is the code point
/// itself.
pub type FoldedRow<'a> = (u32, Category, u8, Kind, &'a [u32], &'a [u32]);

/// What a form is to be: these code points, or the rule that stands in their place.
pub type Answer = Result<&'static [u32], Bad>;

pub const PLAIN: Kind = Kind::Plain;

pub const CANONICAL: Kind = Kind::Canonical;

pub const COMPAT: Kind = Kind::Compat(Tag::Compat);

/// Two syllables, with the mappings that Hangul has by rule.
pub const HANGUL: [Row<'static>; 2] = [
    (0xAC00, 0, CANONICAL, &[0x1100, 0x1161]),
    (0xAC01, 0, CANONICAL, &[0xAC00, 0x11A8]),
];

/// The code point of a number: that of no test is above the last one.
pub fn point(number: u32) -> Point {
    Point::at(number.min(0x10_FFFF))
}

/// The code points of a list of numbers.
pub fn points(alloc: Global, numbers: &[u32]) -> Result<Points, Memory> {
    let mut points = Points::new(alloc);
    for number in numbers {
        points.push(point(*number))?;
    }
    Ok(points)
}

/// A list of one number this many times.
pub fn repeated(alloc: Global, number: u32, times: u32) -> Result<ListOf<u32>, Memory> {
    let mut numbers = ListOf::new(alloc);
    for _ in 0..times {
        numbers.push(number)?;
    }
    Ok(numbers)
}

/// Whether these are the code points of these numbers.
pub fn are(points: &[Point], numbers: &[u32]) -> bool {
    let mut left = points.iter();
    for number in numbers {
        if left.next() != Some(&point(*number)) {
            return false;
        }
    }
    left.next().is_none()
}

/// Whether a form is the wanted one.
pub fn is_answer(found: Result<Points, FormStop>, wanted: &Answer) -> bool {
    match found {
        Ok(points) => is_list(points.as_slice(), wanted),
        Err(stop) => is_rule(stop, wanted),
    }
}

/// Whether the image of a code point is the wanted one.
pub fn is_image_answer(found: Result<Image, FormStop>, c: Point, wanted: &Answer) -> bool {
    match found {
        Ok(image) => match wanted {
            Ok(wanted) => is_image(&image, c, wanted),
            Err(_) => false,
        },
        Err(stop) => is_rule(stop, wanted),
    }
}

fn is_list(points: &[Point], wanted: &Answer) -> bool {
    match wanted {
        Ok(wanted) => are(points, wanted),
        Err(_) => false,
    }
}

/// Whether these code points are the image of one, which is not listed if it stands alone.
pub fn is_image(image: &Image, c: Point, numbers: &[u32]) -> bool {
    match image {
        Image::Same => are(&[c], numbers),
        Image::To(points) => points.as_slice() != [c].as_slice() && are(points.as_slice(), numbers),
    }
}

/// Whether the rule that stands in the place of an answer is the wanted one.
fn is_rule(stop: FormStop, wanted: &Answer) -> bool {
    match (stop, wanted) {
        (FormStop::Bad(rule), Err(wanted)) => rule == *wanted,
        _ => false,
    }
}

/// The facts of a row.
pub fn facts_of(alloc: Global, row: FoldedRow<'_>) -> Result<Facts, Memory> {
    let mut facts = Facts::unassigned(alloc, point(row.0));
    put_facts(alloc, &mut facts, row)?;
    Ok(facts)
}

fn put_facts(alloc: Global, facts: &mut Facts, row: FoldedRow<'_>) -> Result<(), Memory> {
    let (_, category, class, kind, mapping, folding) = row;
    facts.assigned = true;
    facts.category = category;
    facts.class = class;
    facts.kind = kind;
    put_lists(alloc, facts, mapping, folding)
}

fn put_lists(
    alloc: Global,
    facts: &mut Facts,
    mapping: &[u32],
    folding: &[u32],
) -> Result<(), Memory> {
    facts.mapping = points(alloc, mapping)?;
    if !folding.is_empty() {
        facts.fold = Image::To(points(alloc, folding)?);
    }
    Ok(())
}

/// Puts the facts of a row at the end of a list.
pub fn put_folded(alloc: Global, list: &mut FactList, row: FoldedRow<'_>) -> Result<(), Memory> {
    let facts = facts_of(alloc, row)?;
    list.push((point(row.0), facts))
}

/// Puts the facts of a letter at the end of a list.
pub fn put(alloc: Global, list: &mut FactList, row: Row<'_>) -> Result<(), Memory> {
    let (c, class, kind, mapping) = row;
    put_folded(alloc, list, (c, Category::Lo, class, kind, mapping, &[]))
}

/// Puts a code point of this category that has these flags at the end of a list.
pub fn put_flagged(
    alloc: Global,
    list: &mut FactList,
    c: u32,
    category: Category,
    flags: Flags,
) -> Result<(), Memory> {
    let c = point(c);
    let mut facts = Facts::unassigned(alloc, c);
    facts.category = category;
    facts.flags = flags;
    list.push((c, facts))
}

fn put_rows(alloc: Global, list: &mut FactList, rows: &[Row<'_>]) -> Result<(), Memory> {
    for row in rows {
        put(alloc, list, *row)?;
    }
    Ok(())
}

fn put_folded_rows(
    alloc: Global,
    list: &mut FactList,
    rows: &[FoldedRow<'_>],
) -> Result<(), Memory> {
    for row in rows {
        put_folded(alloc, list, *row)?;
    }
    Ok(())
}

/// The facts of letters.
pub fn listed(alloc: Global, rows: &[Row<'_>]) -> Result<FactList, Memory> {
    let mut list = FactList::new(alloc);
    put_rows(alloc, &mut list, rows)?;
    Ok(list)
}

/// The facts of rows with foldings.
pub fn listed_folded(alloc: Global, rows: &[FoldedRow<'_>]) -> Result<FactList, Memory> {
    let mut list = FactList::new(alloc);
    put_folded_rows(alloc, &mut list, rows)?;
    Ok(list)
}
