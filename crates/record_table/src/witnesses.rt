//! Code points by which records are found again: hints where a record may be held already. No answer depends on them.

ghost use Rattle.std.specs.Prelude.{◌<◌};

use std::alloc::Global;
use ucd_model::{Core, Image, Memory, Point, Quick, Record};

/// How many slots there are.
const SLOTS: usize = 1024;

/// For each slot the code point that was given a record of that slot last. It may have another record by now.
#[derive(Drop)]
pub struct Witnesses {
    points: Vec<Point>,
}

impl Witnesses {
    /// The first code point in each slot.
    ///
    /// - `Memory`: memory ran out.
    pub fn new(alloc: Global) -> Result<Witnesses, Memory> {
        let mut points = Vec::with_capacity(alloc, SLOTS)?;
        'slots: for _ in 0..SLOTS {
            points.push(Point::at(0))?;
        }
        Ok(Witnesses { points })
    }

    /// The code point in a slot.
    pub fn point(&self, slot: usize) -> Point {
        match self.points.get(slot) {
            Some(point) => *point,
            None => Point::at(0),
        }
    }

    /// Puts a code point in a slot.
    pub fn put(&mut self, slot: usize, point: Point) {
        if slot < self.points.len() {
            self.points[slot] = point;
        }
    }
}

/// The slot of a record: records that are equal have the same one, and others mostly another one.
pub fn slot_of(record: &Record) -> usize {
    let facts = record.category.place() + 30 * usize::from(record.class);
    let checks = usize::from(record.nfc != Quick::Yes) + 2 * usize::from(record.nfkc != Quick::Yes);
    let cases = usize::from(record.core.has(Core::ChangesWhenUppercased))
        + 2 * usize::from(record.core.has(Core::Alphabetic))
        + 4 * usize::from(record.core.has(Core::CaseIgnorable));
    let images = image_sum(&record.casefold) + image_sum(&record.simple_casefold);
    (facts + 37 * checks + 151 * cases + 7 * images) % SLOTS
}

/// A number that tells images apart by their first code point and their length.
fn image_sum(image: &Image) -> usize
    ensures { result < 4194304 }
{
    match image.as_points() {
        None => 0,
        Some([]) => 1,
        Some([first, behind @ ..]) => 2 + first.number() as usize + 2 * behind.len().min(SLOTS),
    }
}
