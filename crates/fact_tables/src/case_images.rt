//! The images of all cases.

ghost use Rattle.std.specs.Prelude.{◌≡◌, IfOk, IsTrue};
ghost use Rattle.std.specs.Box.{box_value};
ghost use Rattle.std.specs.Option.{option_map};
ghost use Rattle.fact_tables.specs.CaseImages.{cases_at};
ghost use Rattle.ucd_points.specs.Stretches.{HoldsTo};
ghost use Rattle.fact_tables.specs.Rest.{cases_of, no_cases};

use crate::cases::Cases;
use crate::points::point;
use std::alloc::Global;
use std::collections::BTreeMap;
use ucd_facts::{Copied, Memory, Point};

/// The foldings of the statuses C, F and S, and the casings without conditions, under their code points.
#[derive(Drop)]
pub struct CaseImages {
    /// The images of each code point that has some.
    pub images: BTreeMap<Point, Box<Cases>>,
}

impl CaseImages {
    /// The images of a code point; `None` only if it has none.
    ///
    /// - `Memory`: memory ran out.
    pub fn copied_cases_at(&self, alloc: Global, c: Point) -> Result<Option<Box<Cases>>, Memory>
        ensures { IfOk result (λ cases. cases_of (option_map box_value cases)
            ≡ cases_at self.now.images c) }
    {
        match self.images.get(&c) {
            Some(cases) => Ok(Some(Box::new(alloc, cases.copied(alloc)?)?)),
            None => Ok(None),
        }
    }

    /// Whether a code point has no images.
    pub fn has_none(&self, c: Point) -> bool
        ensures { IsTrue result → cases_at self.now.images c ≡ no_cases }
    {
        !self.images.contains_key(&c)
    }

    /// A code point up to which the images are the same from `c` on: `c` itself if it has some, or else the last before
    /// the next one that has.
    pub fn last_alike(&self, c: Point) -> Point
        ensures { HoldsTo (λ d. cases_at self.now.images d ≡ cases_at self.now.images c) c result }
    {
        let first = c.number();
        let Some((key, _)) = self.images.range(c..).next() else {
            return point(Point::COUNT - 1);
        };
        let key = key.number();
        if first < key { point(key - 1) } else { c }
    }
}
