//! Goes over all code points, stretch by stretch.

ghost use Rattle.std.specs.Prelude.{◌≡◌, ◌≤◌};

use ucd_points::{Point, Span};

/// The stretches of code points that are left, in order: what [`stretches_by`] gives, at first all of them from 0 on. They follow
/// one another without a gap, up to 10FFFF (hexadecimal), so there are at most as many as code points.
#[derive(Drop)]
pub struct StretchIter<F> {
    // the last code point of the stretch that begins at a code point
    last_of: F,
    // the code points below it were gone over
    from: u32,
}

/// Goes over all code points by stretches: `last_of` tells the last code point of the one that begins at a code point. If it
/// tells one before that, the stretch is of one code point.
pub fn stretches_by<F: Fn(Point) -> Point>(last_of: F) -> StretchIter<F>
    requires callable { F.IsAlwaysCallable last_of }
    ensures whole { result ≡ record { last_of = last_of; from = 0 } }
{
    StretchIter { last_of, from: 0 }
}

impl<F: Fn(Point) -> Point> Iterator for StretchIter<F> {
    ghost use Rattle.std.specs.Prelude.{◌-◌, ◌≤◌};
    ghost use Rattle.std.specs.Iterator.{at_most};
    ghost use Rattle.point_stretches.specs.Stretches.{GivesStretch};

    type Item = Span;

    ghost can_next = { λ s. F.IsAlwaysCallable s.last_of × (s.from ≤ 1114112) };

    ghost next_gives = { GivesStretch F.post };

    ghost remaining = { λ s. at_most (1114112 - s.from) };

    fn next(&mut self) -> Option<Span> {
        let lo = Point::new(self.from)?;
        let hi = (self.last_of)(lo).max(lo);
        self.from = hi.number() + 1;
        Some(Span::between(lo, hi))
    }
}
