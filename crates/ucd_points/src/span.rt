//! Spans of code points.

ghost use Rattle.std.specs.Prelude.{◌≡◌, ◌<◌, ◌≤◌};
ghost use Rattle.std.specs.Option.{SomeIff};
ghost use Rattle.ucd_points.specs.Bounds.{Bounds};

use crate::point::Point;
use std::marker::Model;

/// The code points from `lo` to `hi`, both of them in it. Contracts see the two numbers.
#[derive(Clone, Copy, Debug, PartialEq, Eq)]
pub struct Span {
    /// The first code point.
    pub lo: Point,
    /// The last code point, not less than the first.
    pub hi: Point,
}

impl Model for Span {
    ghost use Rattle.std.specs.Prelude.{◌≤◌};
    ghost use Rattle.ucd_points.specs.Bounds.{Bounds};

    ghost Value = { Bounds };

    ghost view = { λ s. record { lo = s.lo; hi = s.hi } };

    ghost invariant = { λ s. s.lo ≤ s.hi };

    ghost inverse = { λ b. record { lo = b.lo; hi = b.hi } };
}

impl Span {
    /// The span from `lo` to `hi`, and `None` exactly if `lo` is greater.
    pub fn new(lo: Point, hi: Point) -> Option<Span>
        ensures { SomeIff result (lo ≤ hi) (record { lo = lo; hi = hi }) }
    {
        if lo.number() <= hi.number() {
            Some(Span { lo, hi })
        } else {
            None
        }
    }

    /// The span from `lo` to `hi`, which is known not to be less.
    pub fn between(lo: Point, hi: Point) -> Span
        requires { lo ≤ hi }
        ensures { result ≡ record { lo = lo; hi = hi } }
    {
        Span { lo, hi }
    }

    /// The span of one code point.
    pub fn one(point: Point) -> Span
        ensures { result ≡ record { lo = point; hi = point } }
    {
        Span {
            lo: point,
            hi: point,
        }
    }

    /// The first code point, as a number.
    pub fn first(self) -> u32
        ensures value { result ≡ self.lo }
        ensures ordered { result ≤ self.hi }
        ensures bound { result < 1114112 }
    {
        self.lo.number()
    }

    /// The last code point, as a number.
    pub fn last(self) -> u32
        ensures value { result ≡ self.hi }
        ensures ordered { self.lo ≤ result }
        ensures bound { result < 1114112 }
    {
        self.hi.number()
    }
}
