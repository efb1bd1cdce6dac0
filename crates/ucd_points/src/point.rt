//! Code points.

ghost use Rattle.std.specs.Prelude.{◌≡◌, ℕ, ◌<◌, ◌≤◌};
ghost use Rattle.std.specs.Option.{SomeIff};
ghost use Rattle.ucd_points.specs.Limits.{point_count};

use std::marker::Model;

/// A code point: a number from 0 to 10FFFF (hexadecimal). Contracts see the number.
/// The Unicode Standard, section 2.4, "Code Points and Characters".
#[derive(Clone, Copy, Debug, PartialEq, Eq, PartialOrd, Ord, Hash)]
pub struct Point {
    number: u32,
}

impl Model for Point {
    ghost use Rattle.std.specs.Prelude.{ℕ, ◌<◌};

    ghost Value = { ℕ };

    ghost view = { λ p. p.number };

    ghost invariant = { λ p. p.number < 1114112 };

    ghost inverse = { λ n. record { number = n } };
}

impl Point {
    /// The number of code points: 1114112.
    pub const COUNT: u32 = 0x11_0000;

    /// The code point of a number, and `None` exactly above 10FFFF.
    pub fn new(number: u32) -> Option<Point>
        ensures { SomeIff result (number < 1114112) number }
    {
        if number < Point::COUNT {
            Some(Point { number })
        } else {
            None
        }
    }

    /// The code point of a number that is known to be one.
    pub fn at(number: u32) -> Point
        requires { number < 1114112 }
        ensures { result ≡ number }
    {
        Point { number }
    }

    /// The number of the code point, from 0 to 10FFFF.
    pub fn number(self) -> u32
        ensures value { result ≡ self }
        ensures bound { result < 1114112 }
    {
        self.number
    }
}

/// The number of code points, as clauses name it.
#[tactic(auto, unfolding(crate::specs::Limits::point_count))]
pub fn point_count() -> u32
    ensures value { result ≡ point_count }
    ensures number { result ≡ 1114112 }
{
    Point::COUNT
}
