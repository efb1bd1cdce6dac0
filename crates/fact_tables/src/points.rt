//! Code points of numbers that are known to be code points.

ghost use Rattle.std.specs.Prelude.{◌≡◌, ◌<◌, ◌≤◌, min};

use ucd_facts::Point;

/// The code point of a number.
pub fn point(number: u32) -> Point
    requires { number < 1114112 }
    ensures { result ≡ number }
{
    Point::new(number).unwrap()
}

/// The lesser of two code points.
pub fn lesser(a: Point, b: Point) -> Point
    ensures { result ≡ min a b }
{
    if a.number() < b.number() { a } else { b }
}
