//! Reads code points in hexadecimal digits. UAX #44, section 4.2.

ghost use Rattle.std.specs.Prelude.{◌≡◌, ◌<◌, ◌≤◌, length, IfSome};
ghost use Rattle.ucd_points.specs.Fields.{digit_of, hex_number, point_of};

use ucd_points::Point;

/// What a hexadecimal digit is worth, in either case.
#[inline]
fn digit_of(byte: u8) -> Option<u32>
    ensures worth { result ≡ digit_of byte }
    ensures small { IfSome result (λ d. d < 16) }
{
    match byte {
        b'0'..=b'9' => Some(u32::from(byte - b'0')),
        b'A'..=b'F' => Some(u32::from(byte - b'A') + 10),
        b'a'..=b'f' => Some(u32::from(byte - b'a') + 10),
        _ => None,
    }
}

/// The number that at most eight hexadecimal digits of either case write, and 0 for no digits. `None` exactly if a
/// byte is no digit.
pub fn hex_number(digits: &[u8]) -> Option<u32>
    requires { length digits.now ≤ 8 }
    ensures { result ≡ hex_number digits.now }
{
    let mut number = 0;
    for byte in digits {
        number = 16 * number + digit_of(*byte)?;
    }
    Some(number)
}

/// The code point that a field spells: 4 to 6 hexadecimal digits of either case, at most 10FFFF. `None` exactly for
/// all other bytes. UAX #44, section 4.2.
#[tactic(auto, unfolding(ucd_points::specs::Fields::point_of))]
pub fn hex(field: &[u8]) -> Option<Point>
    ensures { result ≡ point_of field.now }
{
    if field.len() < 4 || field.len() > 6 {
        return None;
    }
    Point::new(hex_number(field)?)
}
