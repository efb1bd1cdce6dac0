//! The code point that a word names.

ghost use Rattle.std.specs.Prelude.{◌≡◌};
ghost use Rattle.ucd_points.specs.Fields.{if_point};
ghost use Rattle.ucdshop_look_core.specs.Points.{char_of, named_point};

use bstr::decode_utf8;
use ucd_lines::hex;
use ucd_model::Point;

/// The code point that a word names: by 4 to 6 hexadecimal digits of either case, by `U+` and such digits, or by its one
/// character in UTF-8. `None` exactly for all other words.
pub fn named_point(word: &[u8]) -> Option<Point>
    ensures { result ≡ named_point word.now }
{
    if word.starts_with(b"U+") {
        return hex(&word[2..]);
    }
    match hex(word) {
        Some(point) => Some(point),
        None => char_of(word),
    }
}

/// The code point of a word that is one character in UTF-8.
fn char_of(word: &[u8]) -> Option<Point>
    ensures { result ≡ char_of word.now }
{
    let (found, size) = decode_utf8(word);
    if size == word.len() {
        point_of_char(found)
    } else {
        None
    }
}

/// The code point of a character.
fn point_of_char(found: Option<char>) -> Option<Point>
    ensures { result ≡ if_point found }
{
    match found {
        Some(character) => Point::new(u32::from(character)),
        None => None,
    }
}
