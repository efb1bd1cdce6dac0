//! Writes mappings.

ghost use Rattle.std.specs.Prelude.{◌≡◌, ◌++◌, OnOk};
ghost use Rattle.ucd_points.specs.HexText.{hex_text};
ghost use Rattle.ucd_facts.specs.RowTexts.{mapping_text, spaced};

use ucd_facts::{Memory, Point, Text};
use ucd_lines::put_hex;

/// Appends each code point with a space before it.
fn put_spaced(points: &[Point], into: &mut Text) -> Result<(), Memory>
    ensures { OnOk result (into.new ≡ into.old ++ spaced points.now) }
{
    for point in points {
        into.push(b' ')?;
        put_hex(*point, into)?;
    }
    Ok(())
}

/// Appends code points with one space between them.
///
/// - `Memory`: memory ran out. A part may then stand at the end of the text.
pub fn put_mapping(points: &[Point], into: &mut Text) -> Result<(), Memory>
    ensures { OnOk result (into.new ≡ into.old ++ mapping_text points.now) }
{
    match points {
        [] => Ok(()),
        [first, others @ ..] => {
            put_hex(*first, into)?;
            put_spaced(others, into)
        }
    }
}
