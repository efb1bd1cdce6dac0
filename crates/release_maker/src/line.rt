//! The lines of a series.

ghost use Rattle.std.specs.Prelude.{◌≡◌, ◌<◌, ◌++◌, OnOk, codes};
ghost use Rattle.ucd_points.specs.HexText.{hex_text};
ghost use Rattle.release_maker.specs.MadeTexts.{line_text};
ghost use Rattle.release_maker.specs.Lines.{line_of};

use ucd_lines::put_hex;
use ucd_model::{Memory, Point, Text};

/// A series of lines, one for each number from 0 on.
#[derive(Clone, Copy)]
pub enum Series {
    /// Rows without a mapping.
    Base,
    /// Rows with a canonical mapping.
    Composite,
    /// Rows with a compatibility mapping.
    Compat,
    /// Commands that add a folding.
    Command,
}

/// The first code point of the rows without a mapping.
const BASE: u32 = 0x2_0000;

/// The first code point of the rows with a canonical mapping.
const COMPOSITE: u32 = 0x3_0000;

/// The first code point of the rows with a compatibility mapping.
const COMPAT: u32 = 0x4_0000;

/// Puts the line of the number `i` at the end of a text.
///
/// - `Memory`: memory ran out. A part of the line may then stand at the end of the text.
pub fn put_line(series: Series, i: u32, text: &mut Text) -> Result<(), Memory>
    requires { i < 65536 }
    ensures { OnOk result (text.new ≡ text.old ++ line_text (line_of series i)) }
{
    let base = Point::at(BASE + i);
    let composite = Point::at(COMPOSITE + i);
    match series {
        Series::Base => put_unmapped_row(base, text),
        Series::Composite => put_mapped(
            composite,
            b";COMPOSITE;Lo;0;L;",
            base,
            b" 0300;;;;N;;;;;",
            text,
        ),
        Series::Compat => {
            let compat = Point::at(COMPAT + i);
            put_mapped(
                compat,
                b";COMPAT;Lo;0;L;<compat> ",
                base,
                b" 0300;;;;N;;;;;",
                text,
            )
        }
        Series::Command => put_command(b"add CaseFolding.txt ", composite, b"; C; ", base, text),
    }
}

/// Puts the row of a code point without a mapping.
fn put_unmapped_row(base: Point, text: &mut Text) -> Result<(), Memory>
    ensures { OnOk result (text.new ≡ text.old
        ++ line_text (hex_text base ++ codes ";BASE;Lo;0;L;;;;;N;;;;;")) }
{
    put_hex(base, text)?;
    text.append(b";BASE;Lo;0;L;;;;;N;;;;;")?;
    text.append(b"\n")
}

/// Puts the row of a code point with a mapping of two others. What stands between the code point and the first of them, and
/// behind that one, are its other fields.
fn put_mapped(
    point: Point,
    between: &[u8],
    first: Point,
    behind: &[u8],
    text: &mut Text,
) -> Result<(), Memory>
    ensures { OnOk result (text.new ≡ text.old
        ++ line_text (hex_text point ++ between.now ++ hex_text first ++ behind.now)) }
{
    put_hex(point, text)?;
    text.append(between)?;
    put_hex(first, text)?;
    text.append(behind)?;
    text.append(b"\n")
}

/// Puts a command about two code points. What stands before the first of them, and between them, is the rest of the command.
fn put_command(
    before: &[u8],
    first: Point,
    between: &[u8],
    second: Point,
    text: &mut Text,
) -> Result<(), Memory>
    ensures { OnOk result (text.new ≡ text.old
        ++ line_text (before.now ++ hex_text first ++ between.now ++ hex_text second)) }
{
    text.append(before)?;
    put_hex(first, text)?;
    text.append(between)?;
    put_hex(second, text)?;
    text.append(b"\n")
}
