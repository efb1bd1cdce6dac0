//! The text of what a release misses of NormalizationTest.txt.

ghost use Rattle.std.specs.Prelude.{◌≡◌, ◌++◌, IfOk, OnOk, codes};
ghost use Rattle.std.specs.Fmt.{decimal};
ghost use Rattle.ucd_points.specs.HexText.{hex_text};
ghost use Rattle.ucd_model.specs.DerivedText.{line_end};
ghost use Rattle.ucdshop_more_core.specs.MissTexts.{form_code, miss_line, misses_text};

use norm_conformance::{Miss, Misses};
use std::alloc::Global;
use ucd_lines::{put_decimal, put_hex, put_total};
use ucd_model::{Form, Memory, Point, Text};

/// The text of misses: a line for each, and `# total N`.
///
/// - `Memory`: memory ran out.
pub fn misses_text(alloc: Global, misses: &Misses) -> Result<Text, Memory>
    ensures { IfOk result (λ text. text ≡ misses_text misses.now) }
{
    let mut text = Text::new(alloc);
    'misses: for miss in misses.as_slice() {
        put_miss(alloc, *miss, &mut text)?;
    }
    put_total(alloc, misses.len(), &mut text)?;
    Ok(text)
}

/// Puts the line of a miss.
///
/// - `Memory`: memory ran out.
fn put_miss(alloc: Global, miss: Miss, text: &mut Text) -> Result<(), Memory>
    ensures { OnOk result (text.new ≡ text.old ++ miss_line miss) }
{
    match miss {
        Miss::Line { line, form, column } => put_line(alloc, line, form, column, text),
        Miss::Point { point, form } => put_point(point, form, text),
    }
}

/// Puts the line of a miss of a case.
///
/// - `Memory`: memory ran out.
fn put_line(alloc: Global, line: u32, form: Form, column: u8, text: &mut Text) -> Result<(), Memory>
    ensures { OnOk result (text.new ≡ text.old ++ decimal line ++ codes " " ++ form_code form
        ++ codes " " ++ decimal column ++ line_end) }
{
    put_decimal(alloc, line as usize, text)?;
    text.append(b" ")?;
    text.append(form_code(form))?;
    text.append(b" ")?;
    put_decimal(alloc, column as usize, text)?;
    text.append(b"\n")
}

/// Puts the line of a miss of a code point.
///
/// - `Memory`: memory ran out.
fn put_point(point: Point, form: Form, text: &mut Text) -> Result<(), Memory>
    ensures { OnOk result (text.new ≡ text.old ++ codes "point " ++ hex_text point ++ codes " "
        ++ form_code form ++ line_end) }
{
    text.append(b"point ")?;
    put_hex(point, text)?;
    text.append(b" ")?;
    text.append(form_code(form))?;
    text.append(b"\n")
}

/// The name of a form.
fn form_code(form: Form) -> &'static [u8]
    ensures { result.now ≡ form_code form }
{
    match form {
        Form::Nfd => b"NFD",
        Form::Nfc => b"NFC",
        Form::Nfkd => b"NFKD",
        Form::Nfkc => b"NFKC",
    }
}
