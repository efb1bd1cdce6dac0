//! Writes rows of UnicodeData.txt. UAX #44, section 5.3, table 9.

ghost use Rattle.std.specs.Prelude.{◌≡◌, ◌+◌, ◌%◌, ◌<◌, ◌++◌, ◌∷◌, [], OnOk, IfOk, codes};
ghost use Rattle.std.specs.Fmt.{decimal};
ghost use Rattle.ucd_points.specs.HexText.{hex_text};
ghost use Rattle.ucd_facts.specs.Names.{category_code};
ghost use Rattle.ucd_facts.specs.RowTexts.{decomposition_text, case_text, data_line, data_text, value_fields, range_text};
ghost use Rattle.source_rows.specs.Texts.{ended};

use crate::put_points::put_mapping;
use std::alloc::Global;
use ucd_facts::{DataRow, Kind, Memory, Point, Text};
use ucd_lines::put_hex;

/// The last digit of a number.
fn decimal_digit(number: u8) -> u8
    ensures { result ≡ 48 + number % 10 }
{
    b'0' + number % 10
}

/// Appends a class in decimal.
fn put_class(class: u8, into: &mut Text) -> Result<(), Memory>
    ensures { OnOk result (into.new ≡ into.old ++ decimal class) }
{
    if class < 10 {
        return into.push(decimal_digit(class));
    }
    if class < 100 {
        return into.append(&[decimal_digit(class / 10), decimal_digit(class)]);
    }
    into.append(&[
        decimal_digit(class / 100),
        decimal_digit(class / 10),
        decimal_digit(class),
    ])
}

/// Appends field 5.
fn put_decomposition(kind: Kind, mapping: &[Point], into: &mut Text) -> Result<(), Memory>
    ensures { OnOk result (into.new ≡ into.old ++ decomposition_text kind mapping.now) }
{
    match kind {
        Kind::Plain => Ok(()),
        Kind::Canonical => put_mapping(mapping, into),
        Kind::Compat(tag) => {
            into.append(tag.text())?;
            into.push(b' ')?;
            put_mapping(mapping, into)
        }
    }
}

/// Appends a simple case mapping, or nothing.
fn put_case(case: Option<Point>, into: &mut Text) -> Result<(), Memory>
    ensures { OnOk result (into.new ≡ into.old ++ case_text case) }
{
    match case {
        None => Ok(()),
        Some(point) => put_hex(point, into),
    }
}

/// Appends a field and the `;` behind it.
fn put_field(field: &[u8], into: &mut Text) -> Result<(), Memory>
    ensures { OnOk result (into.new ≡ into.old ++ field.now ++ 59 ∷ []) }
{
    into.append(field)?;
    into.push(b';')
}

/// Appends fields 0 to 3.
fn put_fields_0_to_3(
    row: &DataRow,
    point: Point,
    name: &[u8],
    into: &mut Text,
) -> Result<(), Memory>
    ensures { OnOk result (into.new ≡ into.old
        ++ ended (hex_text point ∷ name.now ∷ category_code row.now.category
        ∷ decimal row.now.class ∷ [])) }
{
    put_hex(point, into)?;
    into.push(b';')?;
    put_field(name, into)?;
    put_field(row.category.code(), into)?;
    put_class(row.class, into)?;
    into.push(b';')
}

/// Appends fields 4 to 7.
fn put_fields_4_to_7(row: &DataRow, into: &mut Text) -> Result<(), Memory>
    ensures { OnOk result (into.new ≡ into.old
        ++ ended (row.now.kept.f4 ∷ decomposition_text row.now.kind row.now.mapping
        ∷ row.now.kept.f6 ∷ row.now.kept.f7 ∷ [])) }
{
    put_field(row.kept.f4.as_slice(), into)?;
    put_decomposition(row.kind, row.mapping.as_slice(), into)?;
    into.push(b';')?;
    put_field(row.kept.f6.as_slice(), into)?;
    put_field(row.kept.f7.as_slice(), into)
}

/// Appends fields 8 to 11.
fn put_fields_8_to_11(row: &DataRow, into: &mut Text) -> Result<(), Memory>
    ensures { OnOk result (into.new ≡ into.old
        ++ ended (row.now.kept.f8 ∷ row.now.kept.f9 ∷ row.now.kept.f10 ∷ row.now.kept.f11
        ∷ [])) }
{
    put_field(row.kept.f8.as_slice(), into)?;
    put_field(row.kept.f9.as_slice(), into)?;
    put_field(row.kept.f10.as_slice(), into)?;
    put_field(row.kept.f11.as_slice(), into)
}

/// Appends fields 12 to 14, with nothing behind the last.
fn put_cases(row: &DataRow, into: &mut Text) -> Result<(), Memory>
    ensures { OnOk result (into.new ≡ into.old
        ++ ended (case_text row.now.upper ∷ case_text row.now.lower ∷ [])
        ++ case_text row.now.title) }
{
    put_case(row.upper, into)?;
    into.push(b';')?;
    put_case(row.lower, into)?;
    into.push(b';')?;
    put_case(row.title, into)
}

/// Appends the line of a row with this code point and this name.
fn put_line(row: &DataRow, point: Point, name: &[u8], into: &mut Text) -> Result<(), Memory>
    ensures { OnOk result (into.new ≡ into.old ++ data_line row.now point name.now) }
{
    put_fields_0_to_3(row, point, name, into)?;
    put_fields_4_to_7(row, into)?;
    put_fields_8_to_11(row, into)?;
    put_cases(row, into)
}

/// The name of a line of a range: `<`, the label, and the closing.
fn range_name(alloc: Global, label: &[u8], closing: &[u8]) -> Result<Text, Memory>
    ensures { IfOk result (λ name. name ≡ codes "<" ++ label.now ++ closing.now) }
{
    let mut name = Text::new(alloc);
    name.push(b'<')?;
    name.append(label)?;
    name.append(closing)?;
    Ok(name)
}

/// Appends the two lines of a range, LF between them.
fn put_range(alloc: Global, row: &DataRow, into: &mut Text) -> Result<(), Memory>
    ensures { OnOk result (into.new ≡ into.old ++ range_text row.now) }
{
    let first = range_name(alloc, row.name.as_slice(), b", First>")?;
    let last = range_name(alloc, row.name.as_slice(), b", Last>")?;
    put_line(row, row.span.lo, first.as_slice(), into)?;
    into.push(b'\n')?;
    put_line(row, row.span.hi, last.as_slice(), into)
}

/// Appends a row: its line, or the two lines of a range.
///
/// - `Memory`: memory ran out. A part may then stand at the end of the text.
pub fn put_data(alloc: Global, row: &DataRow, into: &mut Text) -> Result<(), Memory>
    ensures { OnOk result (into.new ≡ into.old ++ data_text row.now) }
{
    if row.range {
        return put_range(alloc, row, into);
    }
    put_line(row, row.span.lo, row.name.as_slice(), into)
}
