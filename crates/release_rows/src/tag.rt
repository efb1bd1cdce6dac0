//! Tags of rows: numbers that tell rows of different keys or groups apart before their texts are compared.

ghost use Rattle.std.specs.Prelude.{◌≡◌, ◌≤◌};
ghost use Rattle.ucd_points.specs.Fields.{field};
ghost use Rattle.release_rows.specs.Tags.{behind_first, content_tag, digit, end_of, first_digit, key_tag, number, tells_group, tells_key, tells_order};

use source_rows::content_section;
use ucd_facts::{SourceFile, Text};
use ucd_lines::{Fields, fields};

/// What a byte is worth: 1 to 75 from `0` to `z`, 0 below them and 76 above.
fn byte_rank(byte: u8) -> u32
    ensures { result ≡ digit byte }
{
    match byte {
        ..b'0' => 0,
        b'0'..=b'z' => u32::from(byte - b'/'),
        _ => 76,
    }
}

/// What the first byte is worth; 0 if there is none.
fn first_byte_rank(text: &[u8]) -> u32
    ensures digit { result ≡ first_digit text.now }
    ensures few { result ≤ 76 }
{
    match text {
        [] => 0,
        [byte, ..] => byte_rank(*byte),
    }
}

/// The bytes behind the first one, if that is from `0` to `z`; else nothing.
fn behind_first(text: &[u8]) -> &[u8]
    ensures { result.now ≡ behind_first text.now }
{
    match text {
        [b'0'..=b'z', rest @ ..] => rest,
        _ => &[],
    }
}

/// A number for the first five bytes of a text. A text that comes behind another one has no lesser number.
pub fn order_number(text: &[u8]) -> u32
    ensures { result ≡ number text.now }
{
    let second = behind_first(text);
    let third = behind_first(second);
    let fourth = behind_first(third);
    let fifth = behind_first(fourth);
    first_byte_rank(text) * 35_153_041
        + first_byte_rank(second) * 456_533
        + first_byte_rank(third) * 5_929
        + first_byte_rank(fourth) * 77
        + first_byte_rank(fifth)
}

/// The last five bytes of a text; all if there are no more.
pub fn last_five_bytes(text: &[u8]) -> &[u8]
    ensures { result.now ≡ end_of text.now }
{
    if text.len() <= 5 {
        return text;
    }
    &text[text.len() - 5..]
}

/// The first name of a list; nothing if there is none.
fn first_text(names: &[Text]) -> &[u8]
    ensures { result.now ≡ field names.now 0 }
{
    match names {
        [] => &[],
        [first, ..] => first.as_slice(),
    }
}

/// The second name of a list; nothing if there is none.
fn second_text(names: &[Text]) -> &[u8]
    ensures { result.now ≡ field names.now 1 }
{
    match names {
        [_, others @ ..] => first_text(others),
        [] => &[],
    }
}

/// The field with this number, counted from 0; nothing if there is none.
pub fn field_at(mut fields: Fields<'_>, number: usize) -> &[u8]
    ensures { result.now ≡ field fields.entry number }
{
    let mut left = number;
    'fields: while let Some(field) = fields.next() {
        if left == 0 {
            return field;
        }
        left -= 1;
    }
    &[]
}

/// The tag of a row that stands in this content of the file.
#[tactic(auto, unfolding(crate::specs::Tags::content_tag))]
pub fn content_tag(file: SourceFile, content: &[u8]) -> u32
    ensures { result ≡ content_tag file content.now }
{
    match file {
        SourceFile::PropList | SourceFile::Scripts | SourceFile::WordBreakProperty => {
            order_number(last_five_bytes(content_section(file, content)))
        }
        SourceFile::SpecialCasing => order_number(field_at(fields(file, content), 4)),
        SourceFile::PropertyAliases => order_number(field_at(fields(file, content), 0)),
        SourceFile::PropertyValueAliases => order_number(field_at(fields(file, content), 1)),
        _ => 0,
    }
}

/// The tag of the rows whose key has these names, if these tell it in the file; else 0.
pub fn key_tag(file: SourceFile, names: &[Text]) -> u32
    ensures { result ≡ key_tag file names.now }
{
    match file {
        SourceFile::PropList => order_number(last_five_bytes(first_text(names))),
        SourceFile::SpecialCasing | SourceFile::PropertyAliases => order_number(first_text(names)),
        SourceFile::PropertyValueAliases => order_number(second_text(names)),
        _ => 0,
    }
}

/// Whether rows of one key have one tag.
pub fn tags_tell_key(file: SourceFile) -> bool
    ensures { result ≡ tells_key file }
{
    matches!(
        file,
        SourceFile::PropList
            | SourceFile::SpecialCasing
            | SourceFile::PropertyAliases
            | SourceFile::PropertyValueAliases
    )
}

/// Whether rows of one group have one tag.
pub fn tags_tell_group(file: SourceFile) -> bool
    ensures { result ≡ tells_group file }
{
    matches!(
        file,
        SourceFile::PropList | SourceFile::Scripts | SourceFile::WordBreakProperty
    )
}

/// Whether tags ascend with the keys of a group.
pub fn tags_tell_order(file: SourceFile) -> bool
    ensures { result ≡ tells_order file }
{
    matches!(
        file,
        SourceFile::SpecialCasing | SourceFile::PropertyAliases | SourceFile::PropertyValueAliases
    )
}
