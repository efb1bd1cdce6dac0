//! Reads spans of code points, and names. UAX #44, section 4.2.

ghost use Rattle.std.specs.Prelude.{◌≡◌};
ghost use Rattle.std.specs.List.{list_all};
ghost use Rattle.ucd_points.specs.Fields.{span_of, behind_dot, is_name_byte, is_name, is_label_closed_by, is_range_name, label_of};
ghost use Rattle.source_rows.specs.Lines.{has_first_name, has_last_name};

use ucd_facts::{Point, Span};
use ucd_lines::{cut, first_at, hex};

/// The code point behind a second dot.
fn behind_dot(text: &[u8]) -> Option<Point>
    ensures { result ≡ behind_dot text.now }
{
    match text {
        [b'.', second @ ..] => hex(second),
        _ => None,
    }
}

/// The span of one code point, or of two joined by `..`, the first at most the second. `None` for all other bytes.
#[tactic(auto, unfolding(ucd_points::specs::Fields::span_of))]
pub fn span_of(field: &[u8]) -> Option<Span>
    ensures { result ≡ span_of field.now }
{
    if first_at(field, b'.') == field.len() {
        return Some(Span::one(hex(field)?));
    }
    let (first, second) = cut(field, b'.');
    Span::new(hex(first)?, behind_dot(second)?)
}

/// Whether a byte may stand in a name: from 20 to 7E, and not `;`.
fn is_name_byte(byte: u8) -> bool
    ensures { result ≡ is_name_byte byte }
{
    (b' '..=b'~').contains(&byte) && byte != b';'
}

/// Whether each byte may stand in a name. No byte ends the loop, so that several can be tested at once.
fn are_name_bytes(text: &[u8]) -> bool
    ensures { result ≡ list_all is_name_byte text.now }
{
    let mut all = true;
    'bytes: for byte in text {
        all &= is_name_byte(*byte);
    }
    all
}

/// Whether the text is a name: one or more bytes from 20 to 7E, without `;`.
pub fn is_name(text: &[u8]) -> bool
    ensures { result ≡ is_name text.now }
{
    !text.is_empty() && are_name_bytes(text)
}

/// Whether the text is `<`, a label that is a name, and the closing.
#[tactic(auto, unfolding(ucd_points::specs::Fields::is_label_closed_by))]
fn is_label_closed_by(closing: &[u8], text: &[u8]) -> bool
    ensures { result ≡ is_label_closed_by closing.now text.now }
{
    let Some(front) = text.strip_suffix(closing) else {
        return false;
    };
    let Some(label) = front.strip_prefix(b"<") else {
        return false;
    };
    is_name(label)
}

/// Whether the name is `<Label, First>`.
pub fn is_range_first_name(name: &[u8]) -> bool
    ensures { result ≡ has_first_name name.now }
{
    is_label_closed_by(b", First>", name)
}

/// Whether the name is `<Label, Last>`.
pub fn is_range_last_name(name: &[u8]) -> bool
    ensures { result ≡ has_last_name name.now }
{
    is_label_closed_by(b", Last>", name)
}

/// Whether the name is that of the first or the last line of a range: `<Label, First>` or `<Label, Last>`. Most names are
/// ruled out by their first byte. UAX #44, section 4.2.3.
#[tactic(auto, unfolding(ucd_points::specs::Fields::is_label_closed_by))]
pub fn is_range_name(name: &[u8]) -> bool
    ensures { result ≡ is_range_name name.now }
{
    match name {
        [b'<', ..] => is_range_first_name(name) || is_range_last_name(name),
        _ => false,
    }
}

/// The label between the `<` and the closing.
pub fn label_of<'a>(closing: &[u8], name: &'a [u8]) -> &'a [u8]
    ensures { result.now ≡ label_of closing.now name.now }
{
    let front = &name[..name.len().saturating_sub(closing.len())];
    match front {
        [] => front,
        [_, label @ ..] => label,
    }
}
