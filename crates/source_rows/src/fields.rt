//! Cuts a line into its fields, each a part of the line. UAX #44, section 4.2.

ghost use Rattle.std.specs.Prelude.{◌≡◌, ℕ, ◌+◌, ◌-◌, ◌<◌, ◌≤◌, ◌∷◌, [], length, count_by};
ghost use Rattle.ucd_points.specs.Fields.{field, trim, is_hash, is_semicolon};
ghost use Rattle.std.specs.List.{after_first, before_first, position_or_len};
ghost use Rattle.source_rows.specs.Fields.{fields_of};

use ucd_lines::{cut, trim};

/// What stands before the first `#`.
pub fn without_comment(content: &[u8]) -> &[u8]
    ensures { result.now ≡ before_first is_hash content.now }
{
    cut(content, b'#').0
}

/// How many `;` there are.
fn semicolon_count(text: &[u8]) -> usize
    ensures { result ≡ count_by is_semicolon text.now }
{
    text.iter().filter(|b| **b == b';').count()
}

/// How many fields there are, at least one.
pub fn field_count(text: &[u8]) -> usize
    ensures { result ≡ length (fields_of text.now) }
{
    semicolon_count(text) + 1
}

/// The first field, and the text of the fields behind it, which is empty if there are none.
pub fn first_field(text: &[u8]) -> (&[u8], &[u8])
    ensures first { result.0.now ≡ field (fields_of text.now) 0 }
    ensures others { (n : ℕ) → field (fields_of text.now) (n + 1)
        ≡ field (fields_of result.1.now) n }
    ensures one { length (fields_of text.now) ≡ 1 → fields_of text.now ≡ result.0.now ∷ [] }
    ensures more { 1 < length (fields_of text.now)
        → fields_of text.now ≡ result.0.now ∷ fields_of result.1.now }
    ensures fewer { count_by is_semicolon result.1.now ≡ count_by is_semicolon text.now - 1 }
{
    let (first, others) = cut(text, b';');
    (trim(first), others)
}

/// What stands before the first `;`, and what stands behind it. If there is none, the whole text and nothing. It goes
/// byte by byte, so it is quick if the `;` is near.
pub fn cut_at_near_semicolon(text: &[u8]) -> (&[u8], &[u8])
    ensures before { result.0.now ≡ before_first is_semicolon text.now }
    ensures after { result.1.now ≡ after_first is_semicolon text.now }
{
    for (i, b) in text.iter().enumerate() {
        if *b == b';' {
            return (&text[..i], &text[i + 1..]);
        }
    }
    (text, &[])
}

/// The text without white space at both ends. Most short fields are empty, and nothing is looked for in these.
fn trim_short(text: &[u8]) -> &[u8]
    ensures { result.now ≡ trim text.now }
{
    match text {
        [] => text,
        _ => trim(text),
    }
}

/// What [`first_field`] gives, for a field that is short or empty.
pub fn first_short_field(text: &[u8]) -> (&[u8], &[u8])
    ensures first { result.0.now ≡ field (fields_of text.now) 0 }
    ensures others { (n : ℕ) → field (fields_of text.now) (n + 1)
        ≡ field (fields_of result.1.now) n }
    ensures one { length (fields_of text.now) ≡ 1 → fields_of text.now ≡ result.0.now ∷ [] }
    ensures more { 1 < length (fields_of text.now)
        → fields_of text.now ≡ result.0.now ∷ fields_of result.1.now }
    ensures fewer { count_by is_semicolon result.1.now ≡ count_by is_semicolon text.now - 1 }
{
    let (first, others) = cut_at_near_semicolon(text);
    (trim_short(first), others)
}

/// The text of the fields behind the first ones, as many as `count`; it is empty if there are none.
pub fn behind_fields(text: &[u8], count: usize) -> &[u8]
    requires { 0 < count }
    ensures others { (n : ℕ) → field (fields_of text.now) (n + count)
        ≡ field (fields_of result.now) n }
    ensures fewer { count_by is_semicolon result.now ≡ count_by is_semicolon text.now - count }
{
    let mut left = count;
    for (i, b) in text.iter().enumerate() {
        if *b == b';' {
            left -= 1;
            if left == 0 {
                return &text[i + 1..];
            }
        }
    }
    &[]
}

/// The first two fields. A field that is not there is empty.
pub fn two_fields(text: &[u8]) -> (&[u8], &[u8])
    ensures first { result.0.now ≡ field (fields_of text.now) 0 }
    ensures second { result.1.now ≡ field (fields_of text.now) 1 }
{
    let (first, others) = first_field(text);
    let (second, _) = first_field(others);
    (first, second)
}

/// The first three fields. A field that is not there is empty.
pub fn three_fields(text: &[u8]) -> (&[u8], &[u8], &[u8])
    ensures first { result.0.now ≡ field (fields_of text.now) 0 }
    ensures second { result.1.now ≡ field (fields_of text.now) 1 }
    ensures third { result.2.now ≡ field (fields_of text.now) 2 }
{
    let (first, others) = first_field(text);
    let (second, third) = two_fields(others);
    (first, second, third)
}
