//! Compares the names in the key of a row with others, in the content of the row and without a copy.

ghost use Rattle.std.specs.Prelude.{◌≡◌, List, ℕ, [], ◌∷◌, take, drop, length, if◌then◌else◌};
ghost use Rattle.std.specs.Cmp.Lexicographic.{slice_cmp};
ghost use Rattle.std.specs.List.{before_first};
ghost use Rattle.std.specs.Ordering.{nat_cmp, ordering_then};
ghost use Rattle.ucd_points.specs.Fields.{fields, field, is_hash, span_of};
ghost use Rattle.ucd_points.specs.HexText.{hex_text};
ghost use Rattle.ucd_points.specs.MissingLines.{is_missing};
ghost use Rattle.ucd_facts.specs.Mappings.{spaced_words};
ghost use Rattle.source_rows.specs.Fields.{fields_of, row_fields};
ghost use Rattle.source_rows.specs.Keys.{condition_names, missing_names};
ghost use Rattle.source_rows.specs.KeyNames.{content_group, content_names, names_cmp, no_value, span_names};

use crate::code_point::span_of;
use crate::fields::{first_field, two_fields, without_comment};
use crate::mapping::cut_at_first_blank;
use crate::special_casing::conditions_field;
use std::cmp::Ordering;
use ucd_facts::{Point, SourceFile, Text};
use ucd_lines::{Fields, compare_hex, missing_rest};

/// How the first bytes of a text, as many as a part has, compare with the part; and the bytes behind them.
fn compare_prefix<'a>(text: &'a [u8], part: &[u8]) -> (Ordering, &'a [u8])
    ensures order { result.0 ≡ slice_cmp nat_cmp (take (length part.now) text.now) part.now }
    ensures rest { result.1.now ≡ drop (length part.now) text.now }
{
    if text.len() <= part.len() {
        return (text.cmp(part), &[]);
    }
    (text[..part.len()].cmp(part), &text[part.len()..])
}

/// How a text compares with the words of another one, with one space between them.
pub fn compare_spaced(expected: &[u8], text: &[u8]) -> Ordering
    ensures { result ≡ slice_cmp nat_cmp expected.now (spaced_words text.now) }
{
    let mut left = expected;
    let mut rest = text;
    let mut gap = b"".as_slice();
    'words: while !rest.is_empty() {
        let (word, behind) = cut_at_first_blank(rest);
        rest = behind;
        if word.is_empty() {
            continue;
        }
        let (order, behind_gap) = compare_prefix(left, gap);
        if order.is_ne() {
            return order;
        }
        let (order, behind_word) = compare_prefix(behind_gap, word);
        if order.is_ne() {
            return order;
        }
        left = behind_word;
        gap = b" ".as_slice();
    }
    match left {
        [] => Ordering::Equal,
        [_, ..] => Ordering::Greater,
    }
}

/// How names compare with no names.
fn compare_none(names: &[Text]) -> Ordering
    ensures { result ≡ names_cmp names.now [] }
{
    match names {
        [] => Ordering::Equal,
        [_, ..] => Ordering::Greater,
    }
}

/// How the first name compares with another, less if there is no name; and the names behind it.
fn compare_first<'a>(names: &'a [Text], name: &[u8]) -> (Ordering, &'a [Text])
    ensures { (more : List (List ℕ))
        → names_cmp names.now (name.now ∷ more)
        ≡ ordering_then result.0 (names_cmp result.1.now more) }
{
    match names {
        [] => (Ordering::Less, names),
        [first, others @ ..] => (first.as_slice().cmp(name), others),
    }
}

/// How names compare with one name.
fn compare_one(names: &[Text], name: &[u8]) -> Ordering
    ensures { result ≡ names_cmp names.now (name.now ∷ []) }
{
    let (order, others) = compare_first(names, name);
    order.then(compare_none(others))
}

/// How names compare with the digits of a code point as one name.
fn compare_point(names: &[Text], c: Point) -> Ordering
    ensures { result ≡ names_cmp names.now (hex_text c ∷ []) }
{
    match names {
        [] => Ordering::Less,
        [first, others @ ..] => compare_hex(first.as_slice(), c).then(compare_none(others)),
    }
}

/// How names compare with those in the key of a missing row whose span ends with this code point.
fn compare_missing(names: &[Text], last: Point) -> Ordering
    ensures { result ≡ names_cmp names.now (missing_names last) }
{
    let (order, others) = compare_first(names, b"@missing");
    order.then(compare_point(others, last))
}

/// How names compare with those in the key of a row of Scripts.txt or WordBreakProperty.txt, which has none unless the
/// row is a missing row.
fn compare_value(file: SourceFile, names: &[Text], content: &[u8]) -> Ordering
    ensures { result ≡ names_cmp names.now
        (if is_missing file content.now then span_names
        (span_of (field (row_fields file content.now) 0)) else []) }
{
    let Some(rest) = missing_rest(file, content) else {
        return compare_none(names);
    };
    match span_of(first_field(without_comment(rest)).0) {
        Some(span) => compare_missing(names, span.hi),
        None => compare_none(names),
    }
}

/// How names compare with conditions as one name, or with no name if there are no conditions.
fn compare_conditions(names: &[Text], text: &[u8]) -> Ordering
    ensures { result ≡ names_cmp names.now (condition_names (spaced_words text.now)) }
{
    let none = compare_spaced(&[], text);
    match names {
        [] => none,
        [first, others @ ..] => {
            if none.is_eq() {
                return Ordering::Greater;
            }
            compare_spaced(first.as_slice(), text).then(compare_none(others))
        }
    }
}

/// How names compare with the first fields of a line, as many as there are up to the count.
fn compare_fields(names: &[Text], count: usize, fields: Fields<'_>) -> Ordering
    ensures { result ≡ names_cmp names.now (take count fields.entry) }
{
    let mut fields = fields;
    let mut left = names;
    let mut count = count;
    'names: while count > 0 {
        let Some(field) = fields.next() else {
            return compare_none(left);
        };
        let (order, others) = compare_first(left, field);
        if order.is_ne() {
            return order;
        }
        left = others;
        count -= 1;
    }
    compare_none(left)
}

/// The second field of a line of a file other than UnicodeData.txt.
fn second_field(content: &[u8]) -> &[u8]
    ensures { result.now ≡ field (fields_of (before_first is_hash content.now)) 1 }
{
    two_fields(without_comment(content)).1
}

/// How names compare with those in the key of a row that stands in this content of the file. It takes no memory.
///
/// Names are compared one after the other, each by its bytes.
#[tactic(auto, unfolding(ucd_points::specs::Fields::fields, ucd_points::specs::MissingLines::missing_rest))]
pub fn compare_names(file: SourceFile, names: &[Text], content: &[u8]) -> Ordering
    ensures { result ≡ names_cmp names.now (content_names file content.now) }
{
    match file {
        SourceFile::PropList | SourceFile::CaseFolding => compare_one(names, second_field(content)),
        SourceFile::Scripts | SourceFile::WordBreakProperty => compare_value(file, names, content),
        SourceFile::SpecialCasing => {
            compare_conditions(names, conditions_field(without_comment(content)))
        }
        SourceFile::PropertyAliases => {
            compare_fields(
                names,
                2,
                ucd_lines::fields(SourceFile::PropertyAliases, content),
            )
        }
        SourceFile::PropertyValueAliases => {
            compare_fields(
                names,
                3,
                ucd_lines::fields(SourceFile::PropertyValueAliases, content),
            )
        }
        _ => compare_none(names),
    }
}

/// The value of a row of Scripts.txt or WordBreakProperty.txt; for a missing row `#`, which is in no value.
fn value_section(file: SourceFile, content: &[u8]) -> &[u8]
    ensures { result.now ≡ (if is_missing file content.now then no_value else field
        (row_fields file content.now) 1) }
{
    match missing_rest(file, content) {
        Some(_) => b"#",
        None => second_field(content),
    }
}

/// The name of the group of a row that stands in this content of the file: the value in PropList.txt, Scripts.txt and
/// WordBreakProperty.txt, but `#` for a missing row; the property in PropertyValueAliases.txt; nothing in the other
/// files. It takes no memory.
#[tactic(auto, unfolding(ucd_points::specs::Fields::fields, ucd_points::specs::MissingLines::missing_rest))]
pub fn content_section(file: SourceFile, content: &[u8]) -> &[u8]
    ensures { result.now ≡ content_group file content.now }
{
    match file {
        SourceFile::PropList => second_field(content),
        SourceFile::Scripts | SourceFile::WordBreakProperty => value_section(file, content),
        SourceFile::PropertyValueAliases => first_field(without_comment(content)).0,
        _ => &[],
    }
}
