//! Cuts what stands behind the name in a line of UnicodeData.txt into the fields that give values. UAX #44, section 5.3,
//! table 9.

ghost use Rattle.std.specs.Prelude.{◌≡◌, ◌≢◌, ◌↔◌, length, codes, IsTrue, MatchOption};
ghost use Rattle.source_rows.specs.Fields.{fields_of};
ghost use Rattle.source_rows.specs.PointValues.{HasCaseFields, HasUsedFields};

use crate::fields::{behind_fields, cut_at_near_semicolon, field_count, first_short_field};

/// The fields behind the name that are read, each a part of the line. Fields 4 and 6 to 11 are passed over.
#[derive(Clone, Copy)]
pub struct UsedFields<'a> {
    /// General_Category.
    pub f2: &'a [u8],
    /// Canonical_Combining_Class.
    pub f3: &'a [u8],
    /// Decomposition_Type and Decomposition_Mapping.
    pub f5: &'a [u8],
    /// Simple_Uppercase_Mapping.
    pub f12: &'a [u8],
    /// Simple_Lowercase_Mapping.
    pub f13: &'a [u8],
    /// Simple_Titlecase_Mapping.
    pub f14: &'a [u8],
}

/// The fields of a line with its simple case mappings, the last three.
#[derive(Clone, Copy)]
struct CaseFields<'a> {
    f12: &'a [u8],
    f13: &'a [u8],
    f14: &'a [u8],
}

/// Whether a line ends behind field 5 as most do: with no numeric value, not mirrored, and with no simple case mapping. The
/// last eight bytes are compared at once.
fn is_usual_end(text: &[u8]) -> bool
    ensures { IsTrue result ↔ (text.now ≡ codes ";;;N;;;;;") }
{
    match text {
        [b';', others @ ..] => others == b";;N;;;;;".as_slice(),
        _ => false,
    }
}

/// The case fields of the text behind field 5. `None` exactly if it does not hold fields 6 to 14.
fn case_fields(text: &[u8]) -> Option<CaseFields<'_>>
    ensures { MatchOption result (length (fields_of text.now) ≢ 9)
        (λ line. HasCaseFields line (fields_of text.now)) }
{
    if is_usual_end(text) {
        return Some(CaseFields {
            f12: &[],
            f13: &[],
            f14: &[],
        });
    }
    let rest = behind_fields(text, 6);
    if field_count(rest) != 3 {
        return None;
    }
    let (f12, rest) = first_short_field(rest);
    let (f13, rest) = first_short_field(rest);
    let (f14, _) = first_short_field(rest);
    Some(CaseFields { f12, f13, f14 })
}

/// The fields that are read of the text behind a name. `None` exactly if it does not hold fields 2 to 14.
pub fn used_fields(tail: &[u8]) -> Option<UsedFields<'_>>
    ensures { MatchOption result (length (fields_of tail.now) ≢ 13)
        (λ line. HasUsedFields line (fields_of tail.now)) }
{
    let (f2, rest) = first_short_field(tail);
    let (f3, rest) = first_short_field(rest);
    let (_, rest) = cut_at_near_semicolon(rest);
    let (f5, rest) = first_short_field(rest);
    let CaseFields { f12, f13, f14 } = case_fields(rest)?;
    Some(UsedFields {
        f2,
        f3,
        f5,
        f12,
        f13,
        f14,
    })
}
