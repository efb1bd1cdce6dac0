//! Cuts a line of UnicodeData.txt into its 15 fields. UAX #44, section 5.3, table 9.

ghost use Rattle.std.specs.Prelude.{◌≡◌, length};
ghost use Rattle.source_rows.specs.Fields.{fields_of, fields_in};

use crate::fields::{first_field, first_short_field};

/// The number of fields of a line.
pub const FIELDS: usize = 15;

/// The fields of a line, each a part of it.
#[derive(Clone, Copy)]
pub struct DataFields<'a> {
    /// Code point.
    pub f0: &'a [u8],
    /// Name.
    pub f1: &'a [u8],
    /// General_Category.
    pub f2: &'a [u8],
    /// Canonical_Combining_Class.
    pub f3: &'a [u8],
    /// Bidi_Class.
    pub f4: &'a [u8],
    /// Decomposition_Type and Decomposition_Mapping.
    pub f5: &'a [u8],
    /// Numeric_Value if Numeric_Type is Decimal.
    pub f6: &'a [u8],
    /// Numeric_Value if Numeric_Type is Decimal or Digit.
    pub f7: &'a [u8],
    /// Numeric_Value.
    pub f8: &'a [u8],
    /// Bidi_Mirrored.
    pub f9: &'a [u8],
    /// Unicode_1_Name.
    pub f10: &'a [u8],
    /// ISO_Comment.
    pub f11: &'a [u8],
    /// Simple_Uppercase_Mapping.
    pub f12: &'a [u8],
    /// Simple_Lowercase_Mapping.
    pub f13: &'a [u8],
    /// Simple_Titlecase_Mapping.
    pub f14: &'a [u8],
}

/// The 15 fields of a text.
pub fn fifteen_fields(text: &[u8]) -> DataFields<'_>
    requires { length (fields_of text.now) ≡ 15 }
    ensures { fields_in result ≡ fields_of text.now }
{
    let (f0, rest) = first_short_field(text);
    let (f1, rest) = first_field(rest);
    let (f2, rest) = first_short_field(rest);
    let (f3, rest) = first_short_field(rest);
    let (f4, rest) = first_short_field(rest);
    let (f5, rest) = first_short_field(rest);
    let (f6, rest) = first_short_field(rest);
    let (f7, rest) = first_short_field(rest);
    let (f8, rest) = first_short_field(rest);
    let (f9, rest) = first_short_field(rest);
    let (f10, rest) = first_short_field(rest);
    let (f11, rest) = first_short_field(rest);
    let (f12, rest) = first_short_field(rest);
    let (f13, rest) = first_short_field(rest);
    let (f14, _) = first_short_field(rest);
    DataFields {
        f0,
        f1,
        f2,
        f3,
        f4,
        f5,
        f6,
        f7,
        f8,
        f9,
        f10,
        f11,
        f12,
        f13,
        f14,
    }
}
