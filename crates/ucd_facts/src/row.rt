//! Rows: what a line of a source file stands for.

ghost use Rattle.std.specs.Prelude.{◌≡◌};
ghost use Rattle.ucd_facts.specs.Names.{status_code};
ghost use Rattle.ucd_facts.specs.RowSpans.{span_in};

use crate::category::Category;
use crate::decomposition::Kind;
use ucd_points::{Point, Points, Span, Text, Texts};

/// Fields 4 and 6 to 11 of a row of UnicodeData.txt, which are kept as they stand, without white space around them,
/// and are not tested. UAX #44, section 5.3, table 9.
#[derive(Debug, Drop)]
pub struct OtherFields {
    /// Field 4, Bidi_Class.
    pub f4: Text,
    /// Field 6, Numeric_Value if Numeric_Type is Decimal.
    pub f6: Text,
    /// Field 7, Numeric_Value if Numeric_Type is Decimal or Digit.
    pub f7: Text,
    /// Field 8, Numeric_Value.
    pub f8: Text,
    /// Field 9, Bidi_Mirrored.
    pub f9: Text,
    /// Field 10, Unicode_1_Name.
    pub f10: Text,
    /// Field 11, ISO_Comment.
    pub f11: Text,
}

/// A row of UnicodeData.txt. UAX #44, section 5.3, table 9.
#[derive(Debug, Drop)]
pub struct DataRow {
    /// Field 0: the one code point of a line, or those of a range.
    pub span: Span,
    /// Whether the row is a pair of lines, `<Label, First>` and `<Label, Last>`; `name` is then the label.
    pub range: bool,
    /// Field 1, Name.
    pub name: Text,
    /// Field 2, General_Category; never `Cn` of a row that was read.
    pub category: Category,
    /// Field 3, Canonical_Combining_Class: 0 to 254.
    pub class: u8,
    /// Field 5, Decomposition_Type; `Plain` if the field is empty.
    pub kind: Kind,
    /// Field 5, Decomposition_Mapping: one or two code points for a canonical one, else up to 64; none for `Plain`.
    pub mapping: Points,
    /// Field 12, Simple_Uppercase_Mapping; `None` if the field is empty.
    pub upper: Option<Point>,
    /// Field 13, Simple_Lowercase_Mapping; `None` if the field is empty.
    pub lower: Option<Point>,
    /// Field 14, Simple_Titlecase_Mapping; `None` if the field is empty.
    pub title: Option<Point>,
    /// The other fields.
    pub kept: OtherFields,
}

/// A row that gives the points of a span a value: PropList.txt, Scripts.txt, WordBreakProperty.txt.
/// UAX #44, section 4.2.
#[derive(Debug, Drop)]
pub struct ValueRow {
    /// The code points.
    pub span: Span,
    /// In PropList.txt the name of a property that they have, else that of their Script or Word_Break.
    pub value: Text,
}

/// A row of CompositionExclusions.txt. UAX #15, section 5.
#[derive(Clone, Copy, Debug)]
pub struct ExclusionRow {
    /// The code points that are excluded from composition.
    pub span: Span,
}

/// The status of a folding, as the head of CaseFolding.txt has it.
#[derive(Clone, Copy, Debug, PartialEq, Eq)]
pub enum FoldStatus {
    /// Common: of the full and of the simple folding.
    C,
    /// Full: of the full folding alone.
    F,
    /// Simple: of the simple folding alone, if it differs from the full one.
    S,
    /// Turkic: for Turkic languages alone. The facts leave it out.
    T,
}

impl FoldStatus {
    /// The letter that names it in CaseFolding.txt.
    pub fn letter(self) -> u8
        ensures { result ≡ status_code self }
    {
        match self {
            FoldStatus::C => b'C',
            FoldStatus::F => b'F',
            FoldStatus::S => b'S',
            FoldStatus::T => b'T',
        }
    }
}

/// A row of CaseFolding.txt. The Unicode Standard, section 5.18, and the head of the file.
#[derive(Debug, Drop)]
pub struct FoldRow {
    /// The code point that is folded.
    pub code: Point,
    /// Which folding it is.
    pub status: FoldStatus,
    /// What it is folded to: one code point with status C or S, else 1 to 64.
    pub mapping: Points,
}

/// A row of SpecialCasing.txt. The Unicode Standard, section 5.18, and the head of the file.
#[derive(Debug, Drop)]
pub struct CasingRow {
    /// The code point that is mapped.
    pub code: Point,
    /// Its full lower case mapping: 0 to 64 code points.
    pub lower: Points,
    /// Its full title case mapping: 0 to 64 code points.
    pub title: Points,
    /// Its full upper case mapping: 0 to 64 code points.
    pub upper: Points,
    /// The conditions, with one space between words; empty if there are none.
    pub conditions: Text,
}

/// A row of PropertyAliases.txt or PropertyValueAliases.txt. UAX #44, section 5.8.
#[derive(Debug, Drop)]
pub struct AliasRow {
    /// The fields: two or more in PropertyAliases.txt, three or more in PropertyValueAliases.txt. Those after the first
    /// may be empty.
    pub names: Texts,
}

/// A row of any source file.
#[derive(Debug, Drop)]
pub enum Row {
    /// Of UnicodeData.txt: a line, or the two lines of a range.
    Unit(DataRow),
    /// Of PropList.txt, Scripts.txt or WordBreakProperty.txt.
    Value(ValueRow),
    /// Of CompositionExclusions.txt.
    Exclusion(ExclusionRow),
    /// Of CaseFolding.txt.
    Fold(FoldRow),
    /// Of SpecialCasing.txt.
    Casing(CasingRow),
    /// Of PropertyAliases.txt or PropertyValueAliases.txt.
    Alias(AliasRow),
    /// A line `# @missing:` of Scripts.txt or WordBreakProperty.txt: the value of the code points that no other row
    /// covers. If several cover a code point, the last one counts. UAX #44, section 4.2.10.
    Missing(ValueRow),
}

impl Row {
    /// The code points that the row speaks of; `None` for a row of names.
    pub fn span(&self) -> Option<Span>
        ensures { result ≡ span_in self.now }
    {
        match self {
            Row::Unit(row) => Some(row.span),
            Row::Value(row) => Some(row.span),
            Row::Exclusion(row) => Some(row.span),
            Row::Fold(row) => Some(Span::one(row.code)),
            Row::Casing(row) => Some(Span::one(row.code)),
            Row::Alias(_) => None,
            Row::Missing(row) => Some(row.span),
        }
    }
}
