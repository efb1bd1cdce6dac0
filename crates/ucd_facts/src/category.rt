//! General categories.

ghost use Rattle.std.specs.Prelude.{◌≡◌, ◌<◌, slice_get};
ghost use Rattle.ucd_facts.specs.Enumerations.{categories};
ghost use Rattle.ucd_facts.specs.Names.{category_code};
ghost use Rattle.ucd_facts.specs.Predicates.{category_place};

use crate::enumeration::value_at;

/// The value of General_Category: the 29 that UnicodeData.txt names, and `Cn` of points without a row.
/// UAX #44, section 5.7.1, table 12.
#[derive(Clone, Copy, Debug, PartialEq, Eq)]
pub enum Category {
    /// Uppercase_Letter.
    Lu,
    /// Lowercase_Letter.
    Ll,
    /// Titlecase_Letter.
    Lt,
    /// Modifier_Letter.
    Lm,
    /// Other_Letter.
    Lo,
    /// Nonspacing_Mark.
    Mn,
    /// Spacing_Mark.
    Mc,
    /// Enclosing_Mark.
    Me,
    /// Decimal_Number.
    Nd,
    /// Letter_Number.
    Nl,
    /// Other_Number.
    No,
    /// Connector_Punctuation.
    Pc,
    /// Dash_Punctuation.
    Pd,
    /// Open_Punctuation.
    Ps,
    /// Close_Punctuation.
    Pe,
    /// Initial_Punctuation.
    Pi,
    /// Final_Punctuation.
    Pf,
    /// Other_Punctuation.
    Po,
    /// Math_Symbol.
    Sm,
    /// Currency_Symbol.
    Sc,
    /// Modifier_Symbol.
    Sk,
    /// Other_Symbol.
    So,
    /// Space_Separator.
    Zs,
    /// Line_Separator.
    Zl,
    /// Paragraph_Separator.
    Zp,
    /// Control.
    Cc,
    /// Format.
    Cf,
    /// Surrogate.
    Cs,
    /// Private_Use.
    Co,
    /// Unassigned: no row names it.
    Cn,
}

/// The categories, each at its place.
pub const CATEGORIES: [Category; 30] = [
    Category::Lu,
    Category::Ll,
    Category::Lt,
    Category::Lm,
    Category::Lo,
    Category::Mn,
    Category::Mc,
    Category::Me,
    Category::Nd,
    Category::Nl,
    Category::No,
    Category::Pc,
    Category::Pd,
    Category::Ps,
    Category::Pe,
    Category::Pi,
    Category::Pf,
    Category::Po,
    Category::Sm,
    Category::Sc,
    Category::Sk,
    Category::So,
    Category::Zs,
    Category::Zl,
    Category::Zp,
    Category::Cc,
    Category::Cf,
    Category::Cs,
    Category::Co,
    Category::Cn,
];

impl Category {
    /// The categories in the order of their places.
    pub fn all() -> &'static [Category]
        ensures { result.now ≡ categories }
    {
        &CATEGORIES
    }

    /// Its place in the order of UAX #44, section 5.7.1, table 12, from 0, with `Cn` last: 0 to 29.
    pub fn place(self) -> usize
        ensures place { result ≡ category_place self }
        ensures below { result < 30 }
    {
        self as usize
    }

    /// The category at a place; `None` past 29.
    pub fn at(place: usize) -> Option<Category>
        ensures { result ≡ slice_get categories place }
    {
        value_at(Category::all(), place)
    }

    /// The two letters that name it. UAX #44, section 5.7.1, table 12.
    pub fn code(self) -> &'static [u8]
        ensures { result.now ≡ category_code self }
    {
        match self {
            Category::Lu => b"Lu",
            Category::Ll => b"Ll",
            Category::Lt => b"Lt",
            Category::Lm => b"Lm",
            Category::Lo => b"Lo",
            Category::Mn => b"Mn",
            Category::Mc => b"Mc",
            Category::Me => b"Me",
            Category::Nd => b"Nd",
            Category::Nl => b"Nl",
            Category::No => b"No",
            Category::Pc => b"Pc",
            Category::Pd => b"Pd",
            Category::Ps => b"Ps",
            Category::Pe => b"Pe",
            Category::Pi => b"Pi",
            Category::Pf => b"Pf",
            Category::Po => b"Po",
            Category::Sm => b"Sm",
            Category::Sc => b"Sc",
            Category::Sk => b"Sk",
            Category::So => b"So",
            Category::Zs => b"Zs",
            Category::Zl => b"Zl",
            Category::Zp => b"Zp",
            Category::Cc => b"Cc",
            Category::Cf => b"Cf",
            Category::Cs => b"Cs",
            Category::Co => b"Co",
            Category::Cn => b"Cn",
        }
    }
}
