//! Properties, and tests of code points by them.

use ucd_facts::{Category, Core, Form, Kind, Quick};

/// A group of categories. UAX #44, section 5.7.1, table 12.
#[derive(Clone, Copy, Debug, PartialEq, Eq)]
pub enum Group {
    /// Letter: Lu Ll Lt Lm Lo.
    L,
    /// Cased_Letter: Lu Ll Lt.
    LC,
    /// Mark: Mn Mc Me.
    M,
    /// Number: Nd Nl No.
    N,
    /// Punctuation: Pc Pd Ps Pe Pi Pf Po.
    P,
    /// Symbol: Sm Sc Sk So.
    S,
    /// Separator: Zs Zl Zp.
    Z,
    /// Other: Cc Cf Cs Co Cn.
    C,
}

/// A property of code points. UAX #44, section 5.1.
#[derive(Clone, Copy, Debug, PartialEq, Eq)]
pub enum Property {
    /// General_Category.
    Category,
    /// Script.
    Script,
    /// Canonical_Combining_Class.
    Class,
    /// Decomposition_Type.
    Decomposition,
    /// Word_Break.
    WordBreak,
    /// The quick check of a normalisation form.
    Quick(Form),
    /// A core property.
    Core(Core),
    /// Full_Composition_Exclusion.
    Exclusion,
    /// Changes_When_NFKC_Casefolded.
    ChangesCasefold,
    /// A property of PropList.txt, by its number in order of first appearance.
    Listed(u64),
}

/// A test of a code point.
#[derive(Clone, Copy, PartialEq, Eq)]
pub enum Test {
    /// Every code point passes.
    Any,
    /// 0000 to 007F pass.
    Ascii,
    /// Those that a row of UnicodeData.txt covers pass.
    Assigned,
    /// Those of a category of the group pass.
    Group(Group),
    /// Those of the category pass.
    Category(Category),
    /// Those of the Script with this number pass; 0 is Unknown.
    Script(u64),
    /// Those of the Canonical_Combining_Class pass.
    Class(u8),
    /// Those of the kind of decomposition pass.
    Decomposition(Kind),
    /// Those of the Word_Break with this number pass; 0 is Other.
    WordBreak(u64),
    /// Those with this value of the quick check pass.
    Quick(Form, Quick),
    /// Those that have the core property, or have it not, pass.
    Core(Core, bool),
    /// Those that have Full_Composition_Exclusion, or have it not, pass.
    Exclusion(bool),
    /// Those that have Changes_When_NFKC_Casefolded, or have it not, pass.
    ChangesCasefold(bool),
    /// Those that have the property of PropList.txt with this number, or have it not, pass.
    Listed(u64, bool),
}
