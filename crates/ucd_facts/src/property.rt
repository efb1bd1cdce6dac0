//! Properties.

ghost use Rattle.std.specs.Prelude.{◌≡◌, ◌<◌, slice_get};
ghost use Rattle.ucd_facts.specs.Enumerations.{flags};
ghost use Rattle.ucd_facts.specs.Names.{core_name, flag_name};
ghost use Rattle.ucd_facts.specs.Predicates.{core_properties};
ghost use Rattle.ucd_facts.specs.Sets.{core_place, flag_place};

use crate::enumeration::value_at;

/// A core property: a section of DerivedCoreProperties.txt, in the order of the file.
/// UAX #44, section 5.3.
#[derive(Clone, Copy, Debug, PartialEq, Eq)]
pub enum Core {
    /// Math.
    Math,
    /// Alphabetic.
    Alphabetic,
    /// Lowercase.
    Lowercase,
    /// Uppercase.
    Uppercase,
    /// Cased.
    Cased,
    /// Case_Ignorable.
    CaseIgnorable,
    /// Changes_When_Lowercased.
    ChangesWhenLowercased,
    /// Changes_When_Uppercased.
    ChangesWhenUppercased,
    /// Changes_When_Titlecased.
    ChangesWhenTitlecased,
    /// Changes_When_Casefolded.
    ChangesWhenCasefolded,
    /// Changes_When_Casemapped.
    ChangesWhenCasemapped,
    /// ID_Start.
    IdStart,
    /// ID_Continue.
    IdContinue,
    /// XID_Start.
    XidStart,
    /// XID_Continue.
    XidContinue,
    /// Default_Ignorable_Code_Point.
    DefaultIgnorableCodePoint,
    /// Grapheme_Extend.
    GraphemeExtend,
    /// Grapheme_Base.
    GraphemeBase,
    /// Grapheme_Link.
    GraphemeLink,
}

/// A property of PropList.txt that the facts of a code point have: those from which core properties are derived, and
/// Noncharacter_Code_Point. UAX #44, section 5.3.
#[derive(Clone, Copy, Debug, PartialEq, Eq)]
pub enum Flag {
    /// White_Space.
    WhiteSpace,
    /// Other_Math.
    OtherMath,
    /// Other_Lowercase.
    OtherLowercase,
    /// Other_Uppercase.
    OtherUppercase,
    /// Other_Alphabetic.
    OtherAlphabetic,
    /// Other_ID_Start.
    OtherIdStart,
    /// Other_ID_Continue.
    OtherIdContinue,
    /// Pattern_Syntax.
    PatternSyntax,
    /// Pattern_White_Space.
    PatternWhiteSpace,
    /// Other_Default_Ignorable_Code_Point.
    OtherDefaultIgnorableCodePoint,
    /// Variation_Selector.
    VariationSelector,
    /// Prepended_Concatenation_Mark.
    PrependedConcatenationMark,
    /// Other_Grapheme_Extend.
    OtherGraphemeExtend,
    /// Noncharacter_Code_Point.
    NoncharacterCodePoint,
}

/// The core properties, each at its place.
pub const CORE_PROPERTIES: [Core; 19] = [
    Core::Math,
    Core::Alphabetic,
    Core::Lowercase,
    Core::Uppercase,
    Core::Cased,
    Core::CaseIgnorable,
    Core::ChangesWhenLowercased,
    Core::ChangesWhenUppercased,
    Core::ChangesWhenTitlecased,
    Core::ChangesWhenCasefolded,
    Core::ChangesWhenCasemapped,
    Core::IdStart,
    Core::IdContinue,
    Core::XidStart,
    Core::XidContinue,
    Core::DefaultIgnorableCodePoint,
    Core::GraphemeExtend,
    Core::GraphemeBase,
    Core::GraphemeLink,
];

/// The properties of PropList.txt that facts have, each at its place.
pub const FLAGS: [Flag; 14] = [
    Flag::WhiteSpace,
    Flag::OtherMath,
    Flag::OtherLowercase,
    Flag::OtherUppercase,
    Flag::OtherAlphabetic,
    Flag::OtherIdStart,
    Flag::OtherIdContinue,
    Flag::PatternSyntax,
    Flag::PatternWhiteSpace,
    Flag::OtherDefaultIgnorableCodePoint,
    Flag::VariationSelector,
    Flag::PrependedConcatenationMark,
    Flag::OtherGraphemeExtend,
    Flag::NoncharacterCodePoint,
];

impl Core {
    /// The core properties in the order of their places.
    pub fn all() -> &'static [Core]
        ensures { result.now ≡ core_properties }
    {
        &CORE_PROPERTIES
    }

    /// Its place in the order of `Core`, from 0: 0 to 18.
    pub fn place(self) -> usize
        ensures place { result ≡ core_place self }
        ensures below { result < 19 }
    {
        self as usize
    }

    /// The property at a place; `None` past 18.
    pub fn at(place: usize) -> Option<Core>
        ensures { result ≡ slice_get core_properties place }
    {
        value_at(Core::all(), place)
    }

    /// Its name in DerivedCoreProperties.txt. UAX #44, section 5.3.
    pub fn name(self) -> &'static [u8]
        ensures { result.now ≡ core_name self }
    {
        match self {
            Core::Math => b"Math",
            Core::Alphabetic => b"Alphabetic",
            Core::Lowercase => b"Lowercase",
            Core::Uppercase => b"Uppercase",
            Core::Cased => b"Cased",
            Core::CaseIgnorable => b"Case_Ignorable",
            Core::ChangesWhenLowercased => b"Changes_When_Lowercased",
            Core::ChangesWhenUppercased => b"Changes_When_Uppercased",
            Core::ChangesWhenTitlecased => b"Changes_When_Titlecased",
            Core::ChangesWhenCasefolded => b"Changes_When_Casefolded",
            Core::ChangesWhenCasemapped => b"Changes_When_Casemapped",
            Core::IdStart => b"ID_Start",
            Core::IdContinue => b"ID_Continue",
            Core::XidStart => b"XID_Start",
            Core::XidContinue => b"XID_Continue",
            Core::DefaultIgnorableCodePoint => b"Default_Ignorable_Code_Point",
            Core::GraphemeExtend => b"Grapheme_Extend",
            Core::GraphemeBase => b"Grapheme_Base",
            Core::GraphemeLink => b"Grapheme_Link",
        }
    }
}

impl Flag {
    /// The properties in the order of their places.
    pub fn all() -> &'static [Flag]
        ensures { result.now ≡ flags }
    {
        &FLAGS
    }

    /// Its place in the order of `Flag`, from 0: 0 to 13.
    pub fn place(self) -> usize
        ensures place { result ≡ flag_place self }
        ensures below { result < 14 }
    {
        self as usize
    }

    /// The property at a place; `None` past 13.
    pub fn at(place: usize) -> Option<Flag>
        ensures { result ≡ slice_get flags place }
    {
        value_at(Flag::all(), place)
    }

    /// Its name in PropList.txt. UAX #44, section 5.3.
    pub fn name(self) -> &'static [u8]
        ensures { result.now ≡ flag_name self }
    {
        match self {
            Flag::WhiteSpace => b"White_Space",
            Flag::OtherMath => b"Other_Math",
            Flag::OtherLowercase => b"Other_Lowercase",
            Flag::OtherUppercase => b"Other_Uppercase",
            Flag::OtherAlphabetic => b"Other_Alphabetic",
            Flag::OtherIdStart => b"Other_ID_Start",
            Flag::OtherIdContinue => b"Other_ID_Continue",
            Flag::PatternSyntax => b"Pattern_Syntax",
            Flag::PatternWhiteSpace => b"Pattern_White_Space",
            Flag::OtherDefaultIgnorableCodePoint => b"Other_Default_Ignorable_Code_Point",
            Flag::VariationSelector => b"Variation_Selector",
            Flag::PrependedConcatenationMark => b"Prepended_Concatenation_Mark",
            Flag::OtherGraphemeExtend => b"Other_Grapheme_Extend",
            Flag::NoncharacterCodePoint => b"Noncharacter_Code_Point",
        }
    }
}
