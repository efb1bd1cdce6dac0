//! Kinds of decomposition mappings.

ghost use Rattle.std.specs.Prelude.{◌≡◌, ◌<◌, slice_get};
ghost use Rattle.ucd_facts.specs.Expansion.{counts, is_compat};
ghost use Rattle.ucd_facts.specs.Enumerations.{tags, place_of_tag, kinds, place_of_kind};
ghost use Rattle.ucd_facts.specs.Names.{tag_name, tag_text};

use crate::enumeration::value_at;

/// The tag of a compatibility mapping. UAX #44, section 5.7.3, table 14.
#[derive(Clone, Copy, Debug, PartialEq, Eq)]
pub enum Tag {
    /// `<font>`: a variant of the font.
    Font,
    /// `<noBreak>`: a space or hyphen without a break.
    NoBreak,
    /// `<initial>`: an initial presentation form.
    Initial,
    /// `<medial>`: a medial presentation form.
    Medial,
    /// `<final>`: a final presentation form.
    Final,
    /// `<isolated>`: an isolated presentation form.
    Isolated,
    /// `<circle>`: an encircled form.
    Circle,
    /// `<super>`: a superscript form.
    Super,
    /// `<sub>`: a subscript form.
    Sub,
    /// `<vertical>`: a presentation form for vertical layout.
    Vertical,
    /// `<wide>`: a wide compatibility character.
    Wide,
    /// `<narrow>`: a narrow compatibility character.
    Narrow,
    /// `<small>`: a small variant form.
    Small,
    /// `<square>`: a squared variant of a CJK font.
    Square,
    /// `<fraction>`: a vulgar fraction form.
    Fraction,
    /// `<compat>`: any other compatibility character.
    Compat,
}

/// Whether a code point has a decomposition mapping, and of which kind. UAX #44, section 5.7.3.
#[derive(Clone, Copy, Debug, PartialEq, Eq)]
pub enum Kind {
    /// There is no mapping.
    Plain,
    /// A canonical mapping: one without a tag, or that of a Hangul syllable.
    Canonical,
    /// A compatibility mapping, with its tag.
    Compat(Tag),
}

/// The tags, each at its place.
pub const TAGS: [Tag; 16] = [
    Tag::Font,
    Tag::NoBreak,
    Tag::Initial,
    Tag::Medial,
    Tag::Final,
    Tag::Isolated,
    Tag::Circle,
    Tag::Super,
    Tag::Sub,
    Tag::Vertical,
    Tag::Wide,
    Tag::Narrow,
    Tag::Small,
    Tag::Square,
    Tag::Fraction,
    Tag::Compat,
];

impl Tag {
    /// The tags in the order of their places.
    pub fn all() -> &'static [Tag]
        ensures { result.now ≡ tags }
    {
        &TAGS
    }

    /// Its place in the order of UAX #44, section 5.7.3, table 14, from 0: 0 to 15.
    pub fn place(self) -> usize
        ensures place { result ≡ place_of_tag self }
        ensures below { result < 16 }
    {
        self as usize
    }

    /// The tag at a place; `None` past 15.
    pub fn at(place: usize) -> Option<Tag>
        ensures { result ≡ slice_get tags place }
    {
        value_at(Tag::all(), place)
    }

    /// Its name, a value of Decomposition_Type. UAX #44, section 5.7.3, table 14.
    pub fn name(self) -> &'static [u8]
        ensures { result.now ≡ tag_name self }
    {
        match self {
            Tag::Font => b"font",
            Tag::NoBreak => b"noBreak",
            Tag::Initial => b"initial",
            Tag::Medial => b"medial",
            Tag::Final => b"final",
            Tag::Isolated => b"isolated",
            Tag::Circle => b"circle",
            Tag::Super => b"super",
            Tag::Sub => b"sub",
            Tag::Vertical => b"vertical",
            Tag::Wide => b"wide",
            Tag::Narrow => b"narrow",
            Tag::Small => b"small",
            Tag::Square => b"square",
            Tag::Fraction => b"fraction",
            Tag::Compat => b"compat",
        }
    }

    /// Its name between `<` and `>`, as UnicodeData.txt has it.
    pub fn text(self) -> &'static [u8]
        ensures { result.now ≡ tag_text self }
    {
        match self {
            Tag::Font => b"<font>",
            Tag::NoBreak => b"<noBreak>",
            Tag::Initial => b"<initial>",
            Tag::Medial => b"<medial>",
            Tag::Final => b"<final>",
            Tag::Isolated => b"<isolated>",
            Tag::Circle => b"<circle>",
            Tag::Super => b"<super>",
            Tag::Sub => b"<sub>",
            Tag::Vertical => b"<vertical>",
            Tag::Wide => b"<wide>",
            Tag::Narrow => b"<narrow>",
            Tag::Small => b"<small>",
            Tag::Square => b"<square>",
            Tag::Fraction => b"<fraction>",
            Tag::Compat => b"<compat>",
        }
    }
}

impl Kind {
    /// Its place: 0 for `Plain`, 1 for `Canonical`, and 2 more than the tag's place for a compatibility mapping.
    pub fn place(self) -> usize
        ensures place { result ≡ place_of_kind self }
        ensures below { result < 18 }
    {
        match self {
            Kind::Plain => 0,
            Kind::Canonical => 1,
            Kind::Compat(tag) => 2 + tag.place(),
        }
    }

    /// Whether a mapping of this kind counts in an expansion: a canonical one always, a compatibility one if `compat`
    /// holds. UAX #15, section 1.3.
    pub fn counts(self, compat: bool) -> bool
        ensures { result ≡ counts compat self }
    {
        match self {
            Kind::Plain => false,
            Kind::Canonical => true,
            Kind::Compat(_) => compat,
        }
    }

    /// Whether a mapping of this kind is a compatibility mapping. UAX #44, section 5.7.3.
    pub fn is_compat(self) -> bool
        ensures { result ≡ is_compat self }
    {
        matches!(self, Kind::Compat(_))
    }

    /// The kind at a place; `None` past 17.
    pub fn at(place: usize) -> Option<Kind>
        ensures { result ≡ slice_get kinds place }
    {
        match place {
            0 => Some(Kind::Plain),
            1 => Some(Kind::Canonical),
            _ => Some(Kind::Compat(Tag::at(place - 2)?)),
        }
    }
}
