//! The facts of a code point, kept.

ghost use Rattle.std.specs.Prelude.{◌≡◌};
ghost use Rattle.ucd_facts.specs.Facts.{unassigned};
ghost use Rattle.ucd_facts.specs.FactList.{kept_facts};
ghost use Rattle.ucd_facts.specs.Shown.{shown_facts};
ghost use Rattle.ucd_facts.specs.Unmapped.{is_unchanged_by_casing};

use crate::category::Category;
use crate::decomposition::Kind;
use crate::image::Image;
use crate::sets::Flags;
use crate::view::FactsRef;
use std::alloc::Global;
use ucd_points::{Point, Points};

/// The facts of a code point. UAX #44, sections 5.3, 5.6 and 5.7.
#[derive(Debug, Drop)]
pub struct Facts {
    /// Whether a row of UnicodeData.txt covers the point.
    pub assigned: bool,
    /// General_Category; `Cn` if there is no row.
    pub category: Category,
    /// Canonical_Combining_Class, from 0 to 254; 0 if there is no row.
    pub class: u8,
    /// Decomposition_Type; `Plain` if there is no mapping, and `Canonical` for a Hangul syllable whose row has none.
    pub kind: Kind,
    /// Decomposition_Mapping; no code points if there is none. For a Hangul syllable whose row has none, it is that of
    /// The Unicode Standard, section 3.12.
    pub mapping: Points,
    /// Simple_Uppercase_Mapping; the point itself if there is none.
    pub simple_upper: Point,
    /// Simple_Lowercase_Mapping; the point itself if there is none.
    pub simple_lower: Point,
    /// Simple_Titlecase_Mapping; `simple_upper` if there is none.
    pub simple_title: Point,
    /// Simple_Case_Folding: that of status S, else of C; the point itself if there is none.
    pub simple_fold: Point,
    /// Uppercase_Mapping without conditions; `simple_upper` alone if SpecialCasing.txt has none.
    pub upper: Image,
    /// Lowercase_Mapping without conditions; `simple_lower` alone if SpecialCasing.txt has none.
    pub lower: Image,
    /// Titlecase_Mapping without conditions; `simple_title` alone if SpecialCasing.txt has none.
    pub title: Image,
    /// Case_Folding: that of status F, else of C; the point itself if there is none.
    pub fold: Image,
    /// Which of the properties in `Flag` the point has.
    pub flags: Flags,
    /// Whether its Word_Break is MidLetter, MidNumLet or Single_Quote. UAX #29, section 4.1.
    pub mid_word: bool,
    /// Composition_Exclusion: whether CompositionExclusions.txt covers the point.
    pub excluded: bool,
}

impl Facts {
    /// The facts of a code point without a row: `Cn`, class 0, no mapping, no property, and each image the point
    /// itself. It takes no memory.
    pub fn unassigned(alloc: Global, c: Point) -> Facts
        ensures { kept_facts result ≡ unassigned c }
    {
        Facts {
            assigned: false,
            category: Category::Cn,
            class: 0,
            kind: Kind::Plain,
            mapping: Points::new(alloc),
            simple_upper: c,
            simple_lower: c,
            simple_title: c,
            simple_fold: c,
            upper: Image::Same,
            lower: Image::Same,
            title: Image::Same,
            fold: Image::Same,
            flags: Flags::none(),
            mid_word: false,
            excluded: false,
        }
    }

    /// The facts as a view shows them.
    pub fn as_ref(&self) -> FactsRef<'_>
        ensures { shown_facts result ≡ kept_facts self.now }
    {
        FactsRef {
            assigned: self.assigned,
            category: self.category,
            class: self.class,
            kind: self.kind,
            mapping: self.mapping.as_slice(),
            simple_upper: self.simple_upper,
            simple_lower: self.simple_lower,
            simple_title: self.simple_title,
            simple_fold: self.simple_fold,
            upper: self.upper.as_points(),
            lower: self.lower.as_points(),
            title: self.title.as_points(),
            fold: self.fold.as_points(),
            flags: self.flags,
            mid_word: self.mid_word,
            excluded: self.excluded,
        }
    }
}

impl FactsRef<'_> {
    /// The facts of a code point without a row: `Cn`, class 0, no mapping, no property, and each image the point
    /// itself.
    pub fn unassigned(c: Point) -> FactsRef<'static>
        ensures { shown_facts result ≡ unassigned c }
    {
        FactsRef {
            assigned: false,
            category: Category::Cn,
            class: 0,
            kind: Kind::Plain,
            mapping: &[],
            simple_upper: c,
            simple_lower: c,
            simple_title: c,
            simple_fold: c,
            upper: None,
            lower: None,
            title: None,
            fold: None,
            flags: Flags::none(),
            mid_word: false,
            excluded: false,
        }
    }

    /// Whether the point is its own image by each full case mapping, and by the folding. UAX #44, section 5.6.
    pub fn is_unchanged_by_casing(&self) -> bool
        ensures { result ≡ is_unchanged_by_casing (shown_facts self.now) }
    {
        self.lower.is_none() && self.upper.is_none() && self.title.is_none() && self.fold.is_none()
    }
}
