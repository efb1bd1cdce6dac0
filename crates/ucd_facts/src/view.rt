//! How the facts of code points are seen, whatever keeps them.

ghost use Rattle.std.specs.Prelude.{◌≡◌, ℕ};
ghost use Rattle.ucd_facts.specs.Facts.{Facts};
ghost use Rattle.ucd_facts.specs.Sets.{has_flag};
ghost use Rattle.ucd_facts.specs.Shown.{image_shown, shown_facts};
ghost use Rattle.ucd_facts.specs.Unmapped.{is_unchanged_by_casing};
ghost use Rattle.ucd_facts.specs.Composites.{pair_of, second_of};

use crate::category::Category;
use crate::decomposition::Kind;
use crate::sets::Flags;
use ucd_points::Point;

/// The facts of a code point. UAX #44, sections 5.3, 5.6 and 5.7. Of `upper`, `lower`, `title` and `fold`, `None`
/// stands for the point itself alone.
#[derive(Clone, Copy, Debug)]
pub struct FactsRef<'a> {
    /// Whether a row of UnicodeData.txt covers the point.
    pub assigned: bool,
    /// General_Category; `Cn` if there is no row.
    pub category: Category,
    /// Canonical_Combining_Class, from 0 to 254; 0 if there is no row.
    pub class: u8,
    /// Decomposition_Type; `Plain` if there is no mapping, and `Canonical` for a Hangul syllable whose row has none.
    pub kind: Kind,
    /// Decomposition_Mapping; no code points if there is none. For a Hangul syllable whose row has none, it is that of
    /// The Unicode Standard, section 3.12.
    pub mapping: &'a [Point],
    /// Simple_Uppercase_Mapping; the point itself if there is none.
    pub simple_upper: Point,
    /// Simple_Lowercase_Mapping; the point itself if there is none.
    pub simple_lower: Point,
    /// Simple_Titlecase_Mapping; `simple_upper` if there is none.
    pub simple_title: Point,
    /// Simple_Case_Folding: that of status S, else of C; the point itself if there is none.
    pub simple_fold: Point,
    /// Uppercase_Mapping without conditions; `simple_upper` alone if SpecialCasing.txt has none.
    pub upper: Option<&'a [Point]>,
    /// Lowercase_Mapping without conditions; `simple_lower` alone if SpecialCasing.txt has none.
    pub lower: Option<&'a [Point]>,
    /// Titlecase_Mapping without conditions; `simple_title` alone if SpecialCasing.txt has none.
    pub title: Option<&'a [Point]>,
    /// Case_Folding: that of status F, else of C; the point itself if there is none.
    pub fold: Option<&'a [Point]>,
    /// Which of the properties in `Flag` the point has.
    pub flags: Flags,
    /// Whether its Word_Break is MidLetter, MidNumLet or Single_Quote. UAX #29, section 4.1.
    pub mid_word: bool,
    /// Composition_Exclusion: whether CompositionExclusions.txt covers the point.
    pub excluded: bool,
}

/// The facts of all code points, as they are now. No call takes memory. What is asked of single facts may be found
/// sooner than all of them.
pub trait FactView {
    // the facts of each code point
    ghost facts_of: { Self → ℕ → Facts };

    /// The facts of a code point.
    fn facts(&self, c: Point) -> FactsRef<'_>
        ensures { shown_facts result ≡ facts_of self.now c };

    /// The least primary composite whose mapping is `s`, `y`; `None` exactly if there is none.
    /// The Unicode Standard, section 3.11, D114.
    fn pair(&self, s: Point, y: Point) -> Option<Point>
        ensures { result ≡ pair_of (facts_of self.now) s y };

    /// Whether `y` is the second member of a primary composite's mapping. The Unicode Standard, section 3.11, D114.
    fn second(&self, y: Point) -> bool
        ensures { result ≡ second_of (facts_of self.now) y };

    /// Whether a row of UnicodeData.txt covers a code point.
    fn is_assigned(&self, c: Point) -> bool
        ensures { result ≡ (facts_of self.now c).assigned }
    {
        self.facts(c).assigned
    }

    /// The canonical combining class of a code point. UAX #44, section 5.7.4.
    fn class(&self, c: Point) -> u8
        ensures { result ≡ (facts_of self.now c).class }
    {
        self.facts(c).class
    }

    /// The kind of a code point's decomposition mapping; `Plain` if it has none. UAX #44, section 5.7.3.
    fn kind(&self, c: Point) -> Kind
        ensures { result ≡ (facts_of self.now c).kind }
    {
        self.facts(c).kind
    }

    /// The decomposition mapping of a code point; no code points if it has none. UAX #44, section 5.7.3.
    fn mapping(&self, c: Point) -> &[Point]
        ensures { result.now ≡ (facts_of self.now c).mapping }
    {
        self.facts(c).mapping
    }

    /// The category of a code point. UAX #44, section 5.7.1.
    fn category(&self, c: Point) -> Category
        ensures { result ≡ (facts_of self.now c).category }
    {
        self.facts(c).category
    }

    /// Which of the properties in `Flag` a code point has. UAX #44, section 5.3.
    fn flags(&self, c: Point) -> Flags
        ensures { has_flag result ≡ (facts_of self.now c).flag }
    {
        self.facts(c).flags
    }

    /// The full folding of a code point; `None` stands for the point itself alone. UAX #44, section 5.6.
    fn folding(&self, c: Point) -> Option<&[Point]>
        ensures { image_shown result ≡ (facts_of self.now c).fold }
    {
        self.facts(c).fold
    }

    /// The simple folding of a code point; the point itself if there is none. UAX #44, section 5.6.
    fn simple_folding(&self, c: Point) -> Point
        ensures { result ≡ (facts_of self.now c).simple_fold }
    {
        self.facts(c).simple_fold
    }

    /// Whether a code point is its own image by each full case mapping, and by the folding. UAX #44, section 5.6.
    fn is_unchanged_by_casing(&self, c: Point) -> bool
        ensures { result ≡ is_unchanged_by_casing (facts_of self.now c) }
    {
        self.facts(c).is_unchanged_by_casing()
    }
}
