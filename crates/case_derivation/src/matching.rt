//! A list matched with the images of its members, in place.

ghost use Rattle.std.specs.Prelude.{◌≡◌, ℕ, List, [], ◌++◌, ◌||◌, not};
ghost use Rattle.std.specs.Str.{bytes_eq};
ghost use Rattle.ucd_facts.specs.Facts.{image_points};
ghost use Rattle.ucd_facts.specs.Predicates.{cased};
ghost use Rattle.ucd_facts.specs.Shown.{image_shown, shown_facts};
ghost use Rattle.case_derivation.specs.Matching.{matches};
ghost use Rattle.case_derivation.specs.Steps.{title_image};

use crate::is_cased;
use crate::titling::title_image;
use ucd_model::{FactsRef, Point};

/// What of a list is left for the images of the later members, by each mapping; `None` if the images so far are not
/// the beginning of the list.
#[derive(Clone, Copy)]
pub(crate) struct Unmatched<'a> {
    /// By the mapping to lower case.
    pub(crate) lowered: Option<&'a [Point]>,
    /// By the mapping to upper case.
    pub(crate) uppered: Option<&'a [Point]>,
    /// By the mapping to title case.
    pub(crate) titled: Option<&'a [Point]>,
    /// By the folding.
    pub(crate) folded: Option<&'a [Point]>,
    /// Whether the title has begun: one of the members so far is Cased.
    pub(crate) begun: bool,
}

/// All of a list is left.
pub(crate) fn all_unmatched(s: &[Point], begun: bool) -> Unmatched<'_>
    ensures lowered { (mapped : List ℕ) → matches result.lowered mapped ≡ bytes_eq mapped s.now }
    ensures uppered { (mapped : List ℕ) → matches result.uppered mapped ≡ bytes_eq mapped s.now }
    ensures titled { (mapped : List ℕ) → matches result.titled mapped ≡ bytes_eq mapped s.now }
    ensures folded { (mapped : List ℕ) → matches result.folded mapped ≡ bytes_eq mapped s.now }
    ensures begun { result.begun ≡ begun }
{
    Unmatched {
        lowered: Some(s),
        uppered: Some(s),
        titled: Some(s),
        folded: Some(s),
        begun,
    }
}

/// What is left behind the images of one more member, with these facts.
pub(crate) fn unmatched_after<'a>(
    left: Unmatched<'a>,
    c: Point,
    facts: &FactsRef<'_>,
) -> Unmatched<'a>
    ensures lowered { (mapped : List ℕ) → matches result.lowered mapped
        ≡ matches left.entry.lowered (image_points c (shown_facts facts.now).lower ++ mapped) }
    ensures uppered { (mapped : List ℕ) → matches result.uppered mapped
        ≡ matches left.entry.uppered (image_points c (shown_facts facts.now).upper ++ mapped) }
    ensures titled { (mapped : List ℕ)
        → matches result.titled mapped
        ≡ matches left.entry.titled
        (image_points c (title_image left.entry.begun (shown_facts facts.now)) ++ mapped) }
    ensures folded { (mapped : List ℕ) → matches result.folded mapped
        ≡ matches left.entry.folded (image_points c (shown_facts facts.now).fold ++ mapped) }
    ensures begun { result.begun ≡ (left.entry.begun || cased (shown_facts facts.now)) }
{
    Unmatched {
        lowered: without_image(left.lowered, c, facts.lower),
        uppered: without_image(left.uppered, c, facts.upper),
        titled: without_image(left.titled, c, title_image(left.begun, facts)),
        folded: without_image(left.folded, c, facts.fold),
        begun: left.begun || is_cased(facts),
    }
}

/// The rest behind the points of an image of a code point; `None` if they are not its beginning.
fn without_image<'a>(
    rest: Option<&'a [Point]>,
    c: Point,
    image: Option<&[Point]>,
) -> Option<&'a [Point]>
    ensures { (mapped : List ℕ) → matches result mapped
        ≡ matches rest.entry (image_points c (image_shown image.entry) ++ mapped) }
{
    match (rest?, image) {
        (rest, Some(points)) => rest.strip_prefix(points),
        ([first, rest @ ..], None) if *first == c => Some(rest),
        _ => None,
    }
}

/// Whether the images of all members are not the list.
pub(crate) fn is_mismatch(left: Option<&[Point]>) -> bool
    ensures { result ≡ not (matches left.entry []) }
{
    !matches!(left, Some([]))
}
