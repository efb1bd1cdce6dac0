//! Members of mappings that have no row in UnicodeData.txt.

ghost use Rattle.std.specs.Prelude.{◌≡◌, [], ◌∷◌, not};
ghost use Rattle.std.specs.List.{list_any};
ghost use Rattle.ucd_facts.specs.Facts.{image_points};
ghost use Rattle.ucd_facts.specs.Shown.{image_shown, shown_facts};
ghost use Rattle.ucd_model.specs.Validity.{lacks_row, mappings};

use ucd_model::{FactView, FactsRef, Point};

/// Whether a member of one of the mappings of a code point with these facts has no row.
pub fn some_mapping_lacks_row<W: FactView>(view: &W, c: Point, facts: &FactsRef<'_>) -> bool
    ensures { result ≡ list_any (lacks_row (W.facts_of view.now) c)
        (mappings c (shown_facts facts.now)) }
{
    if mapping_lacks_row(view, c, facts.mapping) {
        return true;
    }
    if simple_lacks_row(view, c, facts.simple_upper) {
        return true;
    }
    if simple_lacks_row(view, c, facts.simple_lower) {
        return true;
    }
    if simple_lacks_row(view, c, facts.simple_title) {
        return true;
    }
    if simple_lacks_row(view, c, facts.simple_fold) {
        return true;
    }
    if image_lacks_row(view, c, facts.upper) {
        return true;
    }
    if image_lacks_row(view, c, facts.lower) {
        return true;
    }
    if image_lacks_row(view, c, facts.title) {
        return true;
    }
    image_lacks_row(view, c, facts.fold)
}

/// Whether a member of a mapping of a code point has no row. The code point alone is not looked at.
fn mapping_lacks_row<W: FactView>(view: &W, c: Point, mapping: &[Point]) -> bool
    ensures { result ≡ lacks_row (W.facts_of view.now) c mapping.now }
{
    if matches!(mapping, [only] if *only == c) {
        return false;
    }
    has_member_without_row(view, mapping)
}

/// Whether one of these code points has no row.
fn has_member_without_row<W: FactView>(view: &W, points: &[Point]) -> bool
    ensures { result ≡ list_any (λ x. not (W.facts_of view.now x).assigned) points.now }
{
    'members: for member in points {
        if !view.is_assigned(*member) {
            return true;
        }
    }
    false
}

/// Whether a code point that another one is mapped to alone has no row.
fn simple_lacks_row<W: FactView>(view: &W, c: Point, member: Point) -> bool
    ensures { result ≡ lacks_row (W.facts_of view.now) c (member ∷ []) }
{
    if member == c {
        return false;
    }
    !view.is_assigned(member)
}

/// Whether a member of an image of a code point has no row.
fn image_lacks_row<W: FactView>(view: &W, c: Point, image: Option<&[Point]>) -> bool
    ensures { result ≡ lacks_row (W.facts_of view.now) c
        (image_points c (image_shown image.entry)) }
{
    match image {
        Some(points) => mapping_lacks_row(view, c, points),
        None => false,
    }
}
