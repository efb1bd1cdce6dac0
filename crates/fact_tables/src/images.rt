//! Images of code points, as views show them.

ghost use Rattle.std.specs.Prelude.{◌≡◌, ℕ, [], ◌∷◌, unwrap_or};
ghost use Rattle.std.specs.Option.{option_copied};
ghost use Rattle.ucd_facts.specs.Facts.{image, only_or};
ghost use Rattle.ucd_facts.specs.Shown.{image_shown};
ghost use Rattle.fact_tables.specs.KeptFacts.{full_image};

use ucd_facts::Point;

/// The first of the points, or the code point itself if there are none.
pub fn first_point_or(c: Point, points: &[Point]) -> Point
    ensures { result ≡ only_or c points.now }
{
    match points {
        [first, ..] => *first,
        [] => c,
    }
}

/// The points, or the others if there are none.
pub fn first_nonempty<'a>(points: &'a [Point], others: &'a [Point]) -> &'a [Point]
    ensures { (c : ℕ) → only_or c result.now ≡ only_or (only_or c others.now) points.now }
{
    if points.is_empty() { others } else { points }
}

/// The image of a code point that is mapped to these points; `None` for the point itself alone.
pub fn shown_image(c: Point, points: &[Point]) -> Option<&[Point]>
    ensures { image_shown result ≡ image c points.now }
{
    if matches!(points, [only] if *only == c) {
        None
    } else {
        Some(points)
    }
}

/// The image of a code point under the first of the points, if there are any; `None` for the point itself alone.
pub fn simple_image(c: Point, simple: &[Point]) -> Option<&[Point]>
    ensures { image_shown result ≡ image c (only_or c simple.now ∷ []) }
{
    match simple {
        [] => None,
        [only, ..] if *only == c => None,
        _ => Some(&simple[..1]),
    }
}

/// The full image if there is one, or else the simple image; `None` for the point itself alone.
pub fn full_image<'a>(
    c: Point,
    full: Option<&'a [Point]>,
    simple: &'a [Point],
) -> Option<&'a [Point]>
    ensures { image_shown result ≡ full_image c (only_or c simple.now) (option_copied full.entry) }
{
    match full {
        Some(points) => shown_image(c, points),
        None => simple_image(c, simple),
    }
}

/// The image under the first folding, else under the second, else the point itself, which `None` stands for.
pub fn folding<'a>(
    c: Point,
    first: Option<&'a [Point]>,
    second: Option<&'a [Point]>,
) -> Option<&'a [Point]>
    ensures { image_shown result ≡ image c
        (unwrap_or (option_copied first.entry)
        (unwrap_or (option_copied second.entry) (c ∷ []))) }
{
    match (first, second) {
        (Some(points), _) | (None, Some(points)) => shown_image(c, points),
        (None, None) => None,
    }
}

/// The one point under the first folding, else under the second, else the code point itself.
pub fn simple_folding(c: Point, first: Option<&[Point]>, second: Option<&[Point]>) -> Point
    ensures { result ≡ only_or c (unwrap_or (option_copied first.entry)
        (unwrap_or (option_copied second.entry) [])) }
{
    match (first, second) {
        (Some(points), _) | (None, Some(points)) => first_point_or(c, points),
        (None, None) => c,
    }
}
