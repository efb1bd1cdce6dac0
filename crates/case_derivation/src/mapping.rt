//! The mappings that each code point takes by itself: to lower case, to upper case, and the foldings.

ghost use Rattle.std.specs.Prelude.{◌≡◌, ◌++◌, IfOk, OnOk, OnErr};
ghost use Rattle.ucd_model.specs.Casing.{lower, upper, fold, folded};
ghost use Rattle.ucd_facts.specs.Facts.{image_points};
ghost use Rattle.ucd_facts.specs.Shown.{image_shown};
ghost use Rattle.ucd_facts.specs.declared.folding.Folding.TheVariants.{Simple};
ghost use Rattle.case_derivation.specs.Steps.{image_of, mapped_by};

use std::alloc::Global;
use ucd_model::{FactView, Folding, Memory, Point, Points};

/// A full mapping that each code point takes by itself.
#[derive(Clone, Copy)]
enum Casing {
    Lower,
    Upper,
    Fold,
}

/// The list in lower case: the full lower case mappings of its members, joined in order, without context.
/// The Unicode Standard, section 3.13, toLowercase.
///
/// - `Memory`: memory ran out.
pub fn lower<W: FactView>(alloc: Global, view: &W, s: &[Point]) -> Result<Points, Memory>
    ensures { IfOk result (λ points. points ≡ lower (W.facts_of view.now) s.now) }
{
    mapped(alloc, view, Casing::Lower, s)
}

/// The list in upper case: the full upper case mappings of its members, joined in order, without context.
/// The Unicode Standard, section 3.13, toUppercase.
///
/// - `Memory`: memory ran out.
pub fn upper<W: FactView>(alloc: Global, view: &W, s: &[Point]) -> Result<Points, Memory>
    ensures { IfOk result (λ points. points ≡ upper (W.facts_of view.now) s.now) }
{
    mapped(alloc, view, Casing::Upper, s)
}

/// The folded list: the full foldings of its members, joined in order. The Unicode Standard, section 3.13, toCasefold.
///
/// - `Memory`: memory ran out.
pub fn fold<W: FactView>(alloc: Global, view: &W, s: &[Point]) -> Result<Points, Memory>
    ensures { IfOk result (λ points. points ≡ fold (W.facts_of view.now) s.now) }
{
    mapped(alloc, view, Casing::Fold, s)
}

/// The list folded by either folding: the full foldings of its members, joined in order, or the simple folding of each
/// member in its place. The Unicode Standard, section 5.18, Caseless Matching.
///
/// - `Memory`: memory ran out.
pub fn folded<W: FactView>(
    alloc: Global,
    view: &W,
    folding: Folding,
    s: &[Point],
) -> Result<Points, Memory>
    ensures { IfOk result (λ points. points ≡ folded folding (W.facts_of view.now) s.now) }
{
    match folding {
        Folding::Full => fold(alloc, view, s),
        Folding::Simple => simply_folded(alloc, view, s),
    }
}

/// The list with the simple folding of each member in its place.
fn simply_folded<W: FactView>(alloc: Global, view: &W, s: &[Point]) -> Result<Points, Memory>
    ensures { IfOk result (λ points. points ≡ folded Simple (W.facts_of view.now) s.now) }
{
    let mut points = Points::new(alloc);
    'members: for c in s {
        points.push(view.simple_folding(*c))?;
    }
    Ok(points)
}

/// The mappings of the members, joined in order.
fn mapped<W: FactView>(
    alloc: Global,
    view: &W,
    casing: Casing,
    s: &[Point],
) -> Result<Points, Memory>
    ensures { IfOk result (λ points. points ≡ mapped_by (W.facts_of view.now) casing s.now) }
{
    let mut points = Points::new(alloc);
    'members: for c in s {
        put_image(*c, image(view, casing, *c), &mut points)?;
    }
    Ok(points)
}

/// The image of a code point.
fn image<W: FactView>(view: &W, casing: Casing, c: Point) -> Option<&[Point]>
    ensures { image_shown result ≡ image_of casing (W.facts_of view.now c) }
{
    match casing {
        Casing::Lower => view.facts(c).lower,
        Casing::Upper => view.facts(c).upper,
        Casing::Fold => view.folding(c),
    }
}

/// Appends the points of an image of a code point to a list.
///
/// - `Memory`: memory ran out. The list stays as it was.
pub(crate) fn put_image(c: Point, image: Option<&[Point]>, into: &mut Points) -> Result<(), Memory>
    ensures ok { OnOk result (into.new ≡ into.old ++ image_points c (image_shown image.entry)) }
    ensures err { OnErr result (into.new ≡ into.old) }
{
    match image {
        Some(points) => into.append(points),
        None => into.push(c),
    }
}
