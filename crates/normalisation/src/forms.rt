//! The four normalisation forms.

ghost use Rattle.ucd_facts.specs.Expansion.{expansion, FormAnswers};
ghost use Rattle.ucd_model.specs.Forms.{expansions, decomposed, composed, nfd, nfc, nfkd, nfkc};
ghost use Rattle.normalisation.specs.Puts.{PutsExpansion};

use crate::{compose, order};
use decomposition::{expand, mapping_if_counted};
use std::alloc::Global;
use ucd_model::{FactView, FormStop, Point, Points};

/// Normalisation Form D of a list: the canonical expansions of its members, in canonical order. UAX #15, section 1.2.
///
/// - `Bad(rule)`: a member has no canonical expansion, and `rule`, V2 or V3, is that of the first such member.
/// - `Memory`: memory ran out.
pub fn nfd<W: FactView>(alloc: Global, view: &W, s: &[Point]) -> Result<Points, FormStop>
    ensures { FormAnswers result (nfd (W.facts_of view.now) s.now) }
{
    decomposed(alloc, view, false, s)
}

/// Normalisation Form C of a list: its Normalisation Form D composed. UAX #15, section 1.2.
///
/// - `Bad(rule)`: a member has no canonical expansion, and `rule`, V2 or V3, is that of the first such member.
/// - `Memory`: memory ran out.
pub fn nfc<W: FactView>(alloc: Global, view: &W, s: &[Point]) -> Result<Points, FormStop>
    ensures { FormAnswers result (nfc (W.facts_of view.now) s.now) }
{
    composed(alloc, view, false, s)
}

/// Normalisation Form KD of a list: the compatibility expansions of its members, in canonical order.
/// UAX #15, section 1.2.
///
/// - `Bad(rule)`: a member has no compatibility expansion, and `rule`, V2 or V3, is that of the first such member.
/// - `Memory`: memory ran out.
pub fn nfkd<W: FactView>(alloc: Global, view: &W, s: &[Point]) -> Result<Points, FormStop>
    ensures { FormAnswers result (nfkd (W.facts_of view.now) s.now) }
{
    decomposed(alloc, view, true, s)
}

/// Normalisation Form KC of a list: its Normalisation Form KD composed. UAX #15, section 1.2.
///
/// - `Bad(rule)`: a member has no compatibility expansion, and `rule`, V2 or V3, is that of the first such member.
/// - `Memory`: memory ran out.
pub fn nfkc<W: FactView>(alloc: Global, view: &W, s: &[Point]) -> Result<Points, FormStop>
    ensures { FormAnswers result (nfkc (W.facts_of view.now) s.now) }
{
    composed(alloc, view, true, s)
}

/// The decomposition of a list, canonical, or compatibility if `compat` holds.
fn decomposed<W: FactView>(
    alloc: Global,
    view: &W,
    compat: bool,
    s: &[Point],
) -> Result<Points, FormStop>
    ensures { FormAnswers result (decomposed (W.facts_of view.now) compat s.now) }
{
    let mut points = expansions(alloc, view, compat, s)?;
    order(view, &mut points);
    Ok(points)
}

/// The decomposition of a list, composed.
fn composed<W: FactView>(
    alloc: Global,
    view: &W,
    compat: bool,
    s: &[Point],
) -> Result<Points, FormStop>
    ensures { FormAnswers result
        (composed (W.facts_of view.now) (decomposed (W.facts_of view.now) compat s.now)) }
{
    let mut points = decomposed(alloc, view, compat, s)?;
    compose(view, &mut points);
    Ok(points)
}

/// The expansions of the members, joined in order.
fn expansions<W: FactView>(
    alloc: Global,
    view: &W,
    compat: bool,
    s: &[Point],
) -> Result<Points, FormStop>
    ensures { FormAnswers result (expansions (W.facts_of view.now) compat s.now) }
{
    let mut points = Points::new(alloc);
    'members: for c in s {
        put_expansion(alloc, view, compat, *c, &mut points)?;
    }
    Ok(points)
}

/// Puts the expansion of a code point at the end of a list.
fn put_expansion<W: FactView>(
    alloc: Global,
    view: &W,
    compat: bool,
    c: Point,
    points: &mut Points,
) -> Result<(), FormStop>
    ensures { PutsExpansion points.old points.new result
        (expansion (W.facts_of view.now) compat c) }
{
    if mapping_if_counted(view, compat, c).is_empty() {
        points.push(c)?;
    } else {
        points.append(expand(alloc, view, compat, c)?.as_slice())?;
    }
    Ok(())
}
