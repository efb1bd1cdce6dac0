//! The expansion of a code point.

ghost use Rattle.std.specs.Prelude.{◌≡◌, ◌≤◌, [], length};
ghost use Rattle.ucd_facts.specs.Expansion.{counted, expand, expansion, FormAnswers};
ghost use Rattle.decomposition.specs.Walk.{Puts};

use crate::levels::has_long_chain;
use std::alloc::Global;
use ucd_facts::{Bad, FactView, FormStop, Point, Points};

/// The levels of an expansion: one more than the longest chain of mappings (real releases need 3).
pub const LEVELS: u8 = 8;

/// The most code points that an expansion may have (the compatibility expansion of FDFA has 18).
const MOST: usize = 64;

/// The full decomposition of a code point before it is put in order: canonical, or compatibility if `compat` holds.
/// UAX #15, section 1.3; The Unicode Standard, section 3.7, Decomposition.
///
/// It takes few steps, unless there are more than 64 code points: then each mapping below the code point is looked at once
/// for each level.
///
/// - `Bad(V2)`: a chain of eight mappings or more is needed, or one without end.
/// - `Bad(V3)`: no such chain is needed, and the expansion has more than 64 code points.
/// - `Memory`: memory ran out.
pub fn expand<W: FactView>(
    alloc: Global,
    view: &W,
    compat: bool,
    c: Point,
) -> Result<Points, FormStop>
    ensures { FormAnswers result (expansion (W.facts_of view.now) compat c) }
{
    let mut points = Points::new(alloc);
    put_bounded_expansion(view, compat, LEVELS, c, &mut points)?;
    if points.len() <= MOST {
        return Ok(points);
    }
    if has_long_chain(alloc, view, compat, c)? {
        return Err(FormStop::Bad(Bad::V2));
    }
    Err(FormStop::Bad(Bad::V3))
}

/// Puts the expansion of a code point, with some levels left, at the end of a list, up to the 65th code point of the list.
/// The walk ends there, and tells nothing of the chains that it did not come to.
fn put_bounded_expansion<W: FactView>(
    view: &W,
    compat: bool,
    levels: u8,
    c: Point,
    points: &mut Points,
) -> Result<(), FormStop>
    requires { length points.old ≤ 65 }
    ensures { Puts points.old points.new result (expand (W.facts_of view.now) compat levels c) }
{
    if points.len() > MOST {
        return Ok(());
    }
    if levels == 0 {
        return Err(FormStop::Bad(Bad::V2));
    }
    let mapping = mapping_if_counted(view, compat, c);
    if mapping.is_empty() {
        points.push(c)?;
        return Ok(());
    }
    'members: for member in mapping {
        put_bounded_expansion(view, compat, levels - 1, *member, points)?;
    }
    Ok(())
}

/// The mapping of a code point if it counts: a canonical one always, a compatibility one if `compat` holds; else
/// no code points. UAX #15, section 1.3.
pub fn mapping_if_counted<W: FactView>(view: &W, compat: bool, c: Point) -> &[Point]
    ensures { result.now ≡ counted (W.facts_of view.now) compat c }
{
    if view.kind(c).counts(compat) {
        view.mapping(c)
    } else {
        &[]
    }
}
