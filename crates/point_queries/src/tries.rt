//! Questions for the primary composites that composition looks up.

ghost use Rattle.std.specs.Prelude.{◌≡◌, ◌++◌, IfOk, OnOk};
ghost use Rattle.ucd_model.specs.CanonicalOrder.{class_of};
ghost use Rattle.ucd_facts.specs.Composites.{pair_of};
ghost use Rattle.query_laws.specs.Questions.{tries};
ghost use Rattle.point_queries.specs.Tries.{reached_point, tried_by, with_composite, next_starter, tries_from};

use normalisation::{Starter, is_unblocked, starter_behind};
use ucd_model::{FactView, Memory, Point, Query};

/// Appends the pairs that are tried while a list is composed, whether they have a composite or not. It looks up at most
/// one pair for each code point. The Unicode Standard, section 3.11, D117.
///
/// - `Memory`: memory ran out.
pub fn put_tried_pairs<W: FactView>(
    view: &W,
    points: &[Point],
    asked: &mut Vec<Query>,
) -> Result<(), Memory>
    ensures { OnOk result (asked.new.items ≡ asked.old.items
        ++ tries (class_of (W.facts_of view.now)) (pair_of (W.facts_of view.now)) points.now) }
{
    let mut starter = None;
    'points: for y in points {
        starter = put_tried_pair(view, &starter, *y, asked)?;
    }
    Ok(())
}

/// Appends the pair that is tried at a code point behind this last starter, if one is, and answers the last starter
/// behind the code point.
fn put_tried_pair<W: FactView>(
    view: &W,
    starter: &Option<Starter<Point>>,
    y: Point,
    asked: &mut Vec<Query>,
) -> Result<Option<Starter<Point>>, Memory>
    ensures asked { OnOk result (asked.new.items ≡ asked.old.items
        ++ tried_by (reached_point starter.now (class_of (W.facts_of view.now) y)) y) }
    ensures starter { IfOk result
        (λ next. next ≡ next_starter (class_of (W.facts_of view.now))
        (pair_of (W.facts_of view.now)) starter.now y) }
{
    let class = view.class(y);
    let Some(point) = unblocked_starter(starter, class) else {
        return Ok(starter_behind(y, starter, class));
    };
    asked.push(Query::Pair(point, y))?;
    match view.pair(point, y) {
        Some(q) => Ok(with_composite(starter, q)),
        None => Ok(starter_behind(y, starter, class)),
    }
}

/// The last starter's code point, if one of this class is not blocked from it.
fn unblocked_starter(starter: &Option<Starter<Point>>, class: u8) -> Option<Point>
    ensures { result ≡ reached_point starter.now class }
{
    match starter {
        Some(starter) if is_unblocked(starter.highest, class) => Some(starter.which),
        _ => None,
    }
}

/// A composite in the last starter's place.
fn with_composite(starter: &Option<Starter<Point>>, q: Point) -> Option<Starter<Point>>
    ensures { result ≡ with_composite starter.now q }
{
    match starter {
        Some(starter) => Some(Starter {
            which: q,
            highest: starter.highest,
        }),
        None => None,
    }
}
