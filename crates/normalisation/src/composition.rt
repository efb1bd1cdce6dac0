//! Canonical composition.

ghost use Rattle.std.specs.Prelude.{◌≡◌, ◌<◌, ◌≤◌, ◌+◌, length, take, drop, slice_index};
ghost use Rattle.std.specs.Option.{ForSome};
ghost use Rattle.ucd_model.specs.CanonicalOrder.{class_of};
ghost use Rattle.ucd_facts.specs.Composites.{pair_of};
ghost use Rattle.ucd_model.specs.Composition.{last_starter, composed_with, compose};
ghost use Rattle.normalisation.specs.SoFar.{joined, Describes};

use crate::starter::{Starter, is_unblocked, starter_behind};
use ucd_model::{FactView, Point, Points};

/// What is composed so far, at the front of the list: how many code points, and the last starter among them.
#[derive(Clone, Copy)]
struct SoFar {
    len: usize,
    starter: Option<Starter<usize>>,
}

/// A composite, and the place of the starter that it takes.
#[derive(Clone, Copy)]
struct Join {
    at: usize,
    point: Point,
}

/// Composes a list in place, with at most one look-up of a pair for each code point. It takes no memory.
/// The Unicode Standard, section 3.11, D117.
pub fn compose<W: FactView>(view: &W, s: &mut Points)
    ensures { s.new ≡ compose (class_of (W.facts_of view.now))
        (pair_of (W.facts_of view.now)) s.old }
{
    let mut so_far = SoFar {
        len: 0,
        starter: None,
    };
    'points: for at in 0..s.len() {
        so_far = compose_next(view, s, so_far, at);
    }
    s.truncate(so_far.len);
}

/// Composes the code point at `at` with what is composed so far.
fn compose_next<W: FactView>(view: &W, s: &mut Points, so_far: SoFar, at: usize) -> SoFar
    requires within { at < length s.old }
    requires so_far { so_far.len ≤ at }
    requires starter { Describes (class_of (W.facts_of view.now))
        (last_starter (class_of (W.facts_of view.now)) (take so_far.len s.old)) so_far.starter }
    ensures composed { take result.len s.new ≡ composed_with (class_of (W.facts_of view.now))
        (pair_of (W.facts_of view.now)) (take so_far.len s.old) (slice_index s.old at) }
    ensures rest { drop (at + 1) s.new ≡ drop (at + 1) s.old }
    ensures length { length s.new ≡ length s.old }
    ensures so_far { result.len ≤ at + 1 }
    ensures starter { Describes (class_of (W.facts_of view.now))
        (last_starter (class_of (W.facts_of view.now)) (take result.len s.new)) result.starter }
{
    let y = s.as_slice()[at];
    let class = view.class(y);
    match composite_with_starter(view, s, so_far.starter, y, class) {
        Some(join) => {
            s.replace(join.at, join.point);
            so_far
        }
        None => {
            s.replace(so_far.len, y);
            SoFar {
                len: so_far.len + 1,
                starter: starter_behind(so_far.len, &so_far.starter, class),
            }
        }
    }
}

/// The composite of the last starter and a code point of this class, if there is one and the code point is not
/// blocked.
fn composite_with_starter<W: FactView>(
    view: &W,
    s: &Points,
    starter: Option<Starter<usize>>,
    y: Point,
    class: u8,
) -> Option<Join>
    requires { ForSome starter (λ starter. starter.which < length s.now) }
    ensures { result ≡ joined (pair_of (W.facts_of view.now)) s.now starter y class }
{
    let starter = starter?;
    if !is_unblocked(starter.highest, class) {
        return None;
    }
    let point = view.pair(s.as_slice()[starter.which], y)?;
    Some(Join {
        at: starter.which,
        point,
    })
}
