//! Code points in canonical order.

ghost use Rattle.std.specs.Prelude.{◌≡◌, ◌<◌, ◌+◌, ◌++◌, length, take, drop, slice_index};
ghost use Rattle.ucd_model.specs.CanonicalOrder.{class_of, with_next, order};

use ucd_model::{FactView, Points};

/// Puts a list into canonical order, in place: each code point of non-zero class is moved before the code points
/// directly before it that have a greater class. It takes no memory. The Unicode Standard, section 3.11, D109.
pub fn order<W: FactView>(view: &W, s: &mut Points)
    ensures { s.new ≡ order (class_of (W.facts_of view.now)) s.old }
{
    'points: for at in 0..s.len() {
        insert_in_order(view, s, at);
    }
}

/// Puts the code point at `at` among the ones before it, which are in order.
fn insert_in_order<W: FactView>(view: &W, s: &mut Points, at: usize)
    requires { at < length s.old }
    ensures { s.new ≡ with_next (class_of (W.facts_of view.now)) (take at s.old)
        (slice_index s.old at) ++ drop (at + 1) s.old }
{
    let y = s.as_slice()[at];
    let class = view.class(y);
    if class == 0 {
        return;
    }
    let mut place = at;
    'greater: while place > 0 {
        let before = s.as_slice()[place - 1];
        if view.class(before) <= class {
            break;
        }
        s.replace(place, before);
        place -= 1;
    }
    s.replace(place, y);
}
