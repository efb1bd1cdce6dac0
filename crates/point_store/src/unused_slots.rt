//! Which places code points have.

ghost use Rattle.std.specs.Prelude.{◌≡◌, ℕ, false};
ghost use Rattle.point_store.specs.Slots.{AreUsed, is_unused};
ghost use Rattle.point_stretches.specs.Stretches.{Gives, TellsAlike};

use point_stretches::stretches_by;
use range_table::Stretches;
use ucd_points::Point;

/// Takes the places that code points have now off the unused ones.
pub fn mark_used_now<T: Stretches<u64>>(places: &T, unused: &mut [bool])
    ensures used { AreUsed unused.new (T.now places.now) }
    ensures others { (p : ℕ) → is_unused unused.old p ≡ false → is_unused unused.new p ≡ false }
{
    mark_used_everywhere(|c| places.last_of_stretch(c), |c| places.get(c), unused);
}

/// Takes the places that code points have next off the unused ones.
pub fn mark_used_next<T: Stretches<u64>>(places: &T, unused: &mut [bool])
    ensures used { AreUsed unused.new (T.next places.now) }
    ensures others { (p : ℕ) → is_unused unused.old p ≡ false → is_unused unused.new p ≡ false }
{
    mark_used_everywhere(
        |c| places.last_of_stretch_next(c),
        |c| places.get_next(c),
        unused,
    );
}

/// Takes the places of all code points off the unused ones. It asks for the place of the first code point of each stretch.
fn mark_used_everywhere<F: Fn(Point) -> Point, G: Fn(Point) -> u64>(
    last_of: F,
    place_of: G,
    unused: &mut [bool],
)
    requires last_callable { F.IsAlwaysCallable last_of }
    requires place_callable { G.IsAlwaysCallable place_of }
    ensures used { (places : ℕ → ℕ) → TellsAlike (F.post last_of) places
        → Gives (G.post place_of) places → AreUsed unused.new places }
    ensures others { (p : ℕ) → is_unused unused.old p ≡ false → is_unused unused.new p ≡ false }
{
    'stretches: for span in stretches_by(last_of) {
        mark_used(unused, place_of(span.lo));
    }
}

/// Takes a place off the unused ones.
fn mark_used(unused: &mut [bool], place: u64)
    ensures used { is_unused unused.new place ≡ false }
    ensures others { (p : ℕ) → is_unused unused.old p ≡ false → is_unused unused.new p ≡ false }
{
    let at = place as usize;
    if at < unused.len() {
        unused[at] = false;
    }
}
