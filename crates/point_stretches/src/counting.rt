//! Counts code points, stretch by stretch.

ghost use Rattle.std.specs.Prelude.{◌≡◌, ℕ, Bool};
ghost use Rattle.point_stretches.specs.Stretches.{Gives, TellsAlike, passing};

use crate::stretch_iter::stretches_by;
use ucd_points::Point;

/// How many code points pass, if those of a stretch pass all or none: it asks the first of each stretch alone.
pub fn count_passing<F: Fn(Point) -> Point, P: Fn(Point) -> bool>(last_of: F, passes: P) -> u32
    requires last_callable { F.IsAlwaysCallable last_of }
    requires passes_callable { P.IsAlwaysCallable passes }
    ensures { (p : ℕ → Bool) → TellsAlike (F.post last_of) p → Gives (P.post passes) p
        → result ≡ passing p }
{
    let mut count = 0;
    'stretches: for span in stretches_by(last_of) {
        if passes(span.lo) {
            count += span.last() - span.first() + 1;
        }
    }
    count
}
