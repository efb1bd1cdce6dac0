//! Lists that the full and the simple folding fold alike.

ghost use Rattle.std.specs.Prelude.{◌≡◌};
ghost use Rattle.std.specs.List.{list_all};
ghost use Rattle.fold_rounds.specs.Steps.{is_alike, are_alike};

use ucd_model::{FactView, Point, same_points};

/// Whether the full folding of each member of a list is its simple folding alone, so that both foldings give one list. It
/// takes no memory. The Unicode Standard, section 5.18, Caseless Matching.
pub fn all_fold_alike<W: FactView>(view: &W, s: &[Point]) -> bool
    ensures { result ≡ are_alike (W.facts_of view.now) s.now }
{
    'members: for x in s {
        if !folds_alike(view, *x) {
            return false;
        }
    }
    true
}

/// Whether the full folding of a code point is its simple folding alone.
fn folds_alike<W: FactView>(view: &W, c: Point) -> bool
    ensures { result ≡ is_alike c (W.facts_of view.now c) }
{
    match view.folding(c) {
        None => view.simple_folding(c) == c,
        Some(points) => same_points(points, &[view.simple_folding(c)]),
    }
}
