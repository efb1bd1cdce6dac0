//! The code points of rows without names, one row behind the other.

ghost use Rattle.std.specs.Prelude.{◌≡◌, ◌&&◌, ◌==◌, map, nat_le};
ghost use Rattle.std.specs.List.{list_any};
ghost use Rattle.release_rows.specs.Extents.{conflict_with};
ghost use Rattle.release_rows.specs.Places.{extent_at};
ghost use Rattle.release_rows.specs.NamelessSpans.{nameless_extent};

use crate::conflict::Conflict;
use crate::sort_key::SortKey;

/// The code points of a row whose key has no names.
#[derive(Clone, Copy)]
pub struct NamelessSpan {
    /// The first code point.
    pub first: u32,
    /// The last code point.
    pub last: u32,
}

/// Whether a run begins at a code point.
fn begins_at(runs: &[NamelessSpan], code: u32) -> bool
    ensures { result ≡ list_any (λ run. code == run.first) runs.now }
{
    runs.iter().any(|run| code == run.first)
}

/// Whether a run has a code point from `code` to `last`.
fn some_run_meets(runs: &[NamelessSpan], code: u32, last: u32) -> bool
    ensures { result ≡ list_any (λ run. nat_le code run.last && nat_le run.first last) runs.now }
{
    runs.iter().any(|run| code <= run.last && run.first <= last)
}

/// The rule that a row, up to its last code point, breaks against the runs. Each of them is looked at.
pub fn nameless_conflict(runs: &[NamelessSpan], place: &SortKey, last: u32) -> Option<Conflict>
    ensures { result ≡ conflict_with (map nameless_extent runs.now) (extent_at place.now last) }
{
    if !place.names.is_empty() {
        return None;
    }
    if begins_at(runs, place.code) {
        return Some(Conflict::K1);
    }
    if some_run_meets(runs, place.code, last) {
        return Some(Conflict::K4);
    }
    None
}
