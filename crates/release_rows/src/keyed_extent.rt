//! Rows whose keys are compared once all of them are there.

ghost use Rattle.std.specs.Prelude.{◌≡◌, ◌++◌, true, IfOk, IsTrue, OnOk};
ghost use Rattle.std.specs.List.{All, IsDistinct};
ghost use Rattle.release_rows.specs.Chains.{IsChain, IsOrderedPlace, ends_before, places_meet};
ghost use Rattle.release_rows.specs.Gathered.{placed_of};

use crate::loaded_row::LoadedRow;
use crate::sort_key::SortKey;
use std::cmp::Ordering;
use ucd_facts::Memory;

/// The key of a row, and the last code point that no other row may have.
#[derive(PartialEq, Eq, PartialOrd, Ord, Drop)]
pub struct KeyedExtent {
    /// The key.
    pub place: SortKey,
    /// The last code point, not less than the first.
    pub last: u32,
}

/// Puts the key of one more row behind the others, if there is one.
///
/// - `Memory`: memory ran out.
pub fn put_placed(rows: &mut Vec<KeyedExtent>, entry: Option<LoadedRow>) -> Result<(), Memory>
    ensures { OnOk result (rows.new.items ≡ rows.old.items ++ placed_of entry) }
{
    if let Some(LoadedRow { place, last, .. }) = entry {
        rows.push(KeyedExtent { place, last })?;
    }
    Ok(())
}

/// Whether a row's names come before those of another one, or are the same and its code points end before that begins.
fn ends_before(row: &KeyedExtent, next: &KeyedExtent) -> bool
    ensures { result ≡ ends_before row.now next.now }
{
    match row.place.names.cmp(&next.place.names) {
        Ordering::Less => true,
        Ordering::Equal => row.last < next.place.code,
        Ordering::Greater => false,
    }
}

/// Whether each row ends before the next one.
fn each_ends_before_next(rows: &[KeyedExtent]) -> bool
    ensures { IsTrue result → IsChain rows.now }
{
    'rows: for at in 1..rows.len() {
        if !ends_before(&rows[at - 1], &rows[at]) {
            return false;
        }
    }
    true
}

/// Whether no two rows of the same names share a code point. Each is compared with its neighbours alone, once they are
/// sorted.
///
/// - `Memory`: memory ran out.
pub fn are_apart(mut rows: Vec<KeyedExtent>) -> Result<bool, Memory>
    requires { All IsOrderedPlace rows.items }
    ensures { IfOk result (λ apart. apart ≡ true → IsDistinct places_meet rows.items) }
{
    rows.sort()?;
    Ok(each_ends_before_next(&rows))
}
