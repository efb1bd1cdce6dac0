//! Entries in order, most of which a search rules out by the bounds of many at once.

ghost use Rattle.std.specs.Prelude.{◌≡◌, ◌<◌, ◌≤◌, [], ◌∷◌, ◌++◌, true, length, ◌+◌, ◌-◌};
ghost use Rattle.std.specs.List.{All};
ghost use Rattle.part_list.specs.Orders.{AreWithin, IsOrdered, IsOrderedIn, IsUpTo, IsWindow, NoneIn};
ghost use Rattle.part_list.specs.Reaches.{IsWithin};

use crate::entry::Entry;
use crate::reach::Reach;
use crate::seek::Seek;

/// Whether neither the first nor the last code point descends from one entry to another one.
fn are_in_order<T: Copy>(entry: &Entry<T>, behind: &Entry<T>) -> bool
    ensures { result ≡ true → IsUpTo entry.now behind.now }
{
    entry.code <= behind.code && entry.last <= behind.last
}

/// Whether neither the first nor the last code points descend from one entry to the next.
pub fn is_ordered<T: Copy>(entries: &[Entry<T>]) -> bool
    ensures { result ≡ true → IsOrdered entries.now }
{
    'entries: for at in 1..entries.len() {
        if !are_in_order(&entries[at - 1], &entries[at]) {
            return false;
        }
    }
    true
}

/// Whether entries are in order from the one before a place up to the third one from there on.
pub fn is_ordered_around<T: Copy>(entries: &[Entry<T>], at: usize) -> bool
    requires { at ≤ length entries.now }
    ensures { result ≡ true → IsOrderedIn entries.now (at - 1) (at + 3) }
{
    let from = at.saturating_sub(1);
    let to = at.saturating_add(3).min(entries.len());
    is_ordered(&entries[from..to])
}

/// Whether entries in order stay so with one more at the end.
pub fn stays_ordered_with<T: Copy>(entries: &[Entry<T>], entry: &Entry<T>) -> bool
    ensures { result ≡ true → IsOrdered entries.now → IsOrdered (entries.now ++ entry.now ∷ []) }
{
    let len = entries.len();
    len == 0 || are_in_order(&entries[len - 1], entry)
}

/// Bounds of the entries in order from one place up to another one. The reach bounds the tags of all.
fn reach_between<T: Copy>(entries: &[Entry<T>], reach: Reach, from: usize, to: usize) -> Reach
    requires ordered { IsOrdered entries.now }
    requires reach { All (IsWithin reach) entries.now }
    requires some { from < to }
    requires within { to ≤ length entries.now }
    ensures { AreWithin result entries.now from to }
{
    let last = &entries[to - 1];
    Reach {
        least: entries[from].code,
        most: last.code.max(last.last),
        least_tag: reach.least_tag,
        most_tag: reach.most_tag,
    }
}

/// Whether bounds tell that none of the entries in order from one place up to another one passes.
fn surely_none_between<T: Copy, S: Seek<T>>(
    entries: &[Entry<T>],
    reach: Reach,
    seek: &S,
    from: usize,
    to: usize,
) -> bool
    requires ordered { IsOrdered entries.now }
    requires reach { All (IsWithin reach) entries.now }
    requires some { from < to }
    requires within { to ≤ length entries.now }
    ensures { result ≡ true → NoneIn (S.passing seek.now) entries.now from to }
{
    seek.skips(reach_between(entries, reach, from, to))
}

/// The place before which no entry passes, as far as the bounds of some of the first entries tell.
fn first_possible<T: Copy, S: Seek<T>>(entries: &[Entry<T>], reach: Reach, seek: &S) -> usize
    requires ordered { IsOrdered entries.now }
    requires reach { All (IsWithin reach) entries.now }
    ensures within { result ≤ length entries.now }
    ensures none { NoneIn (S.passing seek.now) entries.now 0 result }
{
    let mut from = 0;
    let mut to = entries.len();
    'halves: while from < to {
        let middle = to - (to - from) / 2;
        if surely_none_between(entries, reach, seek, from, middle) {
            from = middle;
        } else {
            to = middle - 1;
        }
    }
    from
}

/// The place from which on no entry passes, if bounds tell so of all from the given place on or of all but one; else the length.
fn end_of_possible<T: Copy, S: Seek<T>>(
    entries: &[Entry<T>],
    reach: Reach,
    seek: &S,
    from: usize,
) -> usize
    requires ordered { IsOrdered entries.now }
    requires reach { All (IsWithin reach) entries.now }
    requires from { from ≤ length entries.now }
    ensures from { from ≤ result }
    ensures within { result ≤ length entries.now }
    ensures none { NoneIn (S.passing seek.now) entries.now result (length entries.now) }
{
    let len = entries.len();
    if from < len && surely_none_between(entries, reach, seek, from, len) {
        return from;
    }
    if len - from > 1 && surely_none_between(entries, reach, seek, from + 1, len) {
        return from + 1;
    }
    len
}

/// The places among which all entries stand that pass, as far as the bounds of many entries in order tell: from the first one up to
/// the second one.
pub fn window<T: Copy, S: Seek<T>>(entries: &[Entry<T>], reach: Reach, seek: &S) -> (usize, usize)
    requires ordered { IsOrdered entries.now }
    requires reach { All (IsWithin reach) entries.now }
    ensures { IsWindow (S.passing seek.now) entries.now result.0 result.1 }
{
    let from = first_possible(entries, reach, seek);
    (from, end_of_possible(entries, reach, seek, from))
}
