//! Searches among entries that stand together.

ghost use Rattle.std.specs.Prelude.{◌≡◌, ◌+◌, ◌≤◌, drop, length};
ghost use Rattle.std.specs.List.{position_or_len};
ghost use Rattle.part_list.specs.Finds.{FirstIn, LastIn};

use crate::entry::Entry;
use crate::reach::Reach;
use crate::seek::Seek;

/// The place from `from` on of the first entry that its bounds do not rule out; the length if they rule out all. The
/// loop calls nothing, so it is a few comparisons for each entry.
fn next_candidate<T: Copy, S: Seek<T>>(entries: &[Entry<T>], seek: &S, from: usize) -> usize
    requires from { from ≤ length entries.now }
    ensures within { result ≤ length entries.now }
    ensures from { from ≤ result }
    ensures none { position_or_len (S.passing seek.now) (drop from entries.now) + from
        ≡ position_or_len (S.passing seek.now) (drop result entries.now) + result }
{
    let mut at = from;
    'entries: while at < entries.len() {
        if !seek.skips(Reach::NONE.with(&entries[at])) {
            return at;
        }
        at += 1;
    }
    at
}

/// The place of the first entry that passes.
pub fn first_in<T: Copy, S: Seek<T>>(entries: &[Entry<T>], seek: &S) -> Option<usize>
    ensures { FirstIn result (S.passing seek.now) entries.now }
{
    let mut at = next_candidate(entries, seek, 0);
    'entries: while at < entries.len() {
        if seek.passes(&entries[at]) {
            return Some(at);
        }
        at = next_candidate(entries, seek, at + 1);
    }
    None
}

/// Whether an entry passes. Mostly its bounds rule it out, which is a few comparisons.
fn is_sought<T: Copy, S: Seek<T>>(entry: &Entry<T>, seek: &S) -> bool
    ensures { result ≡ S.passing seek.now entry.now }
{
    !seek.skips(Reach::NONE.with(entry)) && seek.passes(entry)
}

/// The place of the last entry that passes.
pub fn last_in<T: Copy, S: Seek<T>>(entries: &[Entry<T>], seek: &S) -> Option<usize>
    ensures { LastIn result (S.passing seek.now) entries.now }
{
    let mut left = entries.len();
    'entries: while left > 0 {
        if is_sought(&entries[left - 1], seek) {
            return Some(left - 1);
        }
        left -= 1;
    }
    None
}
