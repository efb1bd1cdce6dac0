//! Searches over all parts of a list.

ghost use Rattle.std.specs.Prelude.{◌≡◌, ◌<◌, ◌≤◌, ◌^◌, drop, false, length, take};
ghost use Rattle.std.specs.List.{All, position_or_len};
ghost use Rattle.part_list.specs.Finds.{FirstAt, IsBefore, LastAt, StandsAt};
ghost use Rattle.part_list.specs.Guides.{Covers};
ghost use Rattle.part_list.specs.Parts.{IsEntry, flat, place};
ghost use Rattle.part_list.specs.PartValues.{parts_next};

use crate::entry::Entry;
use crate::find::first_in;
use crate::guides::next_candidate_slot;
use crate::part::Part;
use crate::reach::Reach;
use crate::seek::Seek;
use crate::spot::Spot;

/// The spot of the first entry next that passes. No entry of the parts before the one at `from` passes. The guides bound blocks of the
/// parts.
pub fn first_spot<T: Copy, S: Seek<T>>(
    parts: &[Part<T>],
    guides: &[Reach],
    seek: &S,
    from: usize,
) -> Option<Spot>
    requires guides { Covers guides.now (parts_next parts.now) }
    requires before { position_or_len (S.passing seek.now) (flat (take from (parts_next parts.now)))
        ≡ length (flat (take from (parts_next parts.now))) }
    ensures { FirstAt result (S.passing seek.now) (parts_next parts.now) }
{
    let mut slot = next_candidate_slot(guides, parts, seek, from);
    'parts: while slot < parts.len() {
        if let Some(at) = parts[slot].first(seek) {
            return Some(Spot { slot, at });
        }
        slot = next_candidate_slot(guides, parts, seek, slot + 1);
    }
    None
}

/// The entries from a place on.
fn entries_from<T: Copy>(entries: &[Entry<T>], at: usize) -> &[Entry<T>]
    requires { at ≤ length entries.now }
    ensures { result.now ≡ drop at entries.now }
{
    &entries[at..]
}

/// The spot of the first entry next that passes. None of the first `count` passes, and these are not looked at. The guides bound blocks
/// of the parts.
pub fn first_spot_behind<T: Copy, S: Seek<T>>(
    parts: &[Part<T>],
    guides: &[Reach],
    seek: &S,
    count: usize,
) -> Option<Spot>
    requires guides { Covers guides.now (parts_next parts.now) }
    requires before { All (λ entry. S.passing seek.now entry ≡ false)
        (take count (flat (parts_next parts.now))) }
    ensures { FirstAt result (S.passing seek.now) (parts_next parts.now) }
{
    let Some(begin) = spot_at(parts, count) else {
        return None;
    };
    let slot = begin.slot;
    match first_in(entries_from(parts[slot].next(), begin.at), seek) {
        Some(at) => Some(Spot {
            slot,
            at: begin.at + at,
        }),
        None => first_spot(parts, guides, seek, slot + 1),
    }
}

/// The spot of the last entry next that passes.
pub fn last_spot<T: Copy, S: Seek<T>>(parts: &[Part<T>], seek: &S) -> Option<Spot>
    ensures { LastAt result (S.passing seek.now) (parts_next parts.now) }
{
    let mut left = parts.len();
    'parts: while left > 0 {
        let slot = left - 1;
        if let Some(at) = parts[slot].last(seek) {
            return Some(Spot { slot, at });
        }
        left = slot;
    }
    None
}

/// The spot of the entry next before another one; `None` if that one is the first.
pub fn spot_before<T: Copy>(parts: &[Part<T>], spot: Spot) -> Option<Spot>
    requires { IsEntry (parts_next parts.now) spot }
    ensures { IsBefore result spot (parts_next parts.now) }
{
    if spot.at > 0 {
        return Some(Spot {
            slot: spot.slot,
            at: spot.at - 1,
        });
    }
    let mut left = spot.slot;
    'parts: while left > 0 {
        let slot = left - 1;
        let len = parts[slot].next().len();
        if len > 0 {
            return Some(Spot { slot, at: len - 1 });
        }
        left = slot;
    }
    None
}

/// The spot of the entry next at a place of the list, counted from 0; `None` past the last.
pub fn spot_at<T: Copy>(parts: &[Part<T>], place: usize) -> Option<Spot>
    ensures { StandsAt result place (parts_next parts.now) }
{
    let mut at = place;
    let mut slot = 0;
    'parts: while slot < parts.len() {
        let len = parts[slot].next().len();
        if at < len {
            return Some(Spot { slot, at });
        }
        at -= len;
        slot += 1;
    }
    None
}

/// The place in the list of the entry next at a spot, counted from 0.
pub fn place_of<T: Copy>(parts: &[Part<T>], spot: Spot) -> usize
    requires part { spot.slot < length parts.now }
    requires few { place (parts_next parts.now) spot < 2 ^ 64 }
    ensures { result ≡ place (parts_next parts.now) spot }
{
    let mut place = spot.at;
    let mut left = spot.slot;
    'parts: while left > 0 {
        left -= 1;
        place += parts[left].next().len();
    }
    place
}
