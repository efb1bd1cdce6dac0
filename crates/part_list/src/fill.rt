//! Puts entries into parts.

ghost use Rattle.std.specs.Prelude.{◌≡◌, ℕ, ◌+◌, ◌<◌, ◌≤◌, [], ◌∷◌, ◌++◌, length, vec_len, OnOk, OnErr};
ghost use Rattle.part_list.specs.Parts.{flat, part_at, place, spliced};
ghost use Rattle.part_list.specs.PartValues.{parts_now, parts_next};
ghost use Rattle.part_list.specs.Puts.{put_entries};

use crate::change::split_if_long;
use crate::entry::Entry;
use crate::part::Part;
use crate::put::Put;
use crate::spot::Spot;
use std::alloc::Global;
use ucd_points::{ListOf, Memory};

/// Puts an entry at the end, now and next.
///
/// - `Memory`: memory ran out. The parts stay as they were.
pub fn push<T: Copy>(alloc: Global, parts: &mut Vec<Part<T>>, entry: Entry<T>) -> Result<(), Memory>
    ensures now { OnOk result (flat (parts_now parts.new.items) ≡ flat (parts_now parts.old.items)
        ++ entry ∷ []) }
    ensures next { OnOk result (flat (parts_next parts.new.items)
        ≡ flat (parts_next parts.old.items) ++ entry ∷ []) }
    ensures err { OnErr result (parts.new.items ≡ parts.old.items) }
{
    let count = parts.len();
    if count > 0 && parts[count - 1].takes_more() {
        return parts[count - 1].push(entry);
    }
    parts.push(Part::of(alloc, entry)?)?;
    Ok(())
}

/// Puts entries next in the place of the `removed` ones from a spot on.
///
/// - `Memory`: memory ran out. The parts stay as they were.
fn splice<T: Copy>(
    alloc: Global,
    parts: &mut Vec<Part<T>>,
    spot: Spot,
    removed: usize,
    put: Put<T>,
) -> Result<(), Memory>
    requires part { spot.slot < vec_len parts.old }
    requires within { spot.at + removed ≤ length (part_at (parts_next parts.old.items) spot.slot) }
    ensures len { vec_len parts.new ≡ vec_len parts.old }
    ensures now { parts_now parts.new.items ≡ parts_now parts.old.items }
    ensures others { (k : ℕ) → (k ≡ spot.slot → ⊥)
        → part_at (parts_next parts.new.items) k ≡ part_at (parts_next parts.old.items) k }
    ensures ok { OnOk result (flat (parts_next parts.new.items)
        ≡ spliced (flat (parts_next parts.old.items))
        (place (parts_next parts.old.items) spot) removed (put_entries put)) }
    ensures err { OnErr result (parts.new.items ≡ parts.old.items) }
{
    parts[spot.slot].splice(alloc, spot.at, removed, put)
}

/// Puts entries next in the place of the `removed` ones from a spot on, and cuts the part in two if it has grown long.
///
/// - `Memory`: memory ran out. The parts stay as they were.
pub fn edit<T: Copy>(
    alloc: Global,
    parts: &mut Vec<Part<T>>,
    spot: Spot,
    removed: usize,
    put: Put<T>,
) -> Result<(), Memory>
    requires part { spot.slot < length (parts_next parts.old.items) }
    requires within { spot.at + removed ≤ length (part_at (parts_next parts.old.items) spot.slot) }
    ensures now { flat (parts_now parts.new.items) ≡ flat (parts_now parts.old.items) }
    ensures others { vec_len parts.new ≡ vec_len parts.old → (k : ℕ) → (k ≡ spot.slot → ⊥)
        → part_at (parts_next parts.new.items) k ≡ part_at (parts_next parts.old.items) k }
    ensures ok { OnOk result (flat (parts_next parts.new.items)
        ≡ spliced (flat (parts_next parts.old.items))
        (place (parts_next parts.old.items) spot) removed (put_entries put)) }
    ensures err { OnErr result (parts.new.items ≡ parts.old.items) }
{
    splice(alloc, parts, spot, removed, put)?;
    split_if_long(alloc, parts, spot.slot);
    Ok(())
}

/// Puts an entry next into a list without parts.
///
/// - `Memory`: memory ran out. The parts stay as they were.
pub fn put_first_entry<T: Copy>(
    alloc: Global,
    parts: &mut Vec<Part<T>>,
    entry: Entry<T>,
) -> Result<(), Memory>
    requires { parts.old.items ≡ [] }
    ensures now { flat (parts_now parts.new.items) ≡ [] }
    ensures ok { OnOk result (flat (parts_next parts.new.items) ≡ entry ∷ []) }
    ensures err { OnErr result (parts.new.items ≡ parts.old.items) }
{
    let mut entries = ListOf::new(alloc);
    entries.push(entry)?;
    parts.push(Part::with_next_only(alloc, entries))?;
    Ok(())
}
