//! Changes of all parts of a list together.

ghost use Rattle.std.specs.Prelude.{◌≡◌, ◌+◌, ◌<◌, ◌++◌, [], true, take, map, slice_index_or, vec_len};
ghost use Rattle.std.specs.List.{filter};
ghost use Rattle.part_list.specs.Guides.{Covers};
ghost use Rattle.part_list.specs.Parts.{flat, part_at};
ghost use Rattle.part_list.specs.PartValues.{committed, discarded, has_entries, parts_now, parts_next};

use crate::part::Part;
use crate::reach::Reach;
use std::alloc::Global;
use ucd_points::ListOf;

/// A part with more entries next is cut in two.
const MOST: usize = 256;

/// Makes what is next what is now in each part. It takes no memory.
pub fn commit_all<T: Copy>(parts: &mut Vec<Part<T>>)
    ensures { parts.new.items ≡ map committed parts.old.items }
{
    let mut slot = 0;
    'parts: while slot < parts.len() {
        parts[slot].commit();
        slot += 1;
    }
}

/// Makes what is now what is next in each part. It takes no memory.
pub fn discard_all<T: Copy>(parts: &mut Vec<Part<T>>)
    ensures { parts.new.items ≡ map discarded parts.old.items }
{
    let mut slot = 0;
    'parts: while slot < parts.len() {
        parts[slot].discard();
        slot += 1;
    }
}

/// Drops the parts that have no entries. It takes no memory.
fn drop_empty<T: Copy>(parts: &mut Vec<Part<T>>)
    ensures { parts.new.items ≡ filter has_entries parts.old.items }
{
    parts.retain(|part| part.has_entries());
}

/// Drops the parts that have no entries, of parts that are not edited and of which some shrank. If some go, others move into other
/// blocks, so no block keeps its bounds. It takes no memory.
pub fn drop_empty_if_shrunk<T: Copy>(
    parts: &mut Vec<Part<T>>,
    guides: &mut Vec<Reach>,
    some_shrank: bool,
)
    requires settled { map committed parts.old.items ≡ parts.old.items }
    requires covers { Covers guides.old.items (parts_next parts.old.items) }
    ensures now { flat (parts_now parts.new.items) ≡ flat (parts_now parts.old.items) }
    ensures next { flat (parts_next parts.new.items) ≡ flat (parts_next parts.old.items) }
    ensures same { parts_now parts.new.items ≡ parts_next parts.new.items }
    ensures covers { Covers guides.new.items (parts_next parts.new.items) }
{
    if some_shrank && parts.iter().any(|part| !part.has_entries()) {
        drop_empty(parts);
        guides.clear();
    }
}

/// Cuts a part in two if it has grown long. If there is no memory for that, it stays whole.
pub fn split_if_long<T: Copy>(alloc: Global, parts: &mut Vec<Part<T>>, slot: usize)
    requires { slot < vec_len parts.old }
    ensures now { flat (parts_now parts.new.items) ≡ flat (parts_now parts.old.items) }
    ensures next { flat (parts_next parts.new.items) ≡ flat (parts_next parts.old.items) }
    ensures whole { vec_len parts.new ≡ vec_len parts.old → parts.new.items ≡ parts.old.items }
{
    let part = &parts[slot];
    let entries = part.next();
    if !part.is_edited() || entries.len() <= MOST {
        return;
    }
    let half = entries.len() / 2;
    if let Ok(rest) = Vec::from_slice(alloc, &entries[half..]) {
        split_at_half(
            parts,
            slot,
            half,
            Part::with_next_only(alloc, ListOf::from_vec(rest)),
        );
    }
}

/// Keeps the first `half` entries next of an edited part, and puts a part with the others behind it.
/// If there is no memory for that, it changes nothing.
fn split_at_half<T: Copy>(parts: &mut Vec<Part<T>>, slot: usize, half: usize, behind: Part<T>)
    requires part { slot < vec_len parts.old }
    requires edited { (d : _) → (slice_index_or parts.old.items slot d).edited ≡ true }
    requires now { behind.now ≡ [] }
    requires next { take half (part_at (parts_next parts.old.items) slot) ++ behind.next
        ≡ part_at (parts_next parts.old.items) slot }
    ensures now { flat (parts_now parts.new.items) ≡ flat (parts_now parts.old.items) }
    ensures next { flat (parts_next parts.new.items) ≡ flat (parts_next parts.old.items) }
    ensures whole { vec_len parts.new ≡ vec_len parts.old → parts.new.items ≡ parts.old.items }
{
    if parts.insert(slot + 1, behind).is_ok() {
        parts[slot].truncate(half);
    }
}
