//! The way from the entries of a file next back to those now.

ghost use Rattle.std.specs.Prelude.{◌≡◌, ◌+◌, ◌<◌, ◌^◌, length, map, take, OnOk};
ghost use Rattle.std.specs.List.{All};
ghost use Rattle.part_list.specs.Parts.{flat, next_in, now_in};
ghost use Rattle.release_rows.specs.Back.{LeadsOn, turned};
ghost use Rattle.release_rows.specs.StoredItems.{stored_at, IsStored};

use crate::difference::put_difference;
use crate::patch::Patch;
use crate::stored_item::StoredItem;
use part_list::PartList;
use std::alloc::Global;
use ucd_facts::{Memory, SourceFile};

/// Puts the splice of a part behind the others, if the part was edited. It begins at the place `at` of the list now.
///
/// - `Memory`: memory ran out, or its items have 2^32 bytes or more.
fn put_part(
    alloc: Global,
    file: SourceFile,
    text: &[u8],
    items: &PartList<StoredItem>,
    slot: usize,
    at: usize,
    patch: &mut Patch,
) -> Result<(), Memory>
    requires now { All (IsStored file text.now) (now_in items.now) }
    requires next { All (IsStored file text.now) (next_in items.now) }
    requires few { length (now_in items.now) < 2 ^ 33 }
    requires part { slot < length items.now.now }
    requires both { length items.now.next ≡ length items.now.now }
    requires at { at ≡ length (flat (take slot items.now.now)) }
    ensures { OnOk result (LeadsOn patch.old patch.new file
        (map (stored_at file text.now) (turned items.now slot))
        (map (stored_at file text.now) (turned items.now (slot + 1)))) }
{
    let now = items.part(slot);
    match items.edited_part(slot) {
        Some(next) => put_difference(alloc, file, text, at, now, next, patch),
        None => Ok(()),
    }
}

/// Puts the splices that lead from the entries next back to those now behind the others: one for each part that was
/// edited.
///
/// - `Memory`: memory ran out, or the items of a splice have 2^32 bytes or more.
pub fn put_way_back(
    alloc: Global,
    file: SourceFile,
    text: &[u8],
    items: &PartList<StoredItem>,
    patch: &mut Patch,
) -> Result<(), Memory>
    requires now { All (IsStored file text.now) (now_in items.now) }
    requires next { All (IsStored file text.now) (next_in items.now) }
    requires few { length (now_in items.now) < 2 ^ 33 }
    ensures { OnOk result (LeadsOn patch.old patch.new file
        (map (stored_at file text.now) (next_in items.now))
        (map (stored_at file text.now) (now_in items.now))) }
{
    let mut slot = 0;
    let mut at = 0;
    'parts: while slot < items.part_count() {
        put_part(alloc, file, text, items, slot, at, patch)?;
        at += items.part(slot).len();
        slot += 1;
    }
    Ok(())
}
