//! What differs between the entries of a part now and next.

ghost use Rattle.std.specs.Prelude.{◌≡◌, ℕ, ◌+◌, ◌-◌, ◌<◌, ◌≤◌, ◌^◌, ◌++◌, List, true, drop, length, map, take, OnOk};
ghost use Rattle.std.specs.List.{All};
ghost use Rattle.ucd_points.specs.declared.files.SourceFile.{SourceFile as FileValue};
ghost use Rattle.release_rows.specs.Back.{LeadsOn};
ghost use Rattle.release_rows.specs.FileItems.{FileItem};
ghost use Rattle.release_rows.specs.StoredItems.{item_at, stored_at, IsStored};

use crate::patch::Patch;
use crate::splice::Splice;
use crate::stored_item::StoredItem;
use part_list::Entry;
use std::alloc::Global;
use ucd_facts::{Memory, SourceFile};

/// Whether two items of one text are told to be the same by where they stand, their ends and their numbers of lines.
fn is_same(one: StoredItem, other: StoredItem) -> bool
    ensures { result ≡ true → (file : FileValue) (text : List ℕ)
        → item_at file text one ≡ item_at file text other }
{
    one.start == other.start
        && one.len == other.len
        && one.ending == other.ending
        && one.lines == other.lines
}

/// How many items both begin with.
fn same_front(now: &[Entry<StoredItem>], next: &[Entry<StoredItem>]) -> usize
    ensures now { result ≤ length now.now }
    ensures next { result ≤ length next.now }
    ensures same { (file : FileValue) (text : List ℕ)
        → take result (map (stored_at file text) now.now)
        ≡ take result (map (stored_at file text) next.now) }
{
    let mut count = 0;
    'items: while count < now.len() && count < next.len() {
        if !is_same(now[count].item, next[count].item) {
            return count;
        }
        count += 1;
    }
    count
}

/// How many items both end with.
fn same_end(now: &[Entry<StoredItem>], next: &[Entry<StoredItem>]) -> usize
    ensures now { result ≤ length now.now }
    ensures next { result ≤ length next.now }
    ensures same { (file : FileValue) (text : List ℕ)
        → drop (length now.now - result) (map (stored_at file text) now.now)
        ≡ drop (length next.now - result) (map (stored_at file text) next.now) }
{
    let mut count = 0;
    'items: while count < now.len() && count < next.len() {
        let one = now[now.len() - 1 - count].item;
        let other = next[next.len() - 1 - count].item;
        if !is_same(one, other) {
            return count;
        }
        count += 1;
    }
    count
}

/// Puts the splice that leads from the entries next of a part back to those now behind the others, if they differ. Items
/// that both begin or end with are left out. The part begins at the place `at` of the list.
///
/// - `Memory`: memory ran out, or the items have 2^32 bytes or more.
pub fn put_difference(
    alloc: Global,
    file: SourceFile,
    text: &[u8],
    at: usize,
    now: &[Entry<StoredItem>],
    next: &[Entry<StoredItem>],
    patch: &mut Patch,
) -> Result<(), Memory>
    requires now { All (IsStored file text.now) now.now }
    requires next { All (IsStored file text.now) next.now }
    requires fits { at + length now.now < 2 ^ 64 }
    ensures { OnOk result ((before behind : List FileItem) → at ≡ length before
        → LeadsOn patch.old patch.new file
        (before ++ (map (stored_at file text.now) next.now ++ behind))
        (before ++ (map (stored_at file text.now) now.now ++ behind))) }
{
    let front = same_front(now, next);
    let (now, next) = (&now[front..], &next[front..]);
    let end = same_end(now, next);
    let (now, next) = (&now[..now.len() - end], &next[..next.len() - end]);
    if now.is_empty() && next.is_empty() {
        return Ok(());
    }
    let splice = Splice::copied_from(alloc, file, text, at + front, next, now)?;
    patch.push(splice)
}
