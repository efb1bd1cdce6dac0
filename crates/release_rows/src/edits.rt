//! Edits of the entries of a file, next.

ghost use Rattle.std.specs.Prelude.{◌≡◌, ℕ, ◌+◌, ◌<◌, ◌≤◌, ◌^◌, true, false, List, length, map, IfSome, OnOk, OnErr};
ghost use Rattle.std.specs.List.{All, insert};
ghost use Rattle.ucd_points.specs.declared.files.SourceFile.{SourceFile as FileValue};
ghost use Rattle.ucd_facts.specs.declared.row.Row.{Row as RowValue};
ghost use Rattle.part_list.specs.Parts.{next_in, now_in};
ghost use Rattle.release_rows.specs.Gaps.{IsGapAt};
ghost use Rattle.release_rows.specs.Noted.{AreNoted};
ghost use Rattle.release_rows.specs.Keys.{is_missing_in};
ghost use Rattle.release_rows.specs.Leads.{KeepLeads};
ghost use Rattle.release_rows.specs.Operations.{place_in, put_in, with_end};
ghost use Rattle.release_rows.specs.Searches.{IsSoughtRow};
ghost use Rattle.release_rows.specs.StoredItems.{stored_at, IsStored};

use crate::hash::group_hash;
use crate::lead::{Leads, has_leads};
use crate::search::{Search, Test};
use crate::stored_item::StoredItem;
use part_list::{Entry, PartList, SeenNumbers, Spot};
use source_rows::contents_have_keys;
use ucd_facts::{Memory, SourceFile};
use ucd_lines::Ending;

/// Where an entry is put.
#[derive(Clone, Copy)]
pub enum Gap {
    /// Before this one, which is the first.
    Front(Spot),
    /// Behind this one.
    Behind(Spot),
    /// There are no entries.
    Only,
}

/// The gap behind all entries.
fn end_gap(items: &PartList<StoredItem>, search: &Search<'_>) -> Gap
    ensures { IsGapAt result (length (next_in items.now)) items.now.next }
{
    match items.last(&search.with(Test::Any)) {
        Some(spot) => Gap::Behind(spot),
        None => Gap::Only,
    }
}

/// Where a row other than a missing row has its place: before the first one of its group that has a greater key; if none
/// has, behind the last one of its group; if there is none, behind all. If it is known that no row has its group, nothing is looked for.
fn ordinary_gap(
    items: &PartList<StoredItem>,
    seen_hashes: &SeenNumbers,
    leads: &Leads,
    search: &Search<'_>,
) -> Gap
    requires sought { (row : RowValue)
        × IsSoughtRow search.now.file row search.now.text search.now }
    requires leads { KeepLeads search.now.file search.now.text
        (map (stored_at search.now.file search.now.text) (next_in items.now)) leads.now }
    requires noted { AreNoted search.now.file seen_hashes.now
        (map (stored_at search.now.file search.now.text) (next_in items.now)) }
    requires each { All (IsStored search.now.file search.now.text) (next_in items.now) }
    ensures { (row : RowValue) → IsSoughtRow search.now.file row search.now.text search.now
        → is_missing_in search.now.file row ≡ false
        → IsGapAt result (place_in search.now.file row
        (map (stored_at search.now.file search.now.text) (next_in items.now))) items.now.next }
{
    contents_have_keys();
    if !seen_hashes.may_have(group_hash(search.group)) {
        return end_gap(items, search);
    }
    if let Some(spot) = items.first_behind(
        leads.skippable_items(search),
        &search.with(Test::Follows),
    ) {
        return match items.before(spot) {
            Some(before) => Gap::Behind(before),
            None => Gap::Front(spot),
        };
    }
    if let Some(spot) = items.last(&search.with(Test::SameGroup)) {
        return Gap::Behind(spot);
    }
    end_gap(items, search)
}

/// Where a missing row has its place: behind the last missing row; if there is none, before all.
fn missing_gap(items: &PartList<StoredItem>, search: &Search<'_>) -> Gap
    requires each { All (IsStored search.now.file search.now.text) (next_in items.now) }
    ensures { (row : RowValue) → IsSoughtRow search.now.file row search.now.text search.now
        → is_missing_in search.now.file row ≡ true
        → IsGapAt result (place_in search.now.file row
        (map (stored_at search.now.file search.now.text) (next_in items.now))) items.now.next }
{
    contents_have_keys();
    if let Some(spot) = items.last(&search.with(Test::SameGroup)) {
        return Gap::Behind(spot);
    }
    match items.first(&search.with(Test::Any)) {
        Some(spot) => Gap::Front(spot),
        None => Gap::Only,
    }
}

/// Where a row that is added has its place.
pub fn gap_for(
    items: &PartList<StoredItem>,
    seen_hashes: &SeenNumbers,
    leads: &Leads,
    search: &Search<'_>,
) -> Gap
    requires sought { (row : RowValue)
        × IsSoughtRow search.now.file row search.now.text search.now }
    requires leads { KeepLeads search.now.file search.now.text
        (map (stored_at search.now.file search.now.text) (next_in items.now)) leads.now }
    requires noted { AreNoted search.now.file seen_hashes.now
        (map (stored_at search.now.file search.now.text) (next_in items.now)) }
    requires each { All (IsStored search.now.file search.now.text) (next_in items.now) }
    ensures { (row : RowValue) → IsSoughtRow search.now.file row search.now.text search.now
        → IsGapAt result (place_in search.now.file row
        (map (stored_at search.now.file search.now.text) (next_in items.now))) items.now.next }
{
    if search.seeks_missing_row() {
        missing_gap(items, search)
    } else {
        ordinary_gap(items, seen_hashes, leads, search)
    }
}

/// How many entries stand before a gap.
fn gap_place(items: &PartList<StoredItem>, gap: Gap) -> usize
    requires gap { (n : ℕ) × IsGapAt gap n items.now.next }
    requires few { length (next_in items.now) < 2 ^ 63 }
    ensures { (n : ℕ) → IsGapAt gap n items.now.next → result ≡ n }
{
    match gap {
        Gap::Front(_) | Gap::Only => 0,
        Gap::Behind(spot) => items.place_of(spot) + 1,
    }
}

/// How many entries stand before a gap of a file that has leads; `None` for another file.
pub fn gap_place_for_leads(
    file: SourceFile,
    items: &PartList<StoredItem>,
    gap: Gap,
) -> Option<usize>
    requires gap { (n : ℕ) × IsGapAt gap n items.now.next }
    requires few { length (next_in items.now) < 2 ^ 63 }
    ensures { (n : ℕ) → IsGapAt gap n items.now.next
        → IfSome result (λ count. count ≡ n) }
{
    if !has_leads(file) {
        return None;
    }
    Some(gap_place(items, gap))
}

/// The entry, with a LF if it has no line end.
fn with_line_end(entry: Entry<StoredItem>) -> Entry<StoredItem>
    ensures item { (file : FileValue) (text : List ℕ)
        → stored_at file text result ≡ with_end (stored_at file text entry) }
    ensures stored { (file : FileValue) (text : List ℕ) → IsStored file text entry
        → IsStored file text result }
{
    match entry.item.ending {
        Ending::None => Entry {
            item: StoredItem {
                ending: Ending::Lf,
                ..entry.item
            },
            ..entry
        },
        Ending::Lf | Ending::CrLf => entry,
    }
}

/// Puts an entry there next. The one before it then has a line end.
///
/// - `Memory`: memory ran out. The entries stay as they were.
pub fn put_in(
    items: &mut PartList<StoredItem>,
    gap: Gap,
    entry: Entry<StoredItem>,
) -> Result<(), Memory>
    requires { (n : ℕ) × IsGapAt gap n items.old.next }
    ensures now { now_in items.new ≡ now_in items.old }
    ensures ok { (file : FileValue) (text : List ℕ) (n : ℕ) → IsGapAt gap n items.old.next
        → OnOk result (map (stored_at file text) (next_in items.new)
        ≡ put_in (map (stored_at file text) (next_in items.old)) n
        (stored_at file text entry)) }
    ensures each { (file : FileValue) (text : List ℕ) → All (IsStored file text) (next_in items.old)
        → IsStored file text entry → OnOk result (All (IsStored file text) (next_in items.new)) }
    ensures len { OnOk result (length (next_in items.new) ≡ length (next_in items.old) + 1) }
    ensures err { OnErr result (items.new ≡ items.old) }
{
    match gap {
        Gap::Front(spot) => items.insert(spot, entry),
        Gap::Behind(spot) => {
            let ended = with_line_end(items.get(spot));
            items.replace_and_insert(spot, ended, entry)
        }
        Gap::Only => items.push_next(entry),
    }
}

/// Puts an entry in at a place of the list, next.
///
/// - `Memory`: memory ran out. The entries stay as they were.
pub fn put_at(
    items: &mut PartList<StoredItem>,
    at: usize,
    entry: Entry<StoredItem>,
) -> Result<(), Memory>
    requires { at ≤ length (next_in items.old) }
    ensures now { now_in items.new ≡ now_in items.old }
    ensures ok { OnOk result (next_in items.new ≡ insert (next_in items.old) at entry) }
    ensures err { OnErr result (items.new ≡ items.old) }
{
    match items.at(at) {
        Some(spot) => items.insert(spot, entry),
        None => items.push_next(entry),
    }
}
