//! What an operation finds among the entries of a file: its row's place, or the rule that it breaks.

ghost use Rattle.std.specs.Prelude.{◌≡◌, Ok, false, map, true};
ghost use Rattle.std.specs.List.{All};
ghost use Rattle.ucd_facts.specs.declared.row.Row.{Row as RowValue};
ghost use Rattle.source_rows.specs.Faults.{row_or_fault};
ghost use Rattle.source_rows.specs.Keys.{key_of};
ghost use Rattle.part_list.specs.Parts.{next_in};
ghost use Rattle.release_rows.specs.Finding.{FindsGap, FindsRow, FindsSpot, items_of};
ghost use Rattle.part_list.specs.SeenNumbers.{may_have};
ghost use Rattle.release_rows.specs.Noted.{AreNoted, key_hash};
ghost use Rattle.release_rows.specs.Keys.{is_missing_row};
ghost use Rattle.release_rows.specs.Leads.{KeepLeads};
ghost use Rattle.release_rows.specs.Operations.{has_key};
ghost use Rattle.release_rows.specs.Searches.{IsSoughtRow};
ghost use Rattle.release_rows.specs.StoredItems.{IsStored, stored_at};

use crate::edits::{Gap, gap_for};
use crate::hash::key_hash;
use crate::key_rule::KeyRule;
use crate::lead::Leads;
use crate::op_spans::{code_or_zero, has_code};
use crate::row_key::unshared_end;
use crate::search::{Search, Test};
use crate::stored_item::StoredItem;
use crate::tag::{content_tag, key_tag};
use part_list::{PartList, SeenNumbers, Spot};
use source_rows::{Key, content_section, contents_have_keys};
use ucd_facts::{Row, SourceFile};

/// Whether a row is a missing row.
fn is_missing_line(row: &Row) -> bool
    ensures { result ≡ is_missing_row row.now }
{
    matches!(row, Row::Missing(_))
}

/// What is looked for of an operation's row, with its key and the bytes that it is read from.
pub fn search_row<'a>(
    file: SourceFile,
    text: &'a [u8],
    row: &Row,
    key: &'a Key,
    bytes: &'a [u8],
) -> Search<'a>
    requires key { key.now ≡ key_of file row.now }
    requires reads { row_or_fault file bytes.now ≡ Ok row.now }
    ensures { IsSoughtRow file row.now text.now result }
{
    contents_have_keys();
    Search {
        test: Test::Any,
        file,
        text,
        code: code_or_zero(key),
        last: unshared_end(file, row),
        names: key.names.as_slice(),
        group: content_section(file, bytes),
        tag: content_tag(file, bytes),
        missing: is_missing_line(row),
    }
}

/// Where the row of an addition has its place.
///
/// - `K1`: a row has its key.
/// - `K4`: it overlaps a row.
pub fn added_gap(
    items: &PartList<StoredItem>,
    seen_hashes: &SeenNumbers,
    leads: &Leads,
    search: &Search<'_>,
) -> Result<Gap, KeyRule>
    requires sought { (row : RowValue)
        × IsSoughtRow search.now.file row search.now.text search.now }
    requires leads { KeepLeads search.now.file search.now.text
        (map (stored_at search.now.file search.now.text) (next_in items.now)) leads.now }
    requires each { All (IsStored search.now.file search.now.text) (next_in items.now) }
    requires noted { AreNoted search.now.file seen_hashes.now
        (map (stored_at search.now.file search.now.text) (next_in items.now)) }
    ensures { (row : RowValue) → IsSoughtRow search.now.file row search.now.text search.now
        → FindsGap result search.now.file search.now.text row items.now.next }
{
    contents_have_keys();
    if is_surely_new_key(seen_hashes, search) {
        return Ok(gap_for(items, seen_hashes, leads, search));
    }
    if items.first(&search.with(Test::SameKey)).is_some() {
        return Err(KeyRule::K1);
    }
    if items.first(&search.with(Test::OverlapsAnother)).is_some() {
        return Err(KeyRule::K4);
    }
    Ok(gap_for(items, seen_hashes, leads, search))
}

/// Whether no row has the hash of the key that is looked for, as far as keys are noted. So none has the key, and none overlaps the row.
fn is_surely_new_key(seen_hashes: &SeenNumbers, search: &Search<'_>) -> bool
    ensures { result ≡ true → may_have seen_hashes.now
        (key_hash search.now.file search.now.code search.now.names) ≡ false }
{
    !seen_hashes.may_have(key_hash(search.file, search.code, search.names))
}

/// Where the row stands that a change replaces.
///
/// - `K2`: no row has its key.
/// - `K4`: it overlaps another row.
pub fn changed_spot(items: &PartList<StoredItem>, search: &Search<'_>) -> Result<Spot, KeyRule>
    requires each { All (IsStored search.now.file search.now.text) (next_in items.now) }
    ensures { (row : RowValue) → IsSoughtRow search.now.file row search.now.text search.now
        → FindsSpot result search.now.file search.now.text row items.now.next }
{
    contents_have_keys();
    let Some(spot) = items.first(&search.with(Test::SameKey)) else {
        return Err(KeyRule::K2);
    };
    if items.first(&search.with(Test::OverlapsAnother)).is_some() {
        return Err(KeyRule::K4);
    }
    Ok(spot)
}

/// Where the row stands that has a key.
///
/// - `K2`: no row has it.
pub fn withdrawn_spot(
    items: &PartList<StoredItem>,
    file: SourceFile,
    text: &[u8],
    key: &Key,
) -> Result<Spot, KeyRule>
    requires each { All (IsStored file text.now) (next_in items.now) }
    ensures { FindsRow result (has_key file key.now)
        (items_of file text.now items.now.next) items.now.next }
{
    contents_have_keys();
    if key.code.is_some() != has_code(file) {
        return Err(KeyRule::K2);
    }
    let code = code_or_zero(key);
    let names = key.names.as_slice();
    let search = Search {
        test: Test::SameKey,
        file,
        text,
        code,
        last: code,
        names,
        group: &[],
        tag: key_tag(file, names),
        missing: false,
    };
    match items.first(&search) {
        Some(spot) => Ok(spot),
        None => Err(KeyRule::K2),
    }
}
