//! Puts the bytes of a row into the text of its file.

ghost use Rattle.std.specs.Prelude.{◌≡◌, ◌++◌, Ok, length, IfOk, OnOk, OnErr, if◌then◌else◌};
ghost use Rattle.ucd_points.specs.Lines.{holds_line_feed};
ghost use Rattle.ucd_lines.specs.Items.{ending_of};
ghost use Rattle.source_rows.specs.Faults.{row_or_fault};
ghost use Rattle.part_list.specs.SeenNumbers.{Grows};
ghost use Rattle.release_rows.specs.Noted.{RowNoted};
ghost use Rattle.release_rows.specs.Operations.{item_of_row};
ghost use Rattle.release_rows.specs.StoredItems.{stored_at, IsStored};

use crate::brief::Brief;
use crate::noted::note_hashes;
use crate::row_key::{row_last, row_start};
use crate::stored_item::StoredItem;
use crate::tag::content_tag;
use part_list::{Entry, SeenNumbers};
use source_rows::{rows_are_no_trivia, rows_are_read};
use ucd_facts::{Memory, Row, SourceFile, Text};
use ucd_lines::Ending;

/// How many lines the bytes of a row have: two with a LF, else one.
fn lines_in(bytes: &[u8]) -> u8
    ensures { result ≡ if holds_line_feed bytes.now then 2 else 1 }
{
    if bytes.contains(&b'\n') { 2 } else { 1 }
}

/// Where bytes have their place at the end of a text: the text's length and theirs.
///
/// - `Memory`: the text would have 2^32 bytes or more.
pub fn place_behind(text: &[u8], bytes: &[u8]) -> Result<(u32, u32), Memory>
    ensures { IfOk result (λ place. (place.0 ≡ length text.now) × (place.1 ≡ length bytes.now)) }
{
    let (Ok(start), Ok(len)) = (u32::try_from(text.len()), u32::try_from(bytes.len())) else {
        return Err(Memory);
    };
    if start.checked_add(len).is_none() {
        return Err(Memory);
    }
    Ok((start, len))
}

/// Puts the bytes that a row is read from at the end of the text, and notes the row's group and its key: its entry, which stands there.
///
/// - `Memory`: memory ran out, or the text would have 2^32 bytes or more. The text stays as it was; what is noted stays.
pub fn store_row(
    text: &mut Text,
    seen_hashes: &mut SeenNumbers,
    file: SourceFile,
    row: &Row,
    bytes: &[u8],
    ending: Ending,
) -> Result<Entry<StoredItem>, Memory>
    requires { row_or_fault file bytes.now ≡ Ok row.now }
    ensures ok { OnOk result (text.new ≡ text.old ++ bytes.now) }
    ensures stored { IfOk result (λ entry. IsStored file text.new entry) }
    ensures item { IfOk result (λ entry. stored_at file text.new entry
        ≡ item_of_row row.now bytes.now (ending_of ending)) }
    ensures err { OnErr result (text.new ≡ text.old) }
    ensures noted { RowNoted file seen_hashes.new row.now }
    ensures grows { Grows seen_hashes.old seen_hashes.new }
{
    rows_are_read();
    rows_are_no_trivia();
    note_hashes(seen_hashes, file, row_start(row), bytes);
    let (start, len) = place_behind(text.as_slice(), bytes)?;
    text.append(bytes)?;
    let item = StoredItem {
        start,
        len,
        ending,
        lines: lines_in(bytes),
        brief: Brief::of_row(row),
    };
    Ok(Entry {
        code: row_start(row),
        last: row_last(row),
        tag: content_tag(file, bytes),
        item,
    })
}
