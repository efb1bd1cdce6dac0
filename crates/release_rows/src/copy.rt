//! Copies entries of one text to the end of another.

ghost use Rattle.std.specs.Prelude.{◌≡◌, IfOk, OnOk, OnErr};
ghost use Rattle.std.specs.List.{All};
ghost use Rattle.release_rows.specs.Back.{AreCopies, Grew};
ghost use Rattle.release_rows.specs.StoredItems.{stored_at, IsStored};

use crate::stored_item::{StoredItem, content_in};
use crate::stored_row::place_behind;
use part_list::Entry;
use std::alloc::Global;
use ucd_facts::{ListOf, Memory, SourceFile, Text};

/// Puts the content of an entry at the end of another text: the entry of the same item, which stands there.
///
/// - `Memory`: memory ran out, or the text would have 2^32 bytes or more. The text stays as it was.
pub fn copy_entry(
    file: SourceFile,
    from: &[u8],
    entry: &Entry<StoredItem>,
    into: &mut Text,
) -> Result<Entry<StoredItem>, Memory>
    requires { IsStored file from.now entry.now }
    ensures item { IfOk result (λ copy. stored_at file into.new copy
        ≡ stored_at file from.now entry.now) }
    ensures stored { IfOk result (λ copy. IsStored file into.new copy) }
    ensures grows { OnOk result (Grew into.old into.new) }
    ensures err { OnErr result (into.new ≡ into.old) }
{
    let content = content_in(from, entry.item);
    let (start, len) = place_behind(into.as_slice(), content)?;
    into.append(content)?;
    Ok(Entry {
        item: StoredItem {
            start,
            len,
            ..entry.item
        },
        ..*entry
    })
}

/// Copies of entries, in order.
///
/// - `Memory`: memory ran out, or the text would have 2^32 bytes or more.
pub fn copied(
    alloc: Global,
    file: SourceFile,
    from: &[u8],
    entries: &[Entry<StoredItem>],
    into: &mut Text,
) -> Result<ListOf<Entry<StoredItem>>, Memory>
    requires { All (IsStored file from.now) entries.now }
    ensures copies { IfOk result (λ copies. AreCopies file from.now entries.now into.new copies) }
    ensures grows { OnOk result (Grew into.old into.new) }
{
    let mut copies = ListOf::new(alloc);
    let mut done = 0;
    'entries: while done < entries.len() {
        let copy = copy_entry(file, from, &entries[done], into)?;
        copies.push(copy)?;
        done += 1;
    }
    Ok(copies)
}
