//! Puts the items of a file together.

ghost use Rattle.std.specs.Prelude.{◌≡◌, ◌++◌, map, IfOk, OnOk};
ghost use Rattle.std.specs.List.{All};
ghost use Rattle.ucd_lines.specs.Items.{ending_of};
ghost use Rattle.ucd_points.specs.Lines.{ending_bytes};
ghost use Rattle.release_rows.specs.FileItems.{bytes_of, file_item_bytes};
ghost use Rattle.release_rows.specs.StoredItems.{item_at, stored_at, IsItem, IsStored};

use crate::stored_item::{StoredItem, content_in};
use part_list::Entries;
use std::alloc::Global;
use ucd_facts::{Memory, SourceFile, Text};
use ucd_lines::Ending;

/// The bytes of an ending.
fn ending_text(ending: Ending) -> &'static [u8]
    ensures { result.now ≡ ending_bytes (ending_of ending) }
{
    match ending {
        Ending::None => b"",
        Ending::Lf => b"\n",
        Ending::CrLf => b"\r\n",
    }
}

/// Puts the content of an item and the bytes of its ending at the end of a text.
///
/// - `Memory`: memory ran out.
fn put_item(
    file: SourceFile,
    text: &[u8],
    stored: StoredItem,
    into: &mut Text,
) -> Result<(), Memory>
    requires { IsItem file text.now stored }
    ensures { OnOk result (into.new ≡ into.old ++ file_item_bytes (item_at file text.now stored)) }
{
    into.append(content_in(text, stored))?;
    into.append(ending_text(stored.ending))?;
    Ok(())
}

/// The bytes of items of a text, put together.
///
/// - `Memory`: memory ran out.
pub fn joined_items(
    alloc: Global,
    file: SourceFile,
    text: &[u8],
    mut items: Entries<'_, StoredItem>,
) -> Result<Text, Memory>
    requires { All (IsStored file text.now) items }
    ensures { IfOk result (λ bytes. bytes ≡ bytes_of (map (stored_at file text.now) items.entry)) }
{
    let mut bytes = Text::new(alloc);
    'items: while let Some(entry) = items.next() {
        put_item(file, text, entry.item, &mut bytes)?;
    }
    Ok(bytes)
}
