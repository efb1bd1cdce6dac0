//! The groups and the keys of the rows of a file, by which one that has no row yet is told at once.

ghost use Rattle.std.specs.Prelude.{◌≡◌, map, Ok};
ghost use Rattle.std.specs.List.{All};
ghost use Rattle.part_list.specs.Parts.{next_in, now_in};
ghost use Rattle.part_list.specs.SeenNumbers.{Grows};
ghost use Rattle.source_rows.specs.Faults.{row_or_fault};
ghost use Rattle.source_rows.specs.Keys.{row_span};
ghost use Rattle.ucd_facts.specs.declared.row.Row.{Row as RowValue};
ghost use Rattle.release_rows.specs.Noted.{AreNoted, RowNoted};
ghost use Rattle.release_rows.specs.StoredItems.{IsStored, stored_at};

use crate::hash::{content_hash, group_hash};
use crate::stored_item::{StoredItem, content_in};
use part_list::{Entries, PartList, SeenNumbers};
use source_rows::{content_section, contents_have_keys};
use std::alloc::Global;
use ucd_facts::SourceFile;

/// Whether groups and keys of the file's rows are noted: those of PropList.txt, of SpecialCasing.txt, and of the files whose keys are names
/// alone.
pub fn has_hashes(file: SourceFile) -> bool {
    matches!(
        file,
        SourceFile::PropList
            | SourceFile::SpecialCasing
            | SourceFile::PropertyAliases
            | SourceFile::PropertyValueAliases
    )
}

/// Notes the group and the key of a row that begins with this code point and stands in this content, if they are noted at all.
pub fn note_hashes(seen_hashes: &mut SeenNumbers, file: SourceFile, code: u32, content: &[u8])
    ensures noted { (row : RowValue) → row_or_fault file content.now ≡ Ok row
        → code ≡ (row_span row).lo → RowNoted file seen_hashes.new row }
    ensures grows { Grows seen_hashes.old seen_hashes.new }
{
    contents_have_keys();
    if !seen_hashes.are_unknown() {
        seen_hashes.put(group_hash(content_section(file, content)));
        seen_hashes.put(content_hash(file, code, content));
    }
}

/// Notes the groups and the keys of the rows of entries.
fn note_all(
    seen_hashes: &mut SeenNumbers,
    file: SourceFile,
    text: &[u8],
    mut entries: Entries<'_, StoredItem>,
)
    requires { All (IsStored file text.now) entries }
    ensures noted { AreNoted file seen_hashes.new (map (stored_at file text.now) entries.entry) }
    ensures grows { Grows seen_hashes.old seen_hashes.new }
{
    'entries: while let Some(entry) = entries.next() {
        note_hashes(seen_hashes, file, entry.code, content_in(text, entry.item));
    }
}

/// The groups and the keys of the rows of a file, now and next, as far as there is memory for them.
pub fn hashes_of(
    alloc: Global,
    file: SourceFile,
    text: &[u8],
    items: &PartList<StoredItem>,
) -> SeenNumbers
    requires now { All (IsStored file text.now) (now_in items.now) }
    requires next { All (IsStored file text.now) (next_in items.now) }
    ensures now { AreNoted file result (map (stored_at file text.now) (now_in items.now)) }
    ensures next { AreNoted file result (map (stored_at file text.now) (next_in items.now)) }
{
    let mut seen_hashes = SeenNumbers::none(alloc);
    note_all(&mut seen_hashes, file, text, items.entries());
    note_all(&mut seen_hashes, file, text, items.next_entries());
    seen_hashes
}
