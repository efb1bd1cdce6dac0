//! A source file as it is kept.

ghost use Rattle.std.specs.Prelude.{◌≡◌, ◌<◌, ◌^◌, [], filter, length, map, IfOk};
ghost use Rattle.std.specs.List.{All};
ghost use Rattle.std.specs.Option.{IfSome};
ghost use Rattle.part_list.specs.Parts.{now_in, next_in};
ghost use Rattle.release_rows.specs.FileItems.{bytes_of, rows_in};
ghost use Rattle.release_rows.specs.Releases.{rows_at};
ghost use Rattle.release_rows.specs.StoredItems.{stored_at, IsStored, IsWhole};
ghost use Rattle.release_rows.specs.Touching.{meets};

use crate::join::joined_items;
use crate::lead::Leads;
use crate::row_iter::Rows;
use crate::row_text::RowText;
use crate::stored_item::StoredItem;
use crate::touching::next_rows_touching;
use part_list::{PartList, SeenNumbers};
use std::alloc::Global;
use std::marker::Model;
use ucd_facts::{Copied, Memory, SourceFile, Span, Text};

/// A text that only grows, and where the items of a file stand in it, now and next. A row is kept as its bytes alone,
/// which are read as that row. Contracts see the items.
#[derive(Debug, Drop)]
pub struct FileText {
    pub(crate) file: SourceFile,
    pub(crate) text: Text,
    pub(crate) items: PartList<StoredItem>,
    /// Whether the items put together are the text, now and next, as they are until the first edit.
    pub(crate) whole: bool,
    /// How many items were added since the file was loaded.
    pub(crate) added: u32,
    /// Hashes of the groups and the keys of the rows, now and next, if those of the file are noted: from the first addition on.
    pub(crate) seen_hashes: SeenNumbers,
    /// Rows by which the place of an added row is found, if keys are names alone.
    pub(crate) leads: Leads,
}

impl Model for FileText {
    ghost use Rattle.std.specs.Prelude.{◌≡◌, true, map};
    ghost use Rattle.part_list.specs.Parts.{now_in, next_in};
    ghost use Rattle.release_rows.specs.FileItems.{FileLists};
    ghost use Rattle.release_rows.specs.Noted.{KeepNotes};
    ghost use Rattle.release_rows.specs.Leads.{KeepLeads};
    ghost use Rattle.release_rows.specs.StoredItems.{stored_at, AreWhole, IsKeptFile};

    ghost Value = { FileLists };

    ghost view = { λ f. record { file = f.file; now = map (stored_at f.file f.text) (now_in f.items); next = map (stored_at f.file f.text) (next_in f.items) } };

    ghost invariant = { λ f. IsKeptFile f.file f.text f.added f.items × (f.whole ≡ true → AreWhole f.file f.text f.items) × KeepNotes f.file f.text f.seen_hashes f.items × KeepLeads f.file f.text (map (stored_at f.file f.text) (next_in f.items)) f.leads };
}

impl FileText {
    /// The file without items. It takes no memory.
    pub fn empty(alloc: Global, file: SourceFile) -> FileText
        ensures { result ≡ record { file = file; now = []; next = [] } }
    {
        FileText {
            file,
            text: Text::new(alloc),
            items: PartList::new(alloc),
            whole: true,
            added: 0,
            seen_hashes: SeenNumbers::unknown(),
            leads: Leads::none(),
        }
    }

    /// The file of a text that is cut into these items, now and next.
    pub fn new(file: SourceFile, text: Text, items: PartList<StoredItem>) -> FileText
        requires each { All (IsStored file text) (now_in items) }
        requires same { next_in items ≡ now_in items }
        requires few { length (now_in items) < 2 ^ 32 }
        requires whole { IsWhole file text (now_in items) }
        ensures file { result.file ≡ file }
        ensures now { result.now ≡ map (stored_at file text) (now_in items) }
        ensures next { result.next ≡ result.now }
    {
        FileText {
            file,
            text,
            items,
            whole: true,
            added: 0,
            seen_hashes: SeenNumbers::unknown(),
            leads: Leads::none(),
        }
    }

    /// The bytes of the file now: its items, put together.
    ///
    /// - `Memory`: memory ran out.
    pub fn text(&self, alloc: Global) -> Result<Text, Memory>
        ensures { IfOk result (λ text. text ≡ bytes_of self.now.now) }
    {
        if self.whole {
            let mut text = Text::new(alloc);
            text.append(self.text.as_slice())?;
            return Ok(text);
        }
        joined_items(alloc, self.file, self.text.as_slice(), self.items.entries())
    }

    /// The bytes of the file now, if they are kept as one text: the file was not edited. `None` of another.
    pub fn whole_text(&self) -> Option<&[u8]>
        ensures { IfSome result (λ bytes. bytes.now ≡ bytes_of self.now.now) }
    {
        if self.whole {
            return Some(self.text.as_slice());
        }
        None
    }

    /// The rows of the file now, in order, each with the number of its first line.
    pub fn rows(&self) -> Rows<'_>
        ensures { result ≡ rows_at self.now.now }
    {
        Rows::new(self.file, self.text.as_slice(), self.items.entries())
    }

    /// The rows of the file next, in order, each with the number of its first line.
    pub fn next_rows(&self) -> Rows<'_>
        ensures { result ≡ rows_at self.now.next }
    {
        Rows::new(self.file, self.text.as_slice(), self.items.next_entries())
    }

    /// The rows of the file next that speak of a code point in some of the spans, in order.
    ///
    /// - `Memory`: memory ran out.
    pub fn next_rows_in(&self, alloc: Global, spans: &[Span]) -> Result<Vec<RowText<'_>>, Memory>
        ensures { IfOk result (λ rows. rows.items
            ≡ filter (meets spans.now) (rows_in self.now.next)) }
    {
        let text = self.text.as_slice();
        let rows = next_rows_touching(alloc, self.file, text, &self.items, spans)?;
        Ok(rows)
    }
}

impl Copied for FileText {
    fn copied(&self, alloc: Global) -> Result<FileText, Memory> {
        let text = Text::of(alloc, self.text.as_slice())?;
        let items = self.items.copied(alloc)?;
        Ok(FileText {
            file: self.file,
            text,
            items,
            whole: self.whole,
            added: self.added,
            seen_hashes: SeenNumbers::unknown(),
            leads: Leads::none(),
        })
    }
}
