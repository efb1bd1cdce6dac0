//! Items of a file that stand in the place of earlier ones.

ghost use Rattle.std.specs.Prelude.{◌≡◌, ◌++◌, length, map, IfOk, OnOk};
ghost use Rattle.std.specs.List.{All};
ghost use Rattle.release_rows.specs.Patches.{item_spans};
ghost use Rattle.release_rows.specs.Operations.{spans_of};
ghost use Rattle.release_rows.specs.StoredItems.{stored_at, IsStored};

use crate::copy::copied;
use crate::op_spans::entry_spans;
use crate::stored_item::{StoredItem, content_in};
use part_list::Entry;
use std::alloc::Global;
use std::marker::Model;
use ucd_facts::{ListOf, Memory, SourceFile, Spans, Text};
use ucd_lines::is_trivia;

/// Some items of a file, and those that stood in their place before. Contracts see the items.
#[derive(Debug, Drop)]
pub struct Splice {
    file: SourceFile,
    /// The place of the first item, counted from 0.
    at: usize,
    /// The bytes of all these items.
    text: Text,
    later: ListOf<Entry<StoredItem>>,
    earlier: ListOf<Entry<StoredItem>>,
}

impl Model for Splice {
    ghost use Rattle.std.specs.Prelude.{map};
    ghost use Rattle.std.specs.List.{All};
    ghost use Rattle.release_rows.specs.Patches.{SpliceItems};
    ghost use Rattle.release_rows.specs.StoredItems.{stored_at, IsStored};

    ghost Value = { SpliceItems };

    ghost view = { λ s. record { file = s.file; at = s.at; later = map (stored_at s.file s.text) s.later; earlier = map (stored_at s.file s.text) s.earlier } };

    ghost invariant = { λ s. All (IsStored s.file s.text) s.later × All (IsStored s.file s.text) s.earlier };
}

/// Puts what the rows of entries speak of behind other spans.
///
/// - `Memory`: memory ran out.
fn put_spans(
    alloc: Global,
    file: SourceFile,
    text: &[u8],
    entries: &[Entry<StoredItem>],
    spans: &mut Spans,
) -> Result<(), Memory>
    requires { All (IsStored file text.now) entries.now }
    ensures { OnOk result (spans.new ≡ spans.old
        ++ item_spans (map (stored_at file text.now) entries.now)) }
{
    let mut done = 0;
    'entries: while done < entries.len() {
        put_entry_spans(alloc, file, text, &entries[done], spans)?;
        done += 1;
    }
    Ok(())
}

/// Puts what the row of an entry speaks of behind other spans; nothing of trivia.
///
/// - `Memory`: memory ran out.
fn put_entry_spans(
    alloc: Global,
    file: SourceFile,
    text: &[u8],
    entry: &Entry<StoredItem>,
    spans: &mut Spans,
) -> Result<(), Memory>
    requires { IsStored file text.now entry.now }
    ensures { OnOk result (spans.new ≡ spans.old
        ++ spans_of (stored_at file text.now entry.now).row) }
{
    if is_trivia(file, content_in(text, entry.item)) {
        return Ok(());
    }
    let more = entry_spans(alloc, file, entry)?;
    spans.append(more.as_slice())
}

impl Splice {
    /// Entries of a text that stand from a place on, and those that stood there before.
    ///
    /// - `Memory`: memory ran out, or they have 2^32 bytes or more.
    pub(crate) fn copied_from(
        alloc: Global,
        file: SourceFile,
        text: &[u8],
        at: usize,
        later: &[Entry<StoredItem>],
        earlier: &[Entry<StoredItem>],
    ) -> Result<Splice, Memory>
        requires later { All (IsStored file text.now) later.now }
        requires earlier { All (IsStored file text.now) earlier.now }
        ensures { IfOk result (λ s. s
            ≡ record {
              file = file;
              at = at;
              later = map
                  (stored_at file text.now) later.now;
              earlier = map
                  (stored_at file text.now) earlier.now;
            }) }
    {
        let mut own = Text::new(alloc);
        let later = copied(alloc, file, text, later, &mut own)?;
        let earlier = copied(alloc, file, text, earlier, &mut own)?;
        Ok(Splice {
            file,
            at,
            text: own,
            later,
            earlier,
        })
    }

    /// The file.
    pub(crate) fn file(&self) -> SourceFile
        ensures { result ≡ self.now.file }
    {
        self.file
    }

    /// The place of the first item, counted from 0.
    pub(crate) fn at(&self) -> usize
        ensures { result ≡ self.now.at }
    {
        self.at
    }

    /// How many items stand there.
    pub(crate) fn later_len(&self) -> usize
        ensures { result ≡ length self.now.later }
    {
        self.later.len()
    }

    /// The entries that stood there before, and in front of them the text that they stand in.
    pub(crate) fn earlier(&self) -> (&[u8], &[Entry<StoredItem>])
        ensures stored { All (IsStored self.now.file result.0.now) result.1.now }
        ensures items { map (stored_at self.now.file result.0.now) result.1.now ≡ self.now.earlier }
    {
        (self.text.as_slice(), self.earlier.as_slice())
    }

    /// Puts what the rows of the later and of the earlier items speak of behind other spans.
    ///
    /// - `Memory`: memory ran out.
    pub(crate) fn put_spans(&self, alloc: Global, spans: &mut Spans) -> Result<(), Memory>
        ensures { OnOk result (spans.new ≡ spans.old
            ++ (item_spans self.now.later ++ item_spans self.now.earlier)) }
    {
        let text = self.text.as_slice();
        put_spans(alloc, self.file, text, self.later.as_slice(), spans)?;
        put_spans(alloc, self.file, text, self.earlier.as_slice(), spans)
    }
}
