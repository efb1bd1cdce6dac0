//! A file that is loaded piece by piece.

ghost use Rattle.std.specs.Prelude.{◌≡◌, ◌+◌, ◌<◌, ◌^◌, [], OnOk, Option, length, map};
ghost use Rattle.std.specs.List.{All};
ghost use Rattle.ucd_points.specs.declared.files.SourceFile.{SourceFile as FileValue};
ghost use Rattle.ucd_facts.specs.declared.row.Row.{Row as RowValue};
ghost use Rattle.release_rows.specs.Briefs.{brief_of, no_brief};
ghost use Rattle.release_rows.specs.LoadedRows.{EntersSome};
ghost use Rattle.release_rows.specs.Gathered.{AreGathered};
ghost use Rattle.release_rows.specs.Pieces.{piece_lines};
ghost use Rattle.release_rows.specs.FileItems.{bytes_of, file_item_bytes, rows_in, lines_of};
ghost use Rattle.release_rows.specs.Loading.{file_item};
ghost use Rattle.release_rows.specs.Progress.{HoldsRows, ReadsPiece, Stands, TakesPiece, start_of_entry, with_item};
ghost use Rattle.release_rows.specs.Loaders.{IsSound, progress_of, items_above};
ghost use Rattle.part_list.specs.Parts.{now_in, next_in};
ghost use Rattle.release_rows.specs.StoredItems.{piece_of, item_at, stored_at, IsItem, IsStored, HasSpan};

use crate::extents::Extents;
use crate::keyed_extent::{KeyedExtent, put_placed};
use crate::load_stop::LoadStop;
use crate::loaded_row::LoadedRow;
use crate::piece::{RowLines, content_of, ending_len, stored_item_of};
use crate::read_piece::read_piece;
use crate::row_rule::take_row;
use crate::stored_item::{StoredItem, content_in};
use crate::tag::content_tag;
use part_list::{Entry, PartList};
use source_rows::FieldsCache;
use std::alloc::Global;
use ucd_facts::{Memory, SourceFile};

/// The items of a file so far. After an error it is of no more use, and nothing is known
/// of it.
#[derive(Drop)]
pub struct Loading<'a> {
    file: SourceFile,
    text: &'a [u8],
    items: PartList<StoredItem>,
    /// Where the items end in the text.
    end: u32,
    /// The first code point of the last row; `None` if there is no row yet.
    before: Option<u32>,
    /// How many lines the items have.
    lines: u32,
    /// What the last row of UnicodeData.txt without a mapping gave.
    tail: FieldsCache<'a>,
}

/// The first code point of the last row, with one more row, if there is one.
fn last_row_start(before: Option<u32>, entry: &Option<LoadedRow>) -> Option<u32>
    ensures { result ≡ start_of_entry before entry.now }
{
    match entry {
        Some(entry) => Some(entry.place.code),
        None => before,
    }
}

/// An item with the code points of its row, and with a tag. Trivia has the first code point of the last row.
fn entry_of_item(
    stored: StoredItem,
    tag: u32,
    entry: &Option<LoadedRow>,
    before: Option<u32>,
) -> Entry<StoredItem>
    ensures item { result.item ≡ stored }
    ensures tag { result.tag ≡ tag }
    ensures span { (file : FileValue) (row : Option RowValue) → EntersSome file entry.now row
        → HasSpan row result.code result.last }
{
    let (code, last) = match entry {
        Some(entry) => (entry.place.code, entry.reach),
        None => (before.unwrap_or(0), before.unwrap_or(0)),
    };
    Entry {
        code,
        last,
        tag,
        item: stored,
    }
}

/// The item of a row, with what is kept of what the row gives; one of trivia as it is.
fn with_brief(stored: StoredItem, entry: &Option<LoadedRow>) -> StoredItem
    ensures start { result.start ≡ stored.start }
    ensures len { result.len ≡ stored.len }
    ensures ending { result.ending ≡ stored.ending }
    ensures lines { result.lines ≡ stored.lines }
    ensures brief { (file : FileValue) (row : Option RowValue) → stored.brief ≡ no_brief
        → EntersSome file entry.now row → result.brief ≡ brief_of row }
{
    match entry {
        Some(entry) => StoredItem {
            brief: entry.brief,
            ..stored
        },
        None => stored,
    }
}

impl<'a> Loading<'a> {
    /// No items yet. It takes no memory.
    pub fn new(alloc: Global, file: SourceFile, text: &'a [u8]) -> Loading<'a>
        requires { length text.now < 2 ^ 32 }
        ensures progress { progress_of result
            ≡ record { file = file; text = text.now; items = [] } }
        ensures sound { IsSound result }
    {
        Loading {
            file,
            text,
            items: PartList::new(alloc),
            end: 0,
            before: None,
            lines: 0,
            tail: FieldsCache::with_letter_tail(),
        }
    }

    /// Where the items stand in the text, each with the code points of its row.
    pub fn into_items(self) -> PartList<StoredItem>
        requires { IsSound self }
        ensures items { map (stored_at self.entry.file self.entry.text.now) (now_in result)
            ≡ items_above self.entry }
        ensures same { next_in result ≡ now_in result }
        ensures each { All (IsStored self.entry.file self.entry.text.now) (now_in result) }
        ensures few { length (now_in result) < 2 ^ 32 }
    {
        self.items
    }

    /// Puts one more item behind the others.
    fn put(&mut self, stored: StoredItem, entry: &Option<LoadedRow>) -> Result<(), Memory>
        requires sound { IsSound self.old }
        requires item { IsItem self.old.file self.old.text.now stored }
        requires ends { length (bytes_of (items_above self.old)) + length
            (file_item_bytes (item_at self.old.file self.old.text.now stored)) < 2 ^ 32 }
        requires fits { lines_of (items_above self.old) + stored.lines < 2 ^ 32 }
        requires enters { EntersSome self.old.file entry.now
            (item_at self.old.file self.old.text.now stored).row }
        ensures sound { OnOk result (IsSound self.new) }
        ensures progress { OnOk result
            (progress_of self.new
            ≡ with_item (progress_of self.old)
            (item_at self.old.file self.old.text.now stored)) }
    {
        let tag = content_tag(self.file, content_in(self.text, stored));
        let item = entry_of_item(stored, tag, entry, self.before);
        self.before = last_row_start(self.before, entry);
        self.end += stored.len + ending_len(stored.ending);
        self.lines += u32::from(stored.lines);
        self.items.push(item)?;
        Ok(())
    }

    /// Takes one more piece, which stands in the text behind the items so far. Answers what is kept of its row, which
    /// is not compared with those above.
    ///
    /// - `Fault { line, rule }`: the piece breaks a rule by itself. The line is counted from 1.
    /// - `Memory`: memory ran out.
    fn load_piece(
        &mut self,
        alloc: Global,
        piece: RowLines<'a>,
    ) -> Result<Option<LoadedRow>, LoadStop>
        requires sound { IsSound self.old }
        requires fits { lines_of (items_above self.old) + piece_lines
            (piece_of piece) + 1 < 2 ^ 32 }
        requires stands { Stands self.old.text.now (items_above self.old) (piece_of piece) }
        ensures sound { OnOk result (IsSound self.new) }
        ensures progress { OnOk result
            (progress_of self.new
            ≡ with_item (progress_of self.old)
            (file_item self.old.file (piece_of piece.entry))) }
        ensures piece { ReadsPiece self.old.file (self.old.lines + 1)
            (piece_of piece.entry) result }
    {
        let unread = stored_item_of(self.end, piece);
        let content = content_of(self.text, unread, piece);
        let line = self.lines + 1;
        let entry = read_piece(alloc, self.file, line, piece, content, &mut self.tail)?;
        self.put(with_brief(unread, &entry), &entry)?;
        Ok(entry)
    }

    /// Takes one more piece, and gathers the key of its row, which is not compared with those above.
    ///
    /// - `Fault { line, rule }`: the piece breaks a rule by itself.
    /// - `Memory`: memory ran out.
    pub fn load_and_gather(
        &mut self,
        alloc: Global,
        rows: &mut Vec<KeyedExtent>,
        piece: RowLines<'a>,
    ) -> Result<(), LoadStop>
        requires sound { IsSound self.old }
        requires rows { AreGathered self.old.file (rows_in (items_above self.old)) rows.old.items }
        requires fits { lines_of (items_above self.old) + piece_lines
            (piece_of piece) + 1 < 2 ^ 32 }
        requires stands { Stands self.old.text.now (items_above self.old) (piece_of piece) }
        ensures sound { OnOk result (IsSound self.new) }
        ensures rows { OnOk result
            (AreGathered self.old.file (rows_in (items_above self.new)) rows.new.items) }
        ensures piece { OnOk result
            (progress_of self.new
            ≡ with_item (progress_of self.old)
            (file_item self.old.file (piece_of piece.entry))) }
    {
        let entry = self.load_piece(alloc, piece)?;
        Ok(put_placed(rows, entry)?)
    }

    /// Takes one more piece, and holds its row against those above, whose keys these are.
    ///
    /// - `Fault { line, rule }`: the piece breaks a rule: the row's own come first, then K1, K4 and K5. The line is
    ///   counted from 1.
    /// - `Memory`: memory ran out.
    pub fn load_and_check(
        &mut self,
        alloc: Global,
        keys: &mut Extents,
        piece: RowLines<'a>,
    ) -> Result<(), LoadStop>
        requires sound { IsSound self.old }
        requires keys { HoldsRows self.old.file (rows_in (items_above self.old)) keys.old }
        requires fits { lines_of (items_above self.old) + piece_lines
            (piece_of piece) + 1 < 2 ^ 32 }
        requires stands { Stands self.old.text.now (items_above self.old) (piece_of piece) }
        ensures sound { OnOk result (IsSound self.new) }
        ensures keys { OnOk result
            (HoldsRows self.old.file (rows_in (items_above self.new)) keys.new) }
        ensures piece { TakesPiece result (progress_of self.old) (progress_of self.new)
            (piece_of piece.entry) }
    {
        let (file, line, before) = (self.file, self.lines + 1, self.before);
        let entry = self.load_piece(alloc, piece)?;
        match take_row(keys, file, before, entry)? {
            None => Ok(()),
            Some(rule) => Err(LoadStop::Fault { line, rule }),
        }
    }
}
