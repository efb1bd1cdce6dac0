//! Goes over the rows of a file.

ghost use Rattle.std.specs.Prelude.{◌≡◌, ◌<◌, ◌^◌, length, map};
ghost use Rattle.std.specs.List.{All};
ghost use Rattle.release_rows.specs.Releases.{rows_at};
ghost use Rattle.release_rows.specs.StoredItems.{stored_at, IsStored};

use crate::row_text::RowText;
use crate::stored_item::{StoredItem, content_in};
use part_list::Entries;
use std::marker::Model;
use ucd_facts::SourceFile;
use ucd_lines::is_trivia;

/// The rows of a file that are left, in the order of the file, each with the number of its first line, counted from 1.
/// Contracts see the list of these pairs.
#[derive(Drop)]
pub struct Rows<'a> {
    file: SourceFile,
    text: &'a [u8],
    items: Entries<'a, StoredItem>,
    line: u64,
}

impl<'a> Model for Rows<'a> {
    ghost use Rattle.std.specs.Prelude.{List, ℕ, map};
    ghost use Rattle.ucd_facts.specs.declared.row.Row.{Row};
    ghost use Rattle.release_rows.specs.Releases.{numbered_rows};
    ghost use Rattle.release_rows.specs.StoredItems.{stored_at};
    ghost use Rattle.release_rows.specs.Walking.{IsWalk};

    ghost Value = { List (ℕ × Row) };

    ghost view = { λ r. numbered_rows r.line (map (stored_at r.file r.text.now) r.items) };

    ghost invariant = { λ r. IsWalk r.file r.text.now r.items r.line };
}

impl<'a> Rows<'a> {
    /// The rows of these items of a text.
    pub(crate) fn new(file: SourceFile, text: &'a [u8], items: Entries<'a, StoredItem>) -> Rows<'a>
        requires each { All (IsStored file text.now) items }
        requires few { length items < 2 ^ 33 }
        ensures { result ≡ rows_at (map (stored_at file text.now) items.entry) }
    {
        Rows {
            file,
            text,
            items,
            line: 1,
        }
    }
}

impl<'a> Iterator for Rows<'a> {
    ghost use Rattle.std.specs.Iterator.{YieldsFirst, item_count};

    type Item = (u64, RowText<'a>);

    ghost next_gives = { YieldsFirst (λ rest. rest) };

    ghost remaining = { item_count (λ rest. rest) };

    fn next(&mut self) -> Option<(u64, RowText<'a>)> {
        'items: while let Some(entry) = self.items.next() {
            let item = entry.item;
            let line = self.line;
            let content = content_in(self.text, item);
            self.line += u64::from(item.lines);
            if !is_trivia(self.file, content) {
                return Some((line, RowText::new(self.file, content, &entry)));
            }
        }
        None
    }
}
