//! Goes over the lines of a text.

ghost use Rattle.std.specs.Prelude.{◌≡◌, ◌<◌, ◌∷◌, length};
ghost use Rattle.ucd_points.specs.Lines.{ended_item, items_of};
ghost use Rattle.ucd_lines.specs.Items.{item_of};

use crate::item::{Ending, Item};
use crate::search::cut;
use std::marker::Model;

/// The lines of a text that are left, in order: what [`items`](crate::items) gives. Contracts see their list.
#[derive(Debug, Drop)]
pub struct Items<'a> {
    rest: &'a [u8],
}

impl<'a> Model for Items<'a> {
    ghost use Rattle.std.specs.Prelude.{List};
    ghost use Rattle.ucd_points.specs.Lines.{LineItem, items_of};

    ghost Value = { List LineItem };

    ghost view = { λ s. items_of s.rest.now };
}

impl<'a> Items<'a> {
    /// The lines of a text.
    pub(crate) fn new(bytes: &'a [u8]) -> Items<'a>
        ensures { result ≡ items_of bytes.now }
    {
        Items { rest: bytes }
    }
}

impl<'a> Iterator for Items<'a> {
    ghost use Rattle.std.specs.Iterator.{YieldsFirstBy, item_count};
    ghost use Rattle.ucd_lines.specs.Items.{item_of};

    type Item = Item<'a>;

    ghost next_gives = { YieldsFirstBy item_of (λ rest. rest) };

    ghost remaining = { item_count (λ rest. rest) };

    fn next(&mut self) -> Option<Item<'a>> {
        if self.rest.is_empty() {
            return None;
        }
        let (item, rest) = first_item(self.rest);
        self.rest = rest;
        Some(item)
    }
}

/// The first line, and the text behind it.
fn first_item(text: &[u8]) -> (Item<'_>, &[u8])
    requires { 0 < length text.now }
    ensures { items_of text.now ≡ item_of result.0 ∷ items_of result.1.now }
{
    let (line, rest) = cut(text, b'\n');
    if line.len() == text.len() {
        let item = Item {
            content: line,
            ending: Ending::None,
        };
        return (item, rest);
    }
    (ended_item(line), rest)
}

/// The line of what stands before a LF.
fn ended_item(line: &[u8]) -> Item<'_>
    ensures { item_of result ≡ ended_item line.now }
{
    match line {
        [content @ .., b'\r'] => Item {
            content,
            ending: Ending::CrLf,
        },
        _ => Item {
            content: line,
            ending: Ending::Lf,
        },
    }
}
