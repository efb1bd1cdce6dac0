//! How far the code points and the tags of a part reach.

ghost use Rattle.std.specs.List.{All};
ghost use Rattle.std.specs.Option.{option_to_list};
ghost use Rattle.part_list.specs.Reaches.{IsWithin, IsWider};

use crate::entry::Entry;

/// Bounds of the code points that some entries speak of, as numbers, and of their tags. They may be wider than the entries
/// need.
#[derive(Clone, Copy, Debug)]
pub struct Reach {
    /// No first code point is less.
    pub least: u32,
    /// No first and no last code point is greater.
    pub most: u32,
    /// No tag is less.
    pub least_tag: u32,
    /// No tag is greater.
    pub most_tag: u32,
}

impl Reach {
    /// The reach of no entries.
    pub const NONE: Reach = Reach {
        least: u32::MAX,
        most: 0,
        least_tag: u32::MAX,
        most_tag: 0,
    };

    /// The reach with one more entry.
    pub fn with<T: Copy>(self, entry: &Entry<T>) -> Reach
        ensures entry { IsWithin result entry.now }
        ensures wider { IsWider self result }
    {
        Reach {
            least: self.least.min(entry.code),
            most: self.most.max(entry.code).max(entry.last),
            least_tag: self.least_tag.min(entry.tag),
            most_tag: self.most_tag.max(entry.tag),
        }
    }

    /// The reach of both.
    pub fn join(self, other: Reach) -> Reach
        ensures wider { IsWider self result }
        ensures other { IsWider other result }
    {
        Reach {
            least: self.least.min(other.least),
            most: self.most.max(other.most),
            least_tag: self.least_tag.min(other.least_tag),
            most_tag: self.most_tag.max(other.most_tag),
        }
    }

    /// The reach with one more entry, if there is one.
    pub fn with_some<T: Copy>(self, entry: Option<Entry<T>>) -> Reach
        ensures entry { All (IsWithin result) (option_to_list entry) }
        ensures wider { IsWider self result }
    {
        match entry {
            Some(entry) => self.with(&entry),
            None => self,
        }
    }

    /// The reach with more entries.
    pub fn with_all<T: Copy>(self, entries: &[Entry<T>]) -> Reach
        ensures entries { All (IsWithin result) entries.now }
        ensures wider { IsWider self result }
    {
        let mut reach = self;
        'entries: for entry in entries {
            reach = reach.with(entry);
        }
        reach
    }
}
