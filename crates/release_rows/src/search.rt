//! Looks for rows among the entries of a file.

ghost use Rattle.std.specs.Prelude.{◌≡◌, ◌&&◌};
ghost use Rattle.ucd_points.specs.MissingLines.{takes_missing};
ghost use Rattle.release_rows.specs.Searches.{comes_behind, forbids, has_names, is_alike, meets_another, starts_alike, with_test};
ghost use Rattle.release_rows.specs.Tags.{falls_short, misses_tag, tag_fits, tag_rises, tells_order};

use crate::row_key::has_spans;
use crate::stored_item::{StoredItem, content_in};
use crate::tag::{tags_tell_group, tags_tell_key, tags_tell_order};
use part_list::{Entry, Reach, Seek};
use source_rows::{compare_names, content_section};
use std::marker::Model;
use ucd_facts::{SourceFile, Text};
use ucd_lines::{has_missing_rows, is_trivia};

/// What an entry is tested for.
#[derive(Clone, Copy)]
pub enum Test {
    /// It has the key that is looked for.
    SameKey,
    /// It has another key and overlaps the code points that are looked for, and the file forbids it.
    OverlapsAnother,
    /// It is of the group that is looked for, and has a greater key.
    Follows,
    /// It is of the group that is looked for.
    SameGroup,
    /// Nothing: each entry passes.
    Any,
}

/// Whether tags are the same, if they tell.
fn tag_fits(told: bool, tag: u32, other: u32) -> bool
    ensures { result ≡ tag_fits told tag other }
{
    !told || tag == other
}

/// Whether no tag within the bounds is this one, if tags tell.
fn misses_tag(told: bool, tag: u32, reach: Reach) -> bool
    ensures { result ≡ misses_tag told tag reach }
{
    told && (tag < reach.least_tag || reach.most_tag < tag)
}

/// Whether no code point within the bounds is greater than this one, and each tag is less, if tags tell.
fn has_no_follower(told: bool, code: u32, tag: u32, reach: Reach) -> bool
    ensures { result ≡ falls_short told code tag reach }
{
    told && reach.most <= code && reach.most_tag < tag
}

/// What is looked for in the text of a file. Contracts see its parts.
#[derive(Drop)]
pub struct Search<'a> {
    /// What an entry is tested for.
    pub test: Test,
    /// The file.
    pub file: SourceFile,
    /// Its text.
    pub text: &'a [u8],
    /// The first code point, as a number.
    pub code: u32,
    /// The last code point, as a number.
    pub last: u32,
    /// The names of the key.
    pub names: &'a [Text],
    /// The name of the group.
    pub group: &'a [u8],
    /// The tag, as far as the key or the group tells it.
    pub tag: u32,
    /// Whether it is a missing row.
    pub missing: bool,
}

impl<'a> Model for Search<'a> {
    ghost use Rattle.release_rows.specs.Searches.{Sought};

    ghost Value = { Sought };

    ghost view = { λ s. record { test = s.test; file = s.file; text = s.text.now; code = s.code; last = s.last; names = s.names.now; group = s.group.now; tag = s.tag; missing = s.missing } };
}

impl<'a> Search<'a> {
    /// This search with another test.
    pub fn with(&self, test: Test) -> Search<'a>
        ensures { result ≡ with_test self.now test }
    {
        Search {
            test,
            file: self.file,
            text: self.text,
            code: self.code,
            last: self.last,
            names: self.names,
            group: self.group,
            tag: self.tag,
            missing: self.missing,
        }
    }

    /// Whether this is the content of a row with the names that are looked for.
    fn has_names(&self, content: &[u8]) -> bool
        ensures { result ≡ has_names self.now.file self.now.names content.now }
    {
        !is_trivia(self.file, content) && compare_names(self.file, self.names, content).is_eq()
    }

    /// Whether the entry has the key that is looked for.
    fn has_same_key(&self, entry: &Entry<StoredItem>) -> bool
        ensures { result ≡ starts_alike self.now entry.now }
    {
        self.code == entry.code
            && tag_fits(tags_tell_key(self.file), self.tag, entry.tag)
            && self.has_names(content_in(self.text, entry.item))
    }

    /// Whether it is a missing row, in a file that has such rows.
    pub fn seeks_missing_row(&self) -> bool
        ensures { result ≡ (takes_missing self.now.file && self.now.missing) }
    {
        has_missing_rows(self.file) && self.missing
    }

    /// Whether no other row may have the code points that are looked for. A missing row shares its span.
    fn forbids_overlap(&self) -> bool
        ensures { result ≡ forbids self.now }
    {
        has_spans(self.file) && !self.missing
    }

    /// Whether the entry has another key and overlaps what is looked for, and the file forbids it.
    fn meets_another(&self, entry: &Entry<StoredItem>) -> bool
        ensures { result ≡ meets_another self.now entry.now }
    {
        self.forbids_overlap()
            && self.code != entry.code
            && self.code <= entry.last
            && entry.code <= self.last
            && tag_fits(tags_tell_key(self.file), self.tag, entry.tag)
            && self.has_names(content_in(self.text, entry.item))
    }

    /// Whether the entry is of the group that is looked for.
    fn has_same_group(&self, entry: &Entry<StoredItem>) -> bool
        ensures { result ≡ is_alike self.now entry.now }
    {
        if !tag_fits(tags_tell_group(self.file), self.tag, entry.tag) {
            return false;
        }
        let content = content_in(self.text, entry.item);
        !is_trivia(self.file, content) && self.group == content_section(self.file, content)
    }

    /// Whether the tag of the entry leaves open that it has a greater key.
    fn may_have_greater_key(&self, entry: &Entry<StoredItem>) -> bool
        ensures { result ≡ tag_rises
            (tells_order self.now.file) self.now.code entry.now.code self.now.tag
            entry.now.tag }
    {
        !tags_tell_order(self.file) || self.code < entry.code || self.tag <= entry.tag
    }

    /// Whether the entry is of the group that is looked for, and has a greater key.
    fn follows_in_group(&self, entry: &Entry<StoredItem>) -> bool
        ensures { result ≡ comes_behind self.now entry.now }
    {
        if entry.code < self.code
            || !self.may_have_greater_key(entry)
            || !self.has_same_group(entry)
        {
            return false;
        }
        let content = content_in(self.text, entry.item);
        let names = compare_names(self.file, self.names, content);
        self.code.cmp(&entry.code).then(names).is_lt()
    }
}

impl<'a> Seek<StoredItem> for Search<'a> {
    ghost use Rattle.release_rows.specs.Searches.{entry_passes};

    ghost passing = { entry_passes };

    fn passes(&self, entry: &Entry<StoredItem>) -> bool {
        match self.test {
            Test::SameKey => self.has_same_key(entry),
            Test::OverlapsAnother => self.meets_another(entry),
            Test::Follows => self.follows_in_group(entry),
            Test::SameGroup => self.has_same_group(entry),
            Test::Any => true,
        }
    }

    fn skips(&self, reach: Reach) -> bool {
        let tag = self.tag;
        match self.test {
            Test::SameKey => {
                self.code < reach.least
                    || reach.most < self.code
                    || misses_tag(tags_tell_key(self.file), tag, reach)
            }
            Test::OverlapsAnother => {
                !self.forbids_overlap()
                    || self.last < reach.least
                    || reach.most < self.code
                    || misses_tag(tags_tell_key(self.file), tag, reach)
            }
            Test::Follows => {
                reach.most < self.code
                    || misses_tag(tags_tell_group(self.file), tag, reach)
                    || has_no_follower(tags_tell_order(self.file), self.code, tag, reach)
            }
            Test::SameGroup => misses_tag(tags_tell_group(self.file), tag, reach),
            Test::Any => false,
        }
    }

    fn tag(&self) -> Option<u32> {
        let told = match self.test {
            Test::SameKey | Test::OverlapsAnother => tags_tell_key(self.file),
            Test::Follows | Test::SameGroup => tags_tell_group(self.file),
            Test::Any => false,
        };
        told.then_some(self.tag)
    }

    fn points(&self) -> Option<(u32, u32)> {
        match self.test {
            Test::SameKey => Some((self.code, self.code)),
            Test::OverlapsAnother => Some((self.code, self.last)),
            Test::Follows | Test::SameGroup | Test::Any => None,
        }
    }
}
