//! A row as it is kept: the bytes that read as it.

ghost use Rattle.std.specs.Prelude.{◌≡◌, Some, IfOk, IsTrue};
ghost use Rattle.std.specs.Option.{IfSome};
ghost use Rattle.ucd_points.specs.Bounds.{within};
ghost use Rattle.source_rows.specs.Keys.{row_span};
ghost use Rattle.source_rows.specs.RowRefs.{row_in};
ghost use Rattle.release_rows.specs.Given.{ShowsGiven};
ghost use Rattle.release_rows.specs.StoredItems.{HasRow, ShowsMissing, ShowsValue, ShowsValued, read_as};

use crate::brief::Brief;
use crate::stored_item::StoredItem;
use part_list::Entry;
use source_rows::{
    PointValues, RowRef, ValueText, Valued, has_values, possible_rows_are_readable,
    read_point_values, read_row_ref, read_valued, rows_are_read,
};
use std::alloc::Global;
use std::marker::Model;
use ucd_facts::{Memory, Point, Row, SourceFile};

/// A row of a file of a release, as it stands in the text of the file. Contracts see the row.
#[derive(Debug, Drop)]
pub struct RowText<'a> {
    file: SourceFile,
    /// What is kept of what the row gives, if it has one code point; else nothing.
    brief: Brief,
    /// The first code point.
    first: u32,
    /// The last code point.
    last: u32,
    content: &'a [u8],
}

impl<'a> Model for RowText<'a> {
    ghost use Rattle.ucd_facts.specs.declared.row.Row.{Row};
    ghost use Rattle.release_rows.specs.StoredItems.{IsRowText, read_as};

    ghost Value = { Row };

    ghost view = { λ t. read_as t.file t.content.now };

    ghost invariant = { λ t. IsRowText t.file t.content.now t.brief t.first t.last };
}

impl<'a> RowText<'a> {
    /// The row that an entry's content is read as.
    pub(crate) fn new(file: SourceFile, content: &'a [u8], entry: &Entry<StoredItem>) -> RowText<'a>
        requires { HasRow file content.now entry.now }
        ensures { result ≡ read_as file content.now }
    {
        let brief = if entry.code == entry.last {
            entry.item.brief
        } else {
            Brief::none()
        };
        RowText {
            file,
            brief,
            first: entry.code,
            last: entry.last,
            content,
        }
    }

    /// Whether a code point is one from the first to the last one of the row, which is not read for it. For a row of names both are 0.
    pub fn covers(&self, point: Point) -> bool
        ensures { result ≡ within point (row_span self.now) }
    {
        self.first <= point.number() && point.number() <= self.last
    }

    /// Whether another row stands in the same bytes of the same file: then it is the same row. Neither is read.
    pub fn is_same_text(&self, other: &RowText<'_>) -> bool
        ensures { IsTrue result → self.now ≡ other.now }
    {
        if self.file.place() != other.file.place() {
            return false;
        }
        self.content == other.content
    }

    /// The row, as it stands in the text of the file. It takes no memory.
    pub fn row(&self) -> RowRef<'a>
        ensures { row_in result ≡ self.now }
    {
        match read_row_ref(self.file, self.content) {
            Ok(row) => row,
            Err(_) => unreachable!(),
        }
    }

    /// The row, with copies of its texts and lists.
    ///
    /// - `Memory`: memory ran out.
    pub fn read(&self, alloc: Global) -> Result<Row, Memory>
        ensures { IfOk result (λ row. row ≡ self.now) }
    {
        self.row().into_row(alloc)
    }

    /// What the row gives, from what is kept of it; `None` if nothing is kept.
    fn kept_values(&self) -> Option<PointValues<'a>>
        ensures { IfSome result (λ given. ShowsGiven (Some given) self.now) }
    {
        rows_are_read();
        possible_rows_are_readable();
        self.brief.values(Point::new(self.first)?)
    }

    /// What a row of UnicodeData.txt gives to its code points, as it stands there; `None` for the rows of the other
    /// files. A row that gives no more than a category and a combining class is not read for it.
    pub fn point_values(&self) -> Option<PointValues<'a>>
        ensures { ShowsGiven result self.now }
    {
        rows_are_read();
        possible_rows_are_readable();
        if let Some(given) = self.kept_values() {
            return Some(given);
        }
        match self.file {
            SourceFile::UnicodeData => match read_point_values(self.content) {
                Ok(given) => Some(given),
                Err(_) => unreachable!(),
            },
            _ => None,
        }
    }

    /// A row of PropList.txt, Scripts.txt or WordBreakProperty.txt, as it stands there; `None` for the rows of the
    /// other files.
    pub fn valued(&self) -> Option<Valued<'a>>
        ensures { ShowsValued result self.now }
    {
        rows_are_read();
        possible_rows_are_readable();
        if !has_values(self.file) {
            return None;
        }
        match read_valued(self.file, self.content) {
            Ok(row) => Some(row),
            Err(_) => unreachable!(),
        }
    }

    /// The code points and the value of a row of PropList.txt, Scripts.txt or WordBreakProperty.txt, as they stand
    /// there; `None` for missing rows, and for the rows of the other files.
    pub fn value(&self) -> Option<ValueText<'a>>
        ensures { ShowsValue result self.now }
    {
        match self.valued() {
            Some(Valued::Given(text)) => Some(text),
            _ => None,
        }
    }

    /// The code points and the value of a missing row of Scripts.txt or WordBreakProperty.txt, as they stand there;
    /// `None` for every other row.
    pub fn missing_row_value(&self) -> Option<ValueText<'a>>
        ensures { ShowsMissing result self.now }
    {
        match self.valued() {
            Some(Valued::Missing(text)) => Some(text),
            _ => None,
        }
    }
}
