//! What is kept of what the row of an item gives to its code points.

ghost use Rattle.std.specs.Prelude.{◌≡◌, ◌≢◌, ℕ, List, length, Some};
ghost use Rattle.std.specs.Option.{IfSome};
ghost use Rattle.ucd_facts.specs.declared.row.DataRow.{DataRow as DataValue};
ghost use Rattle.ucd_facts.specs.declared.row.Row.TheVariants.{Unit as DataLine};
ghost use Rattle.release_rows.specs.Briefs.{brief_by, brief_if, brief_of, is_bare, is_plain, no_brief};
ghost use Rattle.source_rows.specs.PointValues.{Gives};
ghost use Rattle.source_rows.specs.RowRefs.{row_in};

use source_rows::{Decomposition, Mapping, PointValues, RowRef, Values};
use ucd_facts::{Category, Kind, Point, Row, Span};

/// The category and the combining class that a row of UnicodeData.txt gives, if it gives no more. For a row that also
/// gives a mapping or a simple case mapping, for a row of another file and for trivia, the category is `Cn`, which no
/// row gives.
#[derive(Clone, Copy, Debug)]
pub struct Brief {
    /// The category; `Cn` if nothing is kept.
    pub category: Category,
    /// The combining class; 0 if nothing is kept.
    pub class: u8,
}

/// Whether a mapping of this kind with so many members is none.
fn is_plain(kind: Kind, members: usize) -> bool
    ensures { (mapping : List ℕ) → members ≡ length mapping → result ≡ is_plain kind mapping }
{
    match kind {
        Kind::Plain => members == 0,
        _ => false,
    }
}

/// Whether there is no mapping at all; `plain` says that there is no decomposition mapping.
fn has_no_mapping(
    plain: bool,
    upper: Option<Point>,
    lower: Option<Point>,
    title: Option<Point>,
) -> bool
    ensures { result ≡ is_bare plain upper lower title }
{
    plain && upper.is_none() && lower.is_none() && title.is_none()
}

/// The category and the class, if no more is given.
fn brief_if(bare: bool, category: Category, class: u8) -> Brief
    ensures { result ≡ brief_if bare category class }
{
    if bare {
        Brief { category, class }
    } else {
        Brief::none()
    }
}

impl Brief {
    /// Nothing is kept.
    pub fn none() -> Brief
        ensures { result ≡ no_brief }
    {
        Brief {
            category: Category::Cn,
            class: 0,
        }
    }

    /// What is kept of a row of UnicodeData.txt that gives these values.
    pub fn of_values(values: &Values<'_>) -> Brief
        ensures { result ≡ brief_by values.now.category values.now.class
            values.now.decomposition.kind values.now.decomposition.mapping values.now.upper
            values.now.lower values.now.title }
    {
        let members = values.decomposition.mapping.len();
        let plain = is_plain(values.decomposition.kind, members);
        let bare = has_no_mapping(plain, values.upper, values.lower, values.title);
        brief_if(bare, values.category, values.class)
    }

    /// What is kept of a row.
    pub fn of_row(row: &Row) -> Brief
        ensures { result ≡ brief_of (Some row.now) }
    {
        match row {
            Row::Unit(row) => {
                let plain = is_plain(row.kind, row.mapping.as_slice().len());
                let bare = has_no_mapping(plain, row.upper, row.lower, row.title);
                brief_if(bare, row.category, row.class)
            }
            _ => Brief::none(),
        }
    }

    /// What is kept of a row as it stands in its line.
    pub fn of_row_ref(row: &RowRef<'_>) -> Brief
        ensures { result ≡ brief_of (Some (row_in row.now)) }
    {
        match row {
            RowRef::Unit(text) => Brief::of_values(&text.values),
            _ => Brief::none(),
        }
    }

    /// What the row of a code point gives, from what is kept of it; `None` if nothing is kept.
    pub fn values<'a>(self, point: Point) -> Option<PointValues<'a>>
        ensures some { IfSome result (λ given. self ≢ no_brief) }
        ensures gives { IfSome result (λ given. (row : DataValue)
            → self ≡ brief_of (Some (DataLine row))
            → row.span ≡ record { lo = point; hi = point } → Gives given row) }
    {
        match self.category {
            Category::Cn => None,
            category => Some(PointValues {
                span: Span::one(point),
                values: Values {
                    category,
                    class: self.class,
                    decomposition: Decomposition {
                        kind: Kind::Plain,
                        mapping: Mapping::none(),
                    },
                    upper: None,
                    lower: None,
                    title: None,
                },
            }),
        }
    }
}
