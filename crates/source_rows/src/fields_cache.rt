//! What the last line of UnicodeData.txt without a mapping gave. UAX #44, section 5.3, table 9.

ghost use Rattle.std.specs.Prelude.{◌≡◌, true, Ok};
ghost use Rattle.source_rows.specs.Tails.{bare_values, tail_values};

use crate::data_values::{Values, read_used};
use crate::decomposition::Decomposition;
use crate::fault::RowFault;
use crate::mapping::Mapping;
use crate::used_fields::used_fields;
use std::marker::Model;
use ucd_facts::{Category, Kind};

/// What stands behind the name in a line, and what that gives: a category, a combining class, and no mapping. Most lines
/// of UnicodeData.txt differ from a line before only in code and name, and those have nothing more to read. Contracts see
/// nothing of it.
#[derive(Debug, Drop)]
pub struct FieldsCache<'a> {
    text: &'a [u8],
    category: Category,
    class: u8,
}

impl<'a> Model for FieldsCache<'a> {
    ghost use Rattle.std.specs.Prelude.{◌≡◌, Some, Ok};
    ghost use Rattle.source_rows.specs.Tails.{bare_values, tail_values};

    ghost Value = { Unit {0} };

    ghost view = { λ _. tt };

    ghost invariant = { λ t. tail_values t.text.now ≡ Some (Ok (bare_values t.category t.class)) };
}

/// The values of a row that gives a category and a combining class, and no mapping.
fn bare_values<'a>(category: Category, class: u8) -> Values<'a>
    ensures { result ≡ bare_values category class }
{
    Values {
        category,
        class,
        decomposition: Decomposition {
            kind: Kind::Plain,
            mapping: Mapping::none(),
        },
        upper: None,
        lower: None,
        title: None,
    }
}

/// Whether no mapping is given.
fn is_bare(values: &Values<'_>) -> bool
    ensures { result ≡ true → values.now ≡ bare_values values.now.category values.now.class }
{
    if !matches!(values.decomposition.kind, Kind::Plain) || values.decomposition.mapping.len() > 0 {
        return false;
    }
    values.upper.is_none() && values.lower.is_none() && values.title.is_none()
}

/// The values of the fields behind a name, or their first fault. `None` exactly if they are not 13.
fn read_tail(tail: &[u8]) -> Option<Result<Values<'_>, RowFault>>
    ensures { result ≡ tail_values tail.now }
{
    let line = used_fields(tail)?;
    Some(read_used(&line))
}

impl<'a> FieldsCache<'a> {
    /// The most usual tail, that of a letter.
    pub fn with_letter_tail() -> FieldsCache<'a> {
        FieldsCache {
            text: b"Lo;0;L;;;;;N;;;;;",
            category: Category::Lo,
            class: 0,
        }
    }

    /// Keeps a tail if it gives no mapping.
    fn keep_if_bare(&mut self, tail: &'a [u8], values: &Values<'_>)
        requires { tail_values tail.now ≡ Some (Ok values.now) }
    {
        if is_bare(values) {
            *self = FieldsCache {
                text: tail,
                category: values.category,
                class: values.class,
            };
        }
    }

    /// The values of the fields behind a name, or their first fault. `None` exactly if they are not 13. A tail like the
    /// last one is not read again.
    pub(crate) fn values(&mut self, tail: &'a [u8]) -> Option<Result<Values<'a>, RowFault>>
        ensures { result ≡ tail_values tail.now }
    {
        if tail == self.text {
            return Some(Ok(bare_values(self.category, self.class)));
        }
        let given = read_tail(tail)?;
        if let Ok(values) = &given {
            self.keep_if_bare(tail, values);
        }
        Some(given)
    }
}
