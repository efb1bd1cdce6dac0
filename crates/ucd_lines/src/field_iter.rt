//! Goes over the fields of a line. UAX #44, section 4.2.

ghost use Rattle.std.specs.Prelude.{◌≡◌, ◌∷◌, map};
ghost use Rattle.std.specs.List.{slice_split};
ghost use Rattle.ucd_points.specs.Fields.{trim, is_semicolon};
ghost use Rattle.ucd_lines.specs.Fields.{fields_left};

use crate::blank::trim;
use crate::search::first_at;
use std::marker::Model;

/// The fields of a line that are left, in order, each without white space around it: what
/// [`fields`](crate::fields) gives. Contracts see their list.
#[derive(Debug, Drop)]
pub struct Fields<'a> {
    /// The text of the fields that are left, `None` behind the last one.
    rest: Option<&'a [u8]>,
}

impl<'a> Model for Fields<'a> {
    ghost use Rattle.std.specs.Prelude.{ℕ, List};
    ghost use Rattle.ucd_lines.specs.Fields.{fields_left};

    ghost Value = { List (List ℕ) };

    ghost view = { λ s. fields_left s.rest };
}

impl<'a> Fields<'a> {
    /// The fields of a text that has no comment.
    pub(crate) fn new(text: &'a [u8]) -> Fields<'a>
        ensures { result ≡ map trim (slice_split is_semicolon text.now) }
    {
        Fields { rest: Some(text) }
    }
}

impl<'a> Iterator for Fields<'a> {
    ghost use Rattle.std.specs.Iterator.{YieldsFirstRef, item_count};

    type Item = &'a [u8];

    ghost next_gives = { YieldsFirstRef (λ rest. rest) };

    ghost remaining = { item_count (λ rest. rest) };

    fn next(&mut self) -> Option<&'a [u8]> {
        let text = self.rest?;
        let (field, rest) = first_field(text);
        self.rest = rest;
        Some(field)
    }
}

/// The first field, and the text of the fields behind it, `None` if there are none.
fn first_field(text: &[u8]) -> (&[u8], Option<&[u8]>)
    ensures { map trim (slice_split is_semicolon text.now) ≡ result.0.now ∷ fields_left result.1 }
{
    let at = first_at(text, b';');
    if at == text.len() {
        return (trim(text), None);
    }
    (trim(&text[..at]), Some(&text[at + 1..]))
}
