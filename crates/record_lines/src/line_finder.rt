//! Finds the lines of a text by their places.

ghost use Rattle.std.specs.Prelude.{◌≡◌, ◌+◌, ◌≤◌, length, slice_get, None, Some};
ghost use Rattle.std.specs.Option.{MatchOption, OnSome};
ghost use Rattle.ucd_points.specs.Lines.{contents};

use std::marker::Model;
use ucd_lines::{Items, items};

/// The lines of a text, found by their places. It goes on behind the last line that was found, so lines in the order of the text take
/// one pass together. Contracts see the contents of the lines, and how many were passed.
#[derive(Drop)]
pub struct LineFinder<'a> {
    bytes: &'a [u8],
    /// The lines behind those that were passed.
    left: Items<'a>,
    passed: usize,
}

impl<'a> Model for LineFinder<'a> {
    ghost use Rattle.ucd_points.specs.Lines.{contents};
    ghost use Rattle.record_lines.specs.Finding.{Found, IsBehind};

    ghost Value = { Found };

    ghost view = { λ f. record { lines = contents f.bytes.now; passed = f.passed } };

    ghost invariant = { λ f. IsBehind f.bytes.now f.passed f.left };
}

impl<'a> LineFinder<'a> {
    /// The lines of a text, of which none was passed.
    pub fn new(bytes: &'a [u8]) -> LineFinder<'a>
        ensures { result ≡ record { lines = contents bytes.now; passed = 0 } }
    {
        LineFinder {
            bytes,
            left: items(bytes),
            passed: 0,
        }
    }

    /// A number that the text has no more lines than.
    pub fn line_count_bound(&self) -> usize
        ensures { length self.now.lines ≤ result }
    {
        self.bytes.len()
    }

    /// How many lines were passed.
    fn passed(&self) -> usize
        ensures { result ≡ self.now.passed }
    {
        self.passed
    }

    /// Goes back before the first line.
    fn restart(&mut self)
        ensures { self.new ≡ record { lines = self.old.lines; passed = 0 } }
    {
        self.left = items(self.bytes);
        self.passed = 0;
    }

    /// The content of the line behind those that were passed, which it passes; `None` if there is no such line.
    fn next_line(&mut self) -> Option<&'a [u8]>
        ensures found { MatchOption result (slice_get self.old.lines self.old.passed ≡ None)
            (λ content. slice_get self.old.lines self.old.passed ≡ Some content.now) }
        ensures passed { OnSome result (self.new.passed ≡ self.old.passed + 1) }
        ensures same { self.new.lines ≡ self.old.lines }
    {
        let item = self.left.next()?;
        self.passed += 1;
        Some(item.content)
    }

    /// The content of the line at a place, counted from 0; `None` if there is no such line.
    pub fn line(&mut self, place: usize) -> Option<&'a [u8]>
        ensures found { MatchOption result (slice_get self.old.lines place ≡ None)
            (λ content. slice_get self.old.lines place ≡ Some content.now) }
        ensures same { self.new.lines ≡ self.old.lines }
    {
        if place < self.passed() {
            self.restart();
        }
        'lines: while self.passed() < place {
            self.next_line()?;
        }
        self.next_line()
    }
}
