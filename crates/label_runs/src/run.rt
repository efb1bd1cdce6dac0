//! A run of code points with one label, and its line.

ghost use Rattle.std.specs.Prelude.{◌≡◌, ◌≤◌, ◌<◌, ◌+◌, ℕ, List, ◌++◌, None, IsSome, OnOk, OnErr, IfOk};
ghost use Rattle.ucd_model.specs.Labels.{Label, same_label};
ghost use Rattle.ucd_model.specs.LabelLemmas.{labelled_before};
ghost use Rattle.label_runs.specs.Runs.{lines_before, run_line, run_length, IsOpen, IsStretch};

use crate::label::LabelText;
use std::alloc::Global;
use std::mem;
use ucd_lines::put_span;
use ucd_model::{Memory, Point, Span, Text};

/// The run of one label that ends where a section has come to: the numbers from `first` to before `end`.
#[derive(Drop)]
pub struct Run {
    first: u32,
    end: u32,
    label: LabelText,
}

impl Run {
    /// The empty run before the first code point.
    pub fn start(alloc: Global) -> Run
        ensures { result ≡ record { first = 0; end = 0; label = None } }
    {
        Run {
            first: 0,
            end: 0,
            label: LabelText::none(alloc),
        }
    }

    /// Goes on to `end`, with the label of what is there. If that is another label, the line of the run so far is
    /// put, and a new run begins. The answer is how many code points the line lists.
    ///
    /// - `Memory`: memory ran out. The run stays as it was, and a part of its line may then stand at the end of the
    ///   text.
    pub fn go_on(&mut self, label: &mut LabelText, end: u32, text: &mut Text) -> Result<u32, Memory>
        requires inside { self.old.end ≤ 1114112 }
        requires some { IsSome self.old.label → self.old.first < self.old.end }
        requires ordered { self.old.first ≤ self.old.end }
        ensures end { OnOk result (self.new.end ≡ end) }
        ensures few { IfOk result (λ count. count + self.old.first ≤ self.new.first) }
        ensures begins { OnOk result (self.new.first ≤ self.old.end) }
        ensures opens { OnOk result ((n : ℕ) (f : ℕ → Label)
            → IsOpen n f self.old.first self.old.end self.old.label
            → IsStretch n f self.old.end end label.old
            → IsOpen n f self.new.first self.new.end self.new.label) }
        ensures lines { OnOk result ((n : ℕ) (f : ℕ → Label)
            → IsOpen n f self.old.first self.old.end self.old.label
            → IsStretch n f self.old.end end label.old → (front : List ℕ)
            → text.old ≡ front ++ lines_before n f self.old.first
            → text.new ≡ front ++ lines_before n f self.new.first) }
        ensures total { IfOk result (λ count. (n : ℕ) (f : ℕ → Label)
            → IsOpen n f self.old.first self.old.end self.old.label
            → IsStretch n f self.old.end end label.old
            → labelled_before f self.new.first ≡ labelled_before f self.old.first + count) }
        ensures err { OnErr result (self.new ≡ self.old) }
    {
        if self.label.is_same(label) {
            self.end = end;
            return Ok(0);
        }
        let count = self.put(text)?;
        self.restart(label, end);
        Ok(count)
    }

    /// Begins a new run where this one ends. Its label is taken over, and the old one is left in its place.
    fn restart(&mut self, label: &mut LabelText, end: u32)
        ensures { self.new ≡ record { first = self.old.end; end = end; label = label.old } }
    {
        self.first = self.end;
        self.end = end;
        mem::swap(&mut self.label, label);
    }

    /// Puts the line of the last run, and answers how many code points it lists.
    ///
    /// - `Memory`: memory ran out. A part of the line may then stand at the end of the text.
    pub fn end(self, text: &mut Text) -> Result<u32, Memory>
        requires inside { self.end ≤ 1114112 }
        requires some { IsSome self.label → self.first < self.end }
        ensures line { OnOk result
            (text.new ≡ text.old ++ run_line self.first self.end self.label) }
        ensures length { IfOk result (λ count. count ≡ run_length self.first self.end self.label) }
    {
        self.put(text)
    }

    /// Puts the line of the run, if it has a label, and answers how many code points the line lists.
    ///
    /// - `Memory`: memory ran out. A part of the line may then stand at the end of the text.
    fn put(&self, text: &mut Text) -> Result<u32, Memory>
        requires inside { self.now.end ≤ 1114112 }
        requires some { IsSome self.now.label → self.now.first < self.now.end }
        ensures line { OnOk result
            (text.new ≡ text.old ++ run_line self.now.first self.now.end self.now.label) }
        ensures length { IfOk result
            (λ count. count ≡ run_length self.now.first self.now.end self.now.label) }
    {
        match self.label.text() {
            None => Ok(0),
            Some(label) => {
                let run = Span::between(Point::at(self.first), Point::at(self.end - 1));
                put_span(run, text)?;
                text.append(label)?;
                text.push(b'\n')?;
                Ok(self.end - self.first)
            }
        }
    }
}
