//! A section as far as it is written.

ghost use Rattle.std.specs.Prelude.{◌≡◌, ◌<◌, ◌≤◌, ◌++◌, ℕ, List, OnOk, OnErr, IfOk};
ghost use Rattle.ucd_model.specs.Labels.{Label};
ghost use Rattle.ucd_model.specs.DerivedText.{section_text};
ghost use Rattle.label_runs.specs.Runs.{IsStretch};
ghost use Rattle.label_runs.specs.Sections.{section_head, IsWritten};

use crate::label::LabelText;
use crate::run::Run;
use std::alloc::Global;
use std::marker::Model;
use ucd_lines::put_total;
use ucd_model::{Memory, Text};

/// A section of a text that is being written: `# NAME`, a line for each maximal span of one label, `# total N` with the
/// number of code points listed, and an empty line. It is written stretch by stretch. UAX #44, section 5.3.
#[derive(Drop)]
pub struct OpenSection {
    run: Run,
    total: u32,
}

impl Model for OpenSection {
    ghost use Rattle.label_runs.specs.Sections.{Progress, IsWithin};

    ghost Value = { Progress };

    ghost view = { λ s. record { first = s.run.first; end = s.run.end; label = s.run.label; total = s.total } };

    ghost invariant = { λ s. IsWithin (record { first = s.run.first; end = s.run.end; label = s.run.label; total = s.total }) };
}

impl OpenSection {
    /// Puts `# NAME`. The section is then written up to before the first code point.
    ///
    /// - `Memory`: memory ran out. A part of the line may then stand at the end of the text.
    pub fn begin(alloc: Global, name: &[u8], text: &mut Text) -> Result<OpenSection, Memory>
        ensures end { IfOk result (λ section. section.end ≡ 0) }
        ensures written { IfOk result (λ section. (n : ℕ) (f : ℕ → Label)
            → IsWritten n f (text.old ++ section_head name.now) section text.new) }
    {
        text.append(b"# ")?;
        text.append(name)?;
        text.append(b"\n")?;
        Ok(OpenSection {
            run: Run::start(alloc),
            total: 0,
        })
    }

    /// Goes on to `end`, with the label of all code points up to there. The label is a buffer: another one may stand in
    /// its place afterwards.
    ///
    /// - `Memory`: memory ran out. The section stays as it was, and a part of a line may then stand at the end of the
    ///   text.
    pub fn go_on(&mut self, label: &mut LabelText, end: u32, text: &mut Text) -> Result<(), Memory>
        requires ahead { self.old.end < end }
        requires inside { end ≤ 1114112 }
        ensures end { OnOk result (self.new.end ≡ end) }
        ensures written { OnOk result ((n : ℕ) (f : ℕ → Label) (front : List ℕ)
            → IsStretch n f self.old.end end label.old → IsWritten n f front self.old text.old
            → IsWritten n f front self.new text.new) }
        ensures err { OnErr result (self.new ≡ self.old) }
    {
        self.total += self.run.go_on(label, end, text)?;
        Ok(())
    }

    /// Puts the line of the last span, `# total N` and an empty line.
    ///
    /// - `Memory`: memory ran out. A part of this may then stand at the end of the text.
    #[tactic(auto, unfolding(ucd_model::specs::DerivedText::section_text))]
    pub fn end(self, alloc: Global, text: &mut Text) -> Result<(), Memory>
        ensures { OnOk result ((f : ℕ → Label) (before name : List ℕ)
            → IsWritten self.end f (before ++ section_head name) self text.old
            → text.new ≡ before ++ section_text name self.end f) }
    {
        let total = self.total + self.run.end(text)?;
        put_total(alloc, total as usize, text)?;
        text.append(b"\n")
    }
}
