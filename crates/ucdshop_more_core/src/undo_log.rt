//! The log of a history, and what its summary counts.

ghost use Rattle.std.specs.Prelude.{◌≡◌, ◌+◌, [], ◌++◌, IfOk, OnOk};
ghost use Rattle.run_inputs.specs.GroupLines.{accepted_line, refused_line};
ghost use Rattle.ucdshop_more_core.specs.Undoing.{nothing_line, undone_line};

use crate::log_lines::{put_number, put_word};
use edit_session::Refused;
use run_inputs::{put_accepted, put_refused};
use std::alloc::Global;
use ucd_model::{Memory, Text};

/// The log of a history, and what its summary counts.
#[derive(Drop)]
pub struct UndoLog {
    /// A line for each group and each mark.
    pub text: Text,
    /// How many groups were accepted.
    pub accepted: usize,
    /// How many groups were taken back.
    pub undone: usize,
    /// How often a group was refused, or there was nothing to take back.
    pub refused: usize,
}

impl UndoLog {
    /// No line yet. It takes no memory.
    pub fn new(alloc: Global) -> UndoLog
        ensures { result ≡ record { text = []; accepted = 0; undone = 0; refused = 0 } }
    {
        UndoLog {
            text: Text::new(alloc),
            accepted: 0,
            undone: 0,
            refused: 0,
        }
    }

    /// One more group was accepted: the line of its command, and how many records changed.
    ///
    /// - `Memory`: memory ran out, or there are 2^64 such groups.
    pub fn accept(&mut self, alloc: Global, line: u32, count: usize) -> Result<(), Memory>
        ensures { OnOk result (self.new ≡ record {
          text = self.old.text ++ accepted_line line count;
          accepted = self.old.accepted + 1;
          undone = self.old.undone;
          refused = self.old.refused;
        }) }
    {
        let accepted = one_more(self.accepted)?;
        put_accepted(alloc, &mut self.text, line, count)?;
        self.accepted = accepted;
        Ok(())
    }

    /// One more group was refused: the line of its command, and why.
    ///
    /// - `Memory`: memory ran out, or there are 2^64 such groups.
    pub fn refuse(&mut self, alloc: Global, line: u32, why: Refused) -> Result<(), Memory>
        ensures { OnOk result (self.new ≡ record {
          text = self.old.text ++ refused_line line why;
          accepted = self.old.accepted;
          undone = self.old.undone;
          refused = self.old.refused + 1;
        }) }
    {
        let refused = one_more(self.refused)?;
        put_refused(alloc, &mut self.text, line, why)?;
        self.refused = refused;
        Ok(())
    }

    /// One more group was taken back: the line of the mark, and how many records changed.
    ///
    /// - `Memory`: memory ran out, or there are 2^64 such marks.
    pub fn note_undone(&mut self, alloc: Global, line: u32, count: usize) -> Result<(), Memory>
        ensures { OnOk result (self.new ≡ record {
          text = self.old.text ++ undone_line line count;
          accepted = self.old.accepted;
          undone = self.old.undone + 1;
          refused = self.old.refused;
        }) }
    {
        let undone = one_more(self.undone)?;
        put_number(alloc, line, b"undone ", count, &mut self.text)?;
        self.undone = undone;
        Ok(())
    }

    /// There was nothing to take back: the line of the mark.
    ///
    /// - `Memory`: memory ran out, or there are 2^64 such marks.
    pub fn note_nothing_to_undo(&mut self, alloc: Global, line: u32) -> Result<(), Memory>
        ensures { OnOk result (self.new ≡ record {
          text = self.old.text ++ nothing_line line;
          accepted = self.old.accepted;
          undone = self.old.undone;
          refused = self.old.refused + 1;
        }) }
    {
        let refused = one_more(self.refused)?;
        put_word(alloc, line, b"nothing to undo", &mut self.text)?;
        self.refused = refused;
        Ok(())
    }
}

/// One more than a count.
///
/// - `Memory`: it would be 2^64, more than memory holds lines.
fn one_more(count: usize) -> Result<usize, Memory>
    ensures { IfOk result (λ more. more ≡ count + 1) }
{
    match count.checked_add(1) {
        Some(more) => Ok(more),
        None => Err(Memory),
    }
}
