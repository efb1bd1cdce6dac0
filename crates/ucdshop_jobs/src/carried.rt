//! What carrying out commands gave.

ghost use Rattle.std.specs.Prelude.{◌≡◌, ◌+◌, ◌<◌, ◌≤◌, ◌^◌, [], ◌++◌, OnOk};
ghost use Rattle.ucd_points.specs.Limits.{point_count};
ghost use Rattle.ucdshop_jobs.specs.Carrying.{counted};
ghost use Rattle.run_inputs.specs.GroupLines.{accepted_line, refused_line};
ghost use Rattle.ucdshop_jobs.specs.Session.{set_line, unasked_line};
ghost use Rattle.set_answers.specs.SetTexts.{members_in, set_section};

use crate::log::{put_answered_question, put_refused_question};
use edit_session::Refused;
use run_inputs::{put_accepted, put_refused};
use set_questions::{AskFault, put_answer};
use std::alloc::Global;
use ucd_model::{Memory, Span, Text};

/// What carrying out commands gave.
#[derive(Drop)]
pub struct Carried {
    /// The log: one line for each command.
    pub log: Text,
    /// The answers to the questions: one section for each.
    pub sets: Text,
    /// How many groups were accepted.
    pub accepted: usize,
    /// How many records each of them changed, added up.
    pub changed: usize,
    /// How many commands were refused.
    pub refused: usize,
    /// How many questions were answered.
    pub answered: usize,
}

impl Carried {
    /// No command yet. It takes no memory.
    pub fn new(alloc: Global) -> Carried
        ensures { result ≡ record
            { log = []; sets = []; accepted = 0; changed = 0; refused = 0; answered = 0 } }
    {
        Carried {
            log: Text::new(alloc),
            sets: Text::new(alloc),
            accepted: 0,
            changed: 0,
            refused: 0,
            answered: 0,
        }
    }

    /// One more group was accepted: the line of its command, and how many records changed.
    ///
    /// - `Memory`: memory ran out, or all groups would have changed 2^64 code points or more.
    pub fn accept(&mut self, alloc: Global, line: u32, count: usize) -> Result<(), Memory>
        requires { counted self.old + 1 < 2 ^ 64 }
        ensures { OnOk result (self.new ≡ record {
          log = self.old.log ++ accepted_line line count;
          sets = self.old.sets;
          accepted = self.old.accepted + 1;
          changed = self.old.changed + count;
          refused = self.old.refused;
          answered = self.old.answered;
        }) }
    {
        let Some(changed) = self.changed.checked_add(count) else {
            return Err(Memory);
        };
        put_accepted(alloc, &mut self.log, line, count)?;
        self.accepted += 1;
        self.changed = changed;
        Ok(())
    }

    /// One more group was refused: the line of its command, and why.
    pub fn refuse(&mut self, alloc: Global, line: u32, why: Refused) -> Result<(), Memory>
        requires { counted self.old + 1 < 2 ^ 64 }
        ensures { OnOk result (self.new ≡ record {
          log = self.old.log ++ refused_line line why;
          sets = self.old.sets;
          accepted = self.old.accepted;
          changed = self.old.changed;
          refused = self.old.refused + 1;
          answered = self.old.answered;
        }) }
    {
        put_refused(alloc, &mut self.log, line, why)?;
        self.refused += 1;
        Ok(())
    }

    /// One more question was answered: the line of its command, and the members as spans.
    pub fn answer(&mut self, alloc: Global, line: u32, spans: &[Span]) -> Result<(), Memory>
        requires room { counted self.old + 1 < 2 ^ 64 }
        requires members { members_in spans.now ≤ point_count }
        ensures { OnOk result (self.new ≡ record {
          log = self.old.log ++ set_line line (members_in spans.now);
          sets = self.old.sets ++ set_section line spans.now;
          accepted = self.old.accepted;
          changed = self.old.changed;
          refused = self.old.refused;
          answered = self.old.answered + 1;
        }) }
    {
        let count = put_answer(alloc, &mut self.sets, line, spans)?;
        put_answered_question(alloc, &mut self.log, line, count)?;
        self.answered += 1;
        Ok(())
    }

    /// One more question was refused: the line of its command, and why.
    pub fn refuse_question(
        &mut self,
        alloc: Global,
        line: u32,
        fault: AskFault,
    ) -> Result<(), Memory>
        requires { counted self.old + 1 < 2 ^ 64 }
        ensures { OnOk result (self.new ≡ record {
          log = self.old.log ++ unasked_line line fault;
          sets = self.old.sets;
          accepted = self.old.accepted;
          changed = self.old.changed;
          refused = self.old.refused + 1;
          answered = self.old.answered;
        }) }
    {
        put_refused_question(alloc, &mut self.log, line, fault)?;
        self.refused += 1;
        Ok(())
    }
}
