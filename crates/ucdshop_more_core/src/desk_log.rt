//! The log of a desk, and what its summary counts.

ghost use Rattle.std.specs.Prelude.{◌≡◌, ◌+◌, ◌<◌, ◌^◌, [], ◌++◌, OnOk, codes, cond};
ghost use Rattle.std.specs.Fmt.{decimal};
ghost use Rattle.run_inputs.specs.GroupLines.{log_line};
ghost use Rattle.ucdshop_more_core.specs.DeskTexts.{is_accepted, is_turned_away, reply_line};

use crate::log_lines::{put_head, put_number, put_word};
use bench_editors::Reply;
use run_inputs::put_refused;
use std::alloc::Global;
use ucd_lines::put_decimal;
use ucd_model::{Memory, Text};

/// The log of a desk, and what its summary counts.
#[derive(Drop)]
pub struct DeskLog {
    /// A line for each reply.
    pub text: Text,
    /// How many groups were carried out.
    pub accepted: usize,
    /// How often an editor was turned away.
    pub refused: usize,
}

impl DeskLog {
    /// No reply yet. It takes no memory.
    pub fn new(alloc: Global) -> DeskLog
        ensures { result ≡ record { text = []; accepted = 0; refused = 0 } }
    {
        DeskLog {
            text: Text::new(alloc),
            accepted: 0,
            refused: 0,
        }
    }

    /// Puts one more reply: the line of its mark, and what it says.
    ///
    /// - `Memory`: memory ran out.
    pub fn put(&mut self, alloc: Global, line: u32, reply: &Reply) -> Result<(), Memory>
        requires room { self.old.accepted + self.old.refused + 1 < 2 ^ 64 }
        ensures { OnOk result (self.new ≡ record {
          text = self.old.text ++ reply_line line reply.now;
          accepted = self.old.accepted + cond (is_accepted reply.now) 1 0;
          refused = self.old.refused + cond (is_turned_away reply.now) 1 0;
        }) }
    {
        put_reply(alloc, line, reply, &mut self.text)?;
        self.accepted += usize::from(is_accepted(reply));
        self.refused += usize::from(is_turned_away(reply));
        Ok(())
    }
}

/// Whether a group was carried out.
fn is_accepted(reply: &Reply) -> bool
    ensures { result ≡ is_accepted reply.now }
{
    matches!(reply, Reply::Accepted { .. })
}

/// Whether no editor came or left, and no group was carried out.
fn is_turned_away(reply: &Reply) -> bool
    ensures { result ≡ is_turned_away reply.now }
{
    !matches!(
        reply,
        Reply::Entered { .. } | Reply::Accepted { .. } | Reply::Left
    )
}

/// Puts the line of a reply: the number of the mark's line, and what it says.
///
/// - `Memory`: memory ran out.
fn put_reply(alloc: Global, line: u32, reply: &Reply, text: &mut Text) -> Result<(), Memory>
    ensures { OnOk result (text.new ≡ text.old ++ reply_line line reply.now) }
{
    match reply {
        Reply::Entered { revision } => put_number(
            alloc,
            line,
            b"opened ",
            *revision as usize,
            text,
        ),
        Reply::Accepted { revision, changed } => {
            put_accepted(alloc, line, *revision, changed.len(), text)
        }
        Reply::Left => put_word(alloc, line, b"left", text),
        Reply::Present => put_word(alloc, line, b"present", text),
        Reply::Absent => put_word(alloc, line, b"absent", text),
        Reply::Ahead { revision } => put_number(alloc, line, b"ahead ", *revision as usize, text),
        Reply::Stale { revision, op } => put_stale(alloc, line, *revision, *op, text),
        Reply::Refused(why) => put_refused(alloc, text, line, *why),
    }
}

/// Puts the line of a group that was carried out: its revision, and how many records changed.
fn put_accepted(
    alloc: Global,
    line: u32,
    revision: u32,
    count: usize,
    text: &mut Text,
) -> Result<(), Memory>
    ensures { OnOk result (text.new ≡ text.old
        ++ log_line line (codes "accepted " ++ decimal revision ++ codes " "
        ++ decimal count)) }
{
    put_head(alloc, line, b"accepted ", text)?;
    put_decimal(alloc, revision as usize, text)?;
    text.append(b" ")?;
    put_decimal(alloc, count, text)?;
    text.append(b"\n")
}

/// Puts the line of a proposal on a row that was touched meanwhile: the revision that touched one of its rows last, and the
/// number of the first such operation.
fn put_stale(
    alloc: Global,
    line: u32,
    revision: u32,
    op: u32,
    text: &mut Text,
) -> Result<(), Memory>
    ensures { OnOk result (text.new ≡ text.old
        ++ log_line line (codes "stale " ++ decimal revision ++ codes " operation "
        ++ decimal op)) }
{
    put_head(alloc, line, b"stale ", text)?;
    put_decimal(alloc, revision as usize, text)?;
    text.append(b" operation ")?;
    put_decimal(alloc, op as usize, text)?;
    text.append(b"\n")
}
