//! The marks of a file of events.

ghost use Rattle.std.specs.Prelude.{◌≡◌, None, Some};
ghost use Rattle.std.specs.List.{All};
ghost use Rattle.std.specs.Option.{MatchOption};
ghost use Rattle.script_lines.specs.Groups.{AreWellFormed, IsWellFormed};
ghost use Rattle.script_lines.specs.Lines.{behind};
ghost use Rattle.ucdshop_more_core.specs.Marks.{are_a_group, fits, mark_of, ops_of, proposal_of};

use crate::groups::{is_group, ops_in};
use release_rows::Op;
use script_lines::Command;
use script_pieces::decimal_u32;
use ucd_lines::cut;

/// What an editor does at a desk, by a mark.
#[derive(Clone, Copy, PartialEq, Eq)]
pub enum DeskMark {
    /// `@ open E`: the editor comes.
    Open {
        /// The editor's number.
        editor: u32,
    },
    /// `@ leave E`: the editor leaves.
    Leave {
        /// The editor's number.
        editor: u32,
    },
    /// `@ propose E B`: the editor proposes the group that follows.
    Propose {
        /// The editor's number.
        editor: u32,
        /// The last revision that the editor has seen.
        base: u32,
    },
}

/// The mark of a line; `None` exactly if it is none of the three.
pub fn mark_of(content: &[u8]) -> Option<DeskMark>
    ensures { result ≡ mark_of content.now }
{
    if let Some(text) = behind_word(b"@ open ", content) {
        let editor = decimal_u32(text)?;
        return Some(DeskMark::Open { editor });
    }
    if let Some(text) = behind_word(b"@ leave ", content) {
        let editor = decimal_u32(text)?;
        return Some(DeskMark::Leave { editor });
    }
    match behind_word(b"@ propose ", content) {
        Some(text) => proposal_of(text),
        None => None,
    }
}

/// The mark of a proposal, by the two numbers around the first space.
fn proposal_of(text: &[u8]) -> Option<DeskMark>
    ensures { result ≡ proposal_of text.now }
{
    let (first, second) = cut(text, b' ');
    let editor = decimal_u32(first)?;
    let base = decimal_u32(second)?;
    Some(DeskMark::Propose { editor, base })
}

/// What stands behind a word with which a line begins; `None` if it does not.
fn behind_word<'a>(word: &[u8], content: &'a [u8]) -> Option<&'a [u8]>
    ensures { MatchOption result (behind word.now content.now ≡ None)
        (λ text. behind word.now content.now ≡ Some text.now) }
{
    content.strip_prefix(word)
}

/// Whether the commands behind a mark are those that it asks for: none, or one group.
pub fn fits(mark: DeskMark, commands: &[Command]) -> bool
    ensures { result ≡ fits mark commands.now }
{
    match mark {
        DeskMark::Open { .. } | DeskMark::Leave { .. } => commands.is_empty(),
        DeskMark::Propose { .. } => are_a_group(commands),
    }
}

/// Whether there is one command, which is a group.
fn are_a_group(commands: &[Command]) -> bool
    ensures { result ≡ are_a_group commands.now }
{
    match commands {
        [command] => is_group(command),
        _ => false,
    }
}

/// The operations of the first command.
pub fn ops_of_first_command(commands: &[Command]) -> &[Op]
    requires { All IsWellFormed commands.now }
    ensures ops { result.now ≡ ops_of commands.now }
    ensures ready { AreWellFormed result.now }
{
    match commands {
        [first, ..] => ops_in(first),
        [] => &[],
    }
}
