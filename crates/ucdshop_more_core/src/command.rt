//! What the words of a run ask for.

ghost use Rattle.std.specs.Prelude.{◌≡◌, ◌≤◌, ⊤};
ghost use Rattle.std.specs.Option.{MatchOption};
ghost use Rattle.ucdshop_more_core.specs.Commands.{AsksFor, IsListed, job_of};
ghost use Rattle.ucdshop_more_core.specs.Run.{ages_form, conform_form, desk_form, form, undo_depth, undo_form};

use script_pieces::decimal_u32;
use ucd_model::Text;

/// The greatest number of folders of `ages`.
const FOLDER_LIMIT: usize = 16;

/// The greatest number of earlier states that `undo` keeps.
const DEPTH_LIMIT: u32 = 1024;

/// What the words of a run ask for.
#[derive(Clone, Copy)]
pub enum Command<'a> {
    /// Let editors work on the release of the folder `input` as the file `events` says, and write what it is then, and what was
    /// replied, into the folder `output`.
    Desk {
        input: &'a [u8],
        events: &'a [u8],
        output: &'a [u8],
    },
    /// Carry out on the release of the folder `input` what the file `script` asks of a history, and write what its files are then,
    /// what is derived of them, and what was answered, into the folder `output`.
    Undo {
        input: &'a [u8],
        script: &'a [u8],
        output: &'a [u8],
        /// How many earlier states are kept, from 1 to 1,024.
        depth: u32,
    },
    /// Write what the release of the folder `input` misses of the cases in the file `tests` into the folder `output`.
    Conform {
        input: &'a [u8],
        tests: &'a [u8],
        output: &'a [u8],
    },
    /// Write the ages of code points over the releases of the folders `folders`, in order, and what each step from a release
    /// to the next breaks, into the folder `output`.
    Ages {
        output: &'a [u8],
        /// From 1 to 16.
        folders: &'a [Text],
    },
}

/// What the words ask for, and `None` exactly if they have no listed form.
pub fn command_of(words: &[Text]) -> Option<Command<'_>>
    ensures form { AsksFor result (form words.now) }
    ensures listed { MatchOption result ⊤ (λ command. IsListed (job_of command)) }
{
    let [word, arguments @ ..] = words else {
        return None;
    };
    if word.as_slice() == b"desk".as_slice() {
        desk_of(arguments)
    } else if word.as_slice() == b"undo".as_slice() {
        undo_of(arguments)
    } else if word.as_slice() == b"conform".as_slice() {
        conform_of(arguments)
    } else if word.as_slice() == b"ages".as_slice() {
        ages_of(arguments)
    } else {
        None
    }
}

/// `desk DATA EVENTS OUT`, of the words behind `desk`.
fn desk_of(arguments: &[Text]) -> Option<Command<'_>>
    ensures form { AsksFor result (desk_form arguments.now) }
    ensures listed { MatchOption result ⊤ (λ command. IsListed (job_of command)) }
{
    let [input, events, output] = arguments else {
        return None;
    };
    Some(Command::Desk {
        input: input.as_slice(),
        events: events.as_slice(),
        output: output.as_slice(),
    })
}

/// `undo DATA SCRIPT OUT DEPTH`, from the words behind `undo`.
fn undo_of(arguments: &[Text]) -> Option<Command<'_>>
    ensures form { AsksFor result (undo_form arguments.now) }
    ensures listed { MatchOption result ⊤ (λ command. IsListed (job_of command)) }
{
    let [input, script, output, depth] = arguments else {
        return None;
    };
    let depth = depth_of(depth.as_slice())?;
    Some(Command::Undo {
        input: input.as_slice(),
        script: script.as_slice(),
        output: output.as_slice(),
        depth,
    })
}

/// The number of earlier states that a word asks for; `None` exactly if it is no decimal number from 1 to 1,024, or has a zero to
/// spare.
fn depth_of(word: &[u8]) -> Option<u32>
    ensures depth { result ≡ undo_depth word.now }
    ensures limit { MatchOption result ⊤ (λ depth. (1 ≤ depth) × (depth ≤ 1024)) }
{
    let depth = decimal_u32(word)?;
    if 1 <= depth && depth <= DEPTH_LIMIT {
        Some(depth)
    } else {
        None
    }
}

/// `conform DATA TESTS OUT`, from the words behind `conform`.
fn conform_of(arguments: &[Text]) -> Option<Command<'_>>
    ensures form { AsksFor result (conform_form arguments.now) }
    ensures listed { MatchOption result ⊤ (λ command. IsListed (job_of command)) }
{
    let [input, tests, output] = arguments else {
        return None;
    };
    Some(Command::Conform {
        input: input.as_slice(),
        tests: tests.as_slice(),
        output: output.as_slice(),
    })
}

/// `ages OUT DATA1 .. DATAn`, from the words behind `ages`.
fn ages_of(arguments: &[Text]) -> Option<Command<'_>>
    ensures form { AsksFor result (ages_form arguments.now) }
    ensures listed { MatchOption result ⊤ (λ command. IsListed (job_of command)) }
{
    let [output, folders @ ..] = arguments else {
        return None;
    };
    if 0 < folders.len() && folders.len() <= FOLDER_LIMIT {
        Some(Command::Ages {
            output: output.as_slice(),
            folders,
        })
    } else {
        None
    }
}
