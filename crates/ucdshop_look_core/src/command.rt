//! What the words of a run ask for.

ghost use Rattle.std.specs.Prelude.{◌≡◌};
ghost use Rattle.std.specs.List.{list_all};
ghost use Rattle.std.specs.Option.{option_map};
ghost use Rattle.ucdshop_jobs.specs.JobWords.{job_of, path_at};
ghost use Rattle.ucdshop_look_core.specs.Commands.{AsksFor};
ghost use Rattle.ucdshop_look_core.specs.Jobs.{are_some, ask_form, changes_form, check_form, check_job, form, is_one_line, show_form};
ghost use Rattle.ucdshop_look_core.specs.Points.{names_point};

use crate::points::named_point;
use ucd_model::Text;
use ucdshop_jobs::{Job, ScriptPlace};

/// The greatest number of questions of `ask`, and of code points of `show`.
const ASKED_LIMIT: usize = 64;

/// What the words of a run ask for.
#[derive(Clone, Copy)]
pub enum Command<'a> {
    /// Answer questions on the release of a folder.
    Ask {
        folder: &'a [u8],
        /// From 1 to 64, each of one line.
        questions: &'a [Text],
    },
    /// Tell the records of code points of the release of a folder.
    Show {
        folder: &'a [u8],
        /// From 1 to 64 words, each of which names a code point.
        points: &'a [Text],
    },
    /// Tell how this run of the first program would end, which writes nothing.
    Check(Job<'a>),
    /// Tell which records the groups of the script of this run change, which writes nothing.
    Changes(Job<'a>),
}

/// What the words ask for, and `None` exactly if they have no listed form.
pub fn command_of(words: &[Text]) -> Option<Command<'_>>
    ensures { AsksFor result (form words.now) }
{
    let [word, arguments @ ..] = words else {
        return None;
    };
    if word.as_slice() == b"ask".as_slice() {
        ask_of(arguments)
    } else if word.as_slice() == b"show".as_slice() {
        show_of(arguments)
    } else if word.as_slice() == b"check".as_slice() {
        check_of(arguments)
    } else if word.as_slice() == b"changes".as_slice() {
        changes_of(arguments)
    } else {
        None
    }
}

/// `ask DATA SET ..`, of the words behind `ask`.
fn ask_of(arguments: &[Text]) -> Option<Command<'_>>
    ensures { AsksFor result (ask_form arguments.now) }
{
    let [folder, questions @ ..] = arguments else {
        return None;
    };
    if has_allowed_count(questions) && are_one_line(questions) {
        Some(Command::Ask {
            folder: folder.as_slice(),
            questions,
        })
    } else {
        None
    }
}

/// `show DATA POINT ..`, of the words behind `show`.
fn show_of(arguments: &[Text]) -> Option<Command<'_>>
    ensures { AsksFor result (show_form arguments.now) }
{
    let [folder, points @ ..] = arguments else {
        return None;
    };
    if has_allowed_count(points) && name_points(points) {
        Some(Command::Show {
            folder: folder.as_slice(),
            points,
        })
    } else {
        None
    }
}

/// `check DATA [SCRIPT [PREVIOUS]]`, of the words behind `check`.
fn check_of(arguments: &[Text]) -> Option<Command<'_>>
    ensures { AsksFor result (check_form arguments.now) }
{
    match arguments {
        [folder] => Some(Command::Check(check_job(folder.as_slice(), None, None))),
        [folder, script] => Some(Command::Check(check_job(
            folder.as_slice(),
            Some(ScriptPlace::Named(script.as_slice())),
            None,
        ))),
        [folder, script, previous] => Some(Command::Check(check_job(
            folder.as_slice(),
            Some(ScriptPlace::Named(script.as_slice())),
            Some(previous.as_slice()),
        ))),
        _ => None,
    }
}

/// `changes DATA SCRIPT`, of the words behind `changes`.
fn changes_of(arguments: &[Text]) -> Option<Command<'_>>
    ensures { AsksFor result (changes_form arguments.now) }
{
    match arguments {
        [folder, script] => Some(Command::Changes(check_job(
            folder.as_slice(),
            Some(ScriptPlace::Named(script.as_slice())),
            None,
        ))),
        _ => None,
    }
}

/// The run that `check` stands for, which writes nothing.
fn check_job<'a>(
    folder: &'a [u8],
    script: Option<ScriptPlace<'a>>,
    previous: Option<&'a [u8]>,
) -> Job<'a>
    ensures { job_of result ≡ check_job folder.now (option_map path_at script.entry)
        (option_map (λ folder. folder.now) previous.entry) }
{
    Job {
        made: None,
        folder,
        script,
        previous,
        output: b"",
        parts: &[],
    }
}

/// Whether each word names a code point.
fn name_points(words: &[Text]) -> bool
    ensures { result ≡ list_all names_point words.now }
{
    words.iter().all(|word| names_point(word.as_slice()))
}

/// Whether a word names a code point.
fn names_point(word: &[u8]) -> bool
    ensures { result ≡ names_point word.now }
{
    named_point(word).is_some()
}

/// Whether there is one word or more, up to the limit.
fn has_allowed_count(words: &[Text]) -> bool
    ensures { result ≡ are_some words.now }
{
    0 < words.len() && words.len() <= ASKED_LIMIT
}

/// Whether no LF is in any of the texts.
fn are_one_line(texts: &[Text]) -> bool
    ensures { result ≡ list_all is_one_line texts.now }
{
    texts.iter().all(|text| is_one_line(text.as_slice()))
}

/// Whether no LF is in a text.
fn is_one_line(text: &[u8]) -> bool
    ensures { result ≡ is_one_line text.now }
{
    text.iter().all(|b| *b != b'\n')
}
