//! What a line of a script says by itself.

ghost use Rattle.std.specs.Prelude.{◌≡◌, None, Some};
ghost use Rattle.std.specs.Option.{MatchOption};
ghost use Rattle.script_lines.specs.Lines.{behind, last_text, ordered, orders, puts, said, said_by, with_file, withdraws};

use crate::source_path::file_named;
use ucd_facts::SourceFile;
use ucd_lines::{cut, first_at, is_trivia};

/// How a row is put into a file.
#[derive(Clone, Copy, PartialEq, Eq)]
pub enum Put {
    /// Between the rows that are there.
    Add,
    /// In the place of the row that has its key.
    Change,
}

/// A line of a script.
#[derive(Clone, Copy)]
pub enum Line<'a> {
    /// A blank line or a comment.
    Skipped,
    /// `begin`.
    Begin,
    /// `end`.
    End,
    /// `add FILE LINE` or `change FILE LINE`.
    Row(Put, SourceFile, &'a [u8]),
    /// `withdraw FILE KEY`.
    Withdraw(SourceFile, &'a [u8]),
    /// `set TEXT`.
    Set(&'a [u8]),
    /// No line by itself: `last LINE`, or no command.
    Other,
}

/// A row that is put, from the text behind the word of the command.
fn row_line(put: Put, text: &[u8]) -> Line<'_>
    ensures { said_by result ≡ with_file (puts put) text.now }
{
    if first_at(text, b' ') == text.len() {
        return Line::Other;
    }
    let (path, rest) = cut(text, b' ');
    match file_named(path) {
        Some(file) => Line::Row(put, file, rest),
        None => Line::Other,
    }
}

/// A row that is taken out, from the text behind the word of the command.
fn withdraw_line(text: &[u8]) -> Line<'_>
    ensures { said_by result ≡ with_file withdraws text.now }
{
    if first_at(text, b' ') == text.len() {
        return Line::Other;
    }
    let (path, rest) = cut(text, b' ');
    match file_named(path) {
        Some(file) => Line::Withdraw(file, rest),
        None => Line::Other,
    }
}

/// What stands behind a word with which a text begins; `None` if it does not.
fn behind_word<'a>(word: &[u8], content: &'a [u8]) -> Option<&'a [u8]>
    ensures { MatchOption result (behind word.now content.now ≡ None)
        (λ text. behind word.now content.now ≡ Some text.now) }
{
    content.strip_prefix(word)
}

/// What a line says that puts a row or takes one out.
fn operation_line(content: &[u8]) -> Line<'_>
    ensures { said_by result ≡ orders content.now }
{
    if let Some(text) = behind_word(b"add ", content) {
        return row_line(Put::Add, text);
    }
    if let Some(text) = behind_word(b"change ", content) {
        return row_line(Put::Change, text);
    }
    match behind_word(b"withdraw ", content) {
        Some(text) => withdraw_line(text),
        None => Line::Other,
    }
}

/// What a line says that is neither skipped, `begin` nor `end`.
fn question_or_operation_line(content: &[u8]) -> Line<'_>
    ensures { said_by result ≡ ordered content.now }
{
    match behind_word(b"set ", content) {
        Some(text) => Line::Set(text),
        None => operation_line(content),
    }
}

/// What a line says.
pub fn line_of(content: &[u8]) -> Line<'_>
    ensures { said_by result ≡ said content.now }
{
    if is_trivia(SourceFile::UnicodeData, content) {
        return Line::Skipped;
    }
    if content == b"begin".as_slice() {
        return Line::Begin;
    }
    if content == b"end".as_slice() {
        return Line::End;
    }
    question_or_operation_line(content)
}

/// LINE, of a line `last LINE`; `None` for other lines.
pub fn text_behind_last(content: &[u8]) -> Option<&[u8]>
    ensures { MatchOption result (last_text content.now ≡ None)
        (λ text. last_text content.now ≡ Some text.now) }
{
    behind_word(b"last ", content)
}
