//! Tells blank lines and comment lines from rows, and the comments that are rows. UAX #44, sections 4.2 and 4.2.10.

ghost use Rattle.std.specs.Prelude.{◌≡◌, ◌≤◌, length, IfSome, codes};
ghost use Rattle.std.specs.Option.{option_map};
ghost use Rattle.ucd_points.specs.Lines.{unindented, is_comment};
ghost use Rattle.ucd_points.specs.MissingLines.{takes_missing, mark, behind_mark, behind_hash, missing_rest, is_trivia};

use crate::blank::leading_blanks;
use ucd_points::SourceFile;

/// What stands after the mark `# @missing:` of a line of Scripts.txt or WordBreakProperty.txt: a span and a value,
/// which the code points of the span have that no other row covers. White space may stand before the `#` and behind it.
/// `None` for every other line, and in every other file. UAX #44, section 4.2.10.
#[tactic(auto, unfolding(ucd_points::specs::MissingLines::missing_rest))]
pub fn missing_rest(file: SourceFile, content: &[u8]) -> Option<&[u8]>
    ensures rest { option_map (λ rest. rest.now) result ≡ missing_rest file content.now }
    ensures shorter { IfSome result (λ rest. length rest.now ≤ length content.now) }
{
    if !has_missing_rows(file) {
        return None;
    }
    match unindented(content) {
        [b'#', behind @ ..] => behind_missing_mark(unindented(behind)),
        _ => None,
    }
}

/// Whether a line holds no row: true exactly if its content is blank, or its first byte other than white space
/// (space and tab) is `#` and it is no line `# @missing:` of Scripts.txt or WordBreakProperty.txt. UAX #44, sections 4.2 and
/// 4.2.10.
pub fn is_trivia(file: SourceFile, content: &[u8]) -> bool
    ensures { result ≡ is_trivia file content.now }
{
    is_blank_or_comment(content) && missing_rest(file, content).is_none()
}

/// Whether a file has rows that are lines `# @missing:`: Scripts.txt and WordBreakProperty.txt. UAX #44, section 4.2.10.
pub fn has_missing_rows(file: SourceFile) -> bool
    ensures { result ≡ takes_missing file }
{
    matches!(file, SourceFile::Scripts | SourceFile::WordBreakProperty)
}

/// The bytes behind the white space at their beginning.
fn unindented(bytes: &[u8]) -> &[u8]
    ensures text { result.now ≡ unindented bytes.now }
    ensures shorter { length result.now ≤ length bytes.now }
{
    &bytes[leading_blanks(bytes)..]
}

/// Whether a line is blank, or its first byte other than white space is `#`.
fn is_blank_or_comment(content: &[u8]) -> bool
    ensures { result ≡ is_comment content.now }
{
    match unindented(content) {
        [] => true,
        [first, ..] => *first == b'#',
    }
}

/// What stands behind `@missing:`, if the bytes begin with it.
fn behind_missing_mark(bytes: &[u8]) -> Option<&[u8]>
    ensures rest { option_map (λ rest. rest.now) result ≡ behind_mark bytes.now }
    ensures shorter { IfSome result (λ rest. length rest.now ≤ length bytes.now) }
{
    let mark = b"@missing:";
    if bytes.starts_with(mark) {
        Some(&bytes[mark.len()..])
    } else {
        None
    }
}
