//! What a line of NormalizationTest.txt says by itself.

ghost use Rattle.std.specs.Prelude.{◌≡◌};
ghost use Rattle.norm_conformance.specs.Lines.{digit_alone, is_passed, part_of, said, text_of};

use crate::columns::{Columns, columns_of};
use crate::stop::CaseRule;
use ucd_lines::{cut, is_trivia, trim};
use ucd_model::SourceFile;

/// A line of the file.
#[derive(Drop)]
pub enum Line<'a> {
    /// A blank line or a comment.
    Passed,
    /// `@Part` and a digit: the part of the lines behind it.
    Part(u8),
    /// A case.
    Tested(Columns<'a>),
}

/// Whether a line is blank, or a comment.
fn is_blank_or_comment(content: &[u8]) -> bool
    ensures { result ≡ is_passed content.now }
{
    is_trivia(SourceFile::PropList, content)
}

/// What stands before the comment, without white space around it.
fn text_before_comment(content: &[u8]) -> &[u8]
    ensures { result.now ≡ text_of content.now }
{
    trim(cut(content, b'#').0)
}

/// What one decimal digit alone is worth. `None` for all other texts.
fn digit_alone(text: &[u8]) -> Option<u8>
    ensures { result ≡ digit_alone text.now }
{
    match text {
        [digit @ b'0'..=b'9'] => Some(*digit - b'0'),
        _ => None,
    }
}

/// The part that `@Part` and a digit name. `None` for all other texts.
fn part_of(text: &[u8]) -> Option<u8>
    ensures { result ≡ part_of text.now }
{
    match text.strip_prefix(b"@Part".as_slice()) {
        Some(digits) => digit_alone(digits),
        None => None,
    }
}

/// What a line says.
///
/// - `N1`: there are not five fields, or five fields and an empty one.
/// - `N2`: one of the five is not one to 64 code points.
/// - `N3`: the line begins with `@`, and is not `@Part` and a digit.
pub fn line_of(content: &[u8]) -> Result<Line<'_>, CaseRule>
    ensures { result ≡ said content.now }
{
    if is_blank_or_comment(content) {
        return Ok(Line::Passed);
    }
    let text = text_before_comment(content);
    if !matches!(text, [b'@', ..]) {
        return Ok(Line::Tested(columns_of(content)?));
    }
    match part_of(text) {
        Some(part) => Ok(Line::Part(part)),
        None => Err(CaseRule::N3),
    }
}
