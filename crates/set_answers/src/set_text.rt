//! The text of the answers to questions.

ghost use Rattle.std.specs.Prelude.{◌≡◌, ◌++◌, ◌≤◌, IfOk, OnOk, codes};
ghost use Rattle.std.specs.Fmt.{decimal};
ghost use Rattle.std.specs.List.{flat_map};
ghost use Rattle.ucd_model.specs.DerivedText.{line_end};
ghost use Rattle.ucd_points.specs.Limits.{point_count};
ghost use Rattle.set_answers.specs.SetTexts.{members_in, members_text, set_section, span_entry};

use std::alloc::Global;
use ucd_lines::{put_decimal, put_span, put_total};
use ucd_model::{Memory, Span, Text};

/// Puts the answer to the question on this line, and answers how many members it has: `# line L`, a line for each span,
/// `# total N`, and an empty line.
///
/// - `Memory`: memory ran out. A part of the answer may then stand at the end of the text.
pub fn put_answer(
    alloc: Global,
    text: &mut Text,
    line: u32,
    spans: &[Span],
) -> Result<usize, Memory>
    requires { members_in spans.now ≤ point_count }
    ensures text { OnOk result (text.new ≡ text.old ++ set_section line spans.now) }
    ensures count { IfOk result (λ count. count ≡ members_in spans.now) }
{
    put_head(alloc, text, line)?;
    let count = put_members(alloc, text, spans)?;
    text.append(b"\n")?;
    Ok(count)
}

/// Puts the members that a question is answered with, and answers how many they are: a line for each span, and `# total N`.
///
/// - `Memory`: memory ran out. A part of them may stand at the end of the text then.
pub fn put_members(alloc: Global, text: &mut Text, spans: &[Span]) -> Result<usize, Memory>
    requires { members_in spans.now ≤ point_count }
    ensures text { OnOk result (text.new ≡ text.old ++ members_text spans.now) }
    ensures count { IfOk result (λ count. count ≡ members_in spans.now) }
{
    let count = put_spans(text, spans)?;
    put_total(alloc, count, text)?;
    Ok(count)
}

/// Puts `# line L`.
fn put_head(alloc: Global, text: &mut Text, line: u32) -> Result<(), Memory>
    ensures { OnOk result (text.new ≡ text.old ++ codes "# line " ++ decimal line ++ line_end) }
{
    text.append(b"# line ")?;
    put_decimal(alloc, line as usize, text)?;
    text.append(b"\n")
}

/// Puts a line for each span, and answers how many code points lie in them together.
#[tactic(auto, unfolding(ucd_points::specs::Limits::point_count))]
fn put_spans(text: &mut Text, spans: &[Span]) -> Result<usize, Memory>
    requires { members_in spans.now ≤ point_count }
    ensures text { OnOk result (text.new ≡ text.old ++ flat_map span_entry spans.now) }
    ensures count { IfOk result (λ count. count ≡ members_in spans.now) }
{
    let mut count = 0;
    'spans: for span in spans {
        put_entry(text, *span)?;
        count += (span.last() + 1 - span.first()) as usize;
    }
    Ok(count)
}

/// Puts the line of a span.
fn put_entry(text: &mut Text, span: Span) -> Result<(), Memory>
    ensures { OnOk result (text.new ≡ text.old ++ span_entry span) }
{
    put_span(span, text)?;
    text.push(b'\n')
}
