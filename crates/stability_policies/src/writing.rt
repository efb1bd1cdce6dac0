//! The text of a report.

ghost use Rattle.std.specs.Prelude.{◌≡◌, ◌++◌, length, codes, IfOk, OnOk};
ghost use Rattle.std.specs.Fmt.{decimal};
ghost use Rattle.ucd_model.specs.DerivedText.{line_end};
ghost use Rattle.ucd_points.specs.HexText.{hex_text};
ghost use Rattle.ucd_points.specs.SourceFiles.{source_path};
ghost use Rattle.stability_policies.specs.ReportTexts.{break_line, policy_code, report_text};
ghost use Rattle.stability_policies.specs.declared.policy.Policy.TheVariants.{P17};

use crate::breaks::{Break, Breaks};
use crate::policy::Policy;
use std::alloc::Global;
use ucd_lines::{put_decimal, put_hex, put_total};
use ucd_model::{Memory, Point, SourceFile, Text};

/// The text of a report: a line for each break, in order, with the code of the policy and the code point, or for P17
/// the path of the file and the number of the line; and a last line with how many there are.
///
/// - `Memory`: memory ran out.
pub fn report_text(alloc: Global, breaks: &Breaks) -> Result<Text, Memory>
    ensures { IfOk result (λ text. text ≡ report_text breaks.now) }
{
    let mut text = Text::new(alloc);
    'breaks: for b in breaks.as_slice() {
        put_break(alloc, &mut text, *b)?;
    }
    put_total(alloc, breaks.len(), &mut text)?;
    Ok(text)
}

/// Puts the line of a break.
///
/// - `Memory`: memory ran out.
fn put_break(alloc: Global, text: &mut Text, b: Break) -> Result<(), Memory>
    ensures { OnOk result (text.new ≡ text.old ++ break_line b) }
{
    match b {
        Break::At { policy, point } => put_point(text, policy, point),
        Break::Alias { file, line } => put_alias(alloc, text, file, line),
    }
}

/// Puts the line of a break by a code point.
///
/// - `Memory`: memory ran out.
fn put_point(text: &mut Text, policy: Policy, point: Point) -> Result<(), Memory>
    ensures { OnOk result (text.new ≡ text.old ++ policy_code policy ++ codes " " ++ hex_text point
        ++ line_end) }
{
    text.append(policy.code())?;
    text.append(b" ")?;
    put_hex(point, text)?;
    text.append(b"\n")
}

/// Puts the line of a break by a row of an alias file.
///
/// - `Memory`: memory ran out.
fn put_alias(alloc: Global, text: &mut Text, file: SourceFile, line: u64) -> Result<(), Memory>
    ensures { OnOk result (text.new ≡ text.old ++ policy_code P17 ++ codes " " ++ source_path file
        ++ codes " " ++ decimal line ++ line_end) }
{
    text.append(Policy::P17.code())?;
    text.append(b" ")?;
    text.append(file.path())?;
    text.append(b" ")?;
    put_decimal(alloc, line as usize, text)?;
    text.append(b"\n")
}
