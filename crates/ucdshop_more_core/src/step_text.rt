//! The text of a step from a release to the next.

ghost use Rattle.std.specs.Prelude.{◌≡◌, ◌++◌, OnOk, codes};
ghost use Rattle.std.specs.Fmt.{decimal};
ghost use Rattle.ucd_model.specs.DerivedText.{line_end};
ghost use Rattle.ucdshop_more_core.specs.Steps.{step_text};

use stability_policies::{Breaks, report_text};
use std::alloc::Global;
use ucd_lines::put_decimal;
use ucd_model::{Memory, Text};

/// Puts the text of the step to the release with this number, which has these breaks: `# step K`, and its policy report.
///
/// - `Memory`: memory ran out. A part of it may then stand at the end of the text.
pub fn put_step(alloc: Global, number: u32, breaks: &Breaks, text: &mut Text) -> Result<(), Memory>
    ensures { OnOk result (text.new ≡ text.old ++ step_text number breaks.now) }
{
    put_head(alloc, number, text)?;
    text.append(report_text(alloc, breaks)?.as_slice())
}

/// Puts `# step K`.
fn put_head(alloc: Global, number: u32, text: &mut Text) -> Result<(), Memory>
    ensures { OnOk result (text.new ≡ text.old ++ codes "# step " ++ decimal number ++ line_end) }
{
    text.append(b"# step ")?;
    put_decimal(alloc, number as usize, text)?;
    text.append(b"\n")
}
