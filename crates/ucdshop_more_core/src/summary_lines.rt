//! The lines that a run prints.

ghost use Rattle.std.specs.Prelude.{◌≡◌, IfOk};
ghost use Rattle.ucdshop_more_core.specs.Printed.{ages_summary, conform_summary, desk_summary, undo_summary};

use std::alloc::Global;
use ucd_lines::put_decimal;
use ucd_model::{Memory, Text};

/// The line for words that have no listed form.
pub const USAGE: &[u8] =
    b"usage: ucdshop_more desk DATA EVENTS OUT | undo DATA SCRIPT OUT DEPTH | conform DATA TESTS OUT | ages OUT DATA1 .. DATAn\n";

/// The line of a run of `desk` that wrote all files.
///
/// - `Memory`: memory ran out.
pub fn desk_summary(alloc: Global, accepted: usize, refused: usize) -> Result<Text, Memory>
    ensures { IfOk result (λ text. text ≡ desk_summary accepted refused) }
{
    let mut text = Text::new(alloc);
    text.append(b"desk: ")?;
    put_decimal(alloc, accepted, &mut text)?;
    text.append(b" accepted, ")?;
    put_decimal(alloc, refused, &mut text)?;
    text.append(b" refused\n")?;
    Ok(text)
}

/// The line of a run of `undo` that wrote all files.
///
/// - `Memory`: memory ran out.
pub fn undo_summary(alloc: Global, accepted: usize, undone: usize) -> Result<Text, Memory>
    ensures { IfOk result (λ text. text ≡ undo_summary accepted undone) }
{
    let mut text = Text::new(alloc);
    text.append(b"undo: ")?;
    put_decimal(alloc, accepted, &mut text)?;
    text.append(b" accepted, ")?;
    put_decimal(alloc, undone, &mut text)?;
    text.append(b" undone\n")?;
    Ok(text)
}

/// The line of a run of `conform` that wrote its file.
///
/// - `Memory`: memory ran out.
pub fn conform_summary(alloc: Global, cases: usize, misses: usize) -> Result<Text, Memory>
    ensures { IfOk result (λ text. text ≡ conform_summary cases misses) }
{
    let mut text = Text::new(alloc);
    text.append(b"conform: ")?;
    put_decimal(alloc, cases, &mut text)?;
    text.append(b" cases, ")?;
    put_decimal(alloc, misses, &mut text)?;
    text.append(b" misses\n")?;
    Ok(text)
}

/// What a run of `ages` counts for its summary.
#[derive(Clone, Copy, PartialEq, Eq)]
pub struct AgeCounts {
    /// How many releases there are.
    pub releases: usize,
    /// How many code points have an age.
    pub points: usize,
    /// How many breaks of policies all steps have.
    pub breaks: usize,
}

/// The line of a run of `ages` that wrote all files.
///
/// - `Memory`: memory ran out.
pub fn ages_summary(alloc: Global, counts: AgeCounts) -> Result<Text, Memory>
    ensures { IfOk result (λ text. text
        ≡ ages_summary (record
        { releases = counts.releases; points = counts.points; breaks = counts.breaks })) }
{
    let mut text = Text::new(alloc);
    text.append(b"ages: ")?;
    put_decimal(alloc, counts.releases, &mut text)?;
    text.append(b" releases, ")?;
    put_decimal(alloc, counts.points, &mut text)?;
    text.append(b" code points, ")?;
    put_decimal(alloc, counts.breaks, &mut text)?;
    text.append(b" breaks\n")?;
    Ok(text)
}
