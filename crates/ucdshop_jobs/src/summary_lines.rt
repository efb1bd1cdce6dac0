//! The lines that a run prints.

ghost use Rattle.std.specs.Prelude.{◌≡◌, ◌++◌, IfOk, OnOk};
ghost use Rattle.ucdshop_jobs.specs.Printed.{summary, made_release, made_summary};
ghost use Rattle.std.specs.Fmt.{decimal};

use std::alloc::Global;
use ucd_lines::put_decimal;
use ucd_model::{Memory, Text};

/// What a run counts for its summary.
#[derive(Clone, Copy, Debug, PartialEq, Eq)]
pub struct RunCounts {
    /// How many groups were accepted.
    pub accepted: usize,
    /// How many commands were refused.
    pub refused: usize,
    /// How many sets were answered.
    pub answered: usize,
    /// How many breaks of policies there are.
    pub broken: usize,
}

/// The line of a run that wrote all files.
///
/// - `Memory`: memory ran out.
pub fn summary(alloc: Global, counts: RunCounts) -> Result<Text, Memory>
    ensures { IfOk result (λ text. text
        ≡ summary (record {
          accepted = counts.accepted;
          refused = counts.refused;
          answered = counts.answered;
          broken = counts.broken;
        })) }
{
    let mut text = Text::new(alloc);
    text.append(b"ucdshop: ")?;
    put_count(alloc, &mut text, counts.accepted, b" groups accepted, ")?;
    put_count(alloc, &mut text, counts.refused, b" commands refused, ")?;
    put_count(alloc, &mut text, counts.answered, b" sets answered, ")?;
    put_count(alloc, &mut text, counts.broken, b" policy breaks\n")?;
    Ok(text)
}

/// What a run counts for the summary of `make`.
#[derive(Clone, Copy, PartialEq, Eq)]
pub struct MadeCounts {
    /// The number that the release is made of.
    pub number: u8,
    /// How many rows its UnicodeData.txt has.
    pub rows: usize,
    /// How many groups were accepted.
    pub accepted: usize,
    /// How many records each of them changed, added up.
    pub changed: usize,
    /// How many code points have an NFKC_Casefold of their own afterwards.
    pub casefolds: usize,
}

/// The line of a run of `make` that wrote all files.
///
/// - `Memory`: memory ran out.
pub fn made_summary(alloc: Global, counts: MadeCounts) -> Result<Text, Memory>
    ensures { IfOk result (λ text. text
        ≡ made_summary (record {
          number = counts.number;
          rows = counts.rows;
          accepted = counts.accepted;
          changed = counts.changed;
          casefolds = counts.casefolds;
        })) }
{
    let mut text = Text::new(alloc);
    put_made(alloc, &mut text, counts.number, counts.rows)?;
    put_count(alloc, &mut text, counts.accepted, b" groups accepted, ")?;
    put_count(alloc, &mut text, counts.changed, b" code points changed, ")?;
    put_count(alloc, &mut text, counts.casefolds, b" casefold entries\n")?;
    Ok(text)
}

/// Puts what the summary of `make` says of the release that is made.
#[tactic(auto, unfolding(crate::specs::Printed::made_release))]
fn put_made(alloc: Global, text: &mut Text, number: u8, rows: usize) -> Result<(), Memory>
    ensures { OnOk result (text.new ≡ text.old ++ made_release number rows) }
{
    text.append(b"ucdshop: make ")?;
    put_count(alloc, text, number as usize, b": ")?;
    put_count(alloc, text, rows, b" rows, ")?;
    Ok(())
}

/// Puts a number and what it counts.
fn put_count(alloc: Global, text: &mut Text, count: usize, what: &[u8]) -> Result<(), Memory>
    ensures { OnOk result (text.new ≡ text.old ++ decimal count ++ what.now) }
{
    put_decimal(alloc, count, text)?;
    text.append(what)
}
