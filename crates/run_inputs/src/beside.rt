//! Judging the source files of a folder beside those of another one, which may be the same.

ghost use Rattle.std.specs.Prelude.{◌≡◌, ◌+◌, ◌<◌, ◌≤◌, ◌^◌, ℕ, true, Ok, IfOk, IsTrue};
ghost use Rattle.std.specs.Bool.{Decides};
ghost use Rattle.std.specs.Option.{option_map};
ghost use Rattle.ucd_points.specs.Limits.{point_count};
ghost use Rattle.edit_session.specs.Benches.{HasNothingPrepared};
ghost use Rattle.run_inputs.specs.Held.{StayOutside, held_at, source_held};
ghost use Rattle.run_inputs.specs.Judging.{ToldAs};
ghost use Rattle.run_inputs.specs.Refusals.{folder_verdict};
ghost use Rattle.run_inputs.specs.Verdict.{release_verdict};

use crate::held::{held_at, take_held};
use crate::judging::open_folder;
use edit_session::Bench;
use run_endings::Stop;
use std::alloc::Global;
use std::sync::ledger::Ledger;
use ucd_model::{Copied, SOURCE_FILES, Steps, Text};

/// Whether two folders, the first files of which are held at these places, hold the same source files, byte for byte. What
/// is held of neither counts as the same.
pub fn same_sources(held: &[Option<Text>], first: usize, second: usize) -> bool
    requires first { first + 9 < 2 ^ 64 }
    requires second { second + 9 < 2 ^ 64 }
    ensures { Decides result (source_held held.now second ≡ source_held held.now first) }
{
    'files: for place in 0..SOURCE_FILES.len() {
        if !is_same_text(held_at(held, second + place), held_at(held, first + place)) {
            return false;
        }
    }
    true
}

/// Whether the same bytes are held twice, or nothing is.
fn is_same_text(one: Option<&[u8]>, other: Option<&[u8]>) -> bool
    ensures { Decides result (option_map (λ bytes. bytes.now) one.entry
        ≡ option_map (λ bytes. bytes.now) other.entry) }
{
    match (one, other) {
        (Some(one), Some(other)) => one == other,
        (None, None) => true,
        _ => false,
    }
}

/// [`open_folder`] beside the bench over another folder. If the source files of both were the same, as `same_sources` tells
/// before they are judged, the bench is a copy of that one: nothing is read or derived again, the counter of steps stays, and
/// the texts of this folder are dropped.
///
/// - `Refused(line)`: a file is absent, too long, or breaks a rule, or a code point breaks a rule of a valid release.
/// - `Memory`: memory ran out.
pub fn open_beside<L: Ledger>(
    alloc: Global,
    folder: &[u8],
    held: &mut Vec<Option<Text>>,
    first: usize,
    other: &Bench,
    same: bool,
    steps: &mut Steps<L>,
) -> Result<Bench, Stop>
    requires first { first + 9 < 2 ^ 64 }
    requires same { IsTrue same → release_verdict (source_held held.old.items first)
        ≡ Ok other.now.current }
    ensures files { ToldAs (λ bench. bench.current) result
        (folder_verdict folder.now (source_held held.old.items first)) }
    ensures still { IfOk result HasNothingPrepared }
    ensures others { StayOutside first held.old.items held.new.items }
    ensures steps { steps.new ≤ steps.old + point_count }
    ensures uncounted { IsTrue same → steps.new ≡ steps.old }
{
    if same {
        other.has_nothing_prepared();
        drop_sources(held, first);
        let copy = other.copied(alloc)?;
        return Ok(copy);
    }
    open_folder(alloc, folder, held, first, steps)
}

/// Drops what is held of the source files of a folder, the first of which is held at this place.
fn drop_sources(held: &mut Vec<Option<Text>>, first: usize)
    requires { first + 9 < 2 ^ 64 }
    ensures { StayOutside first held.old.items held.new.items }
{
    'texts: for place in 0..SOURCE_FILES.len() {
        drop(take_held(held, first + place));
    }
}
