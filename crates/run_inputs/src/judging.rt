//! Judging the source files of a folder.

ghost use Rattle.std.specs.Prelude.{◌≡◌, ◌≢◌, ℕ, ◌+◌, ◌<◌, ◌≤◌, ◌^◌, [], IfOk};
ghost use Rattle.ucd_points.specs.Limits.{point_count};
ghost use Rattle.ucd_points.specs.SourceFiles.{file_place};
ghost use Rattle.release_rows.specs.Releases.{items_now};
ghost use Rattle.edit_session.specs.Benches.{HasNothingPrepared};
ghost use Rattle.run_inputs.specs.Held.{StayOutside, held_at, source_held};
ghost use Rattle.run_inputs.specs.Judging.{BreaksBy, FaultyBy, JudgedAs, LoadsFile, TellsFolder, ToldAs};
ghost use Rattle.run_inputs.specs.Refusals.{folder_verdict};
ghost use Rattle.run_inputs.specs.Verdict.{file_verdict, files_verdict, release_verdict};

use crate::held::take_held;
use crate::refusal::{FolderRefusal, FolderStop};
use crate::refusing::folder_line;
use edit_session::{Bench, OpenStop};
use release_rows::{LoadStop, Release};
use run_endings::Stop;
use std::alloc::Global;
use std::sync::ledger::Ledger;
use ucd_model::{Broken, SOURCE_FILES, SourceFile, Steps, Text};

/// The release of the source files of a folder, the first of which is held at this place. Their texts move into the release.
///
/// - `Refused(refusal)`: a file is absent, too long, or breaks a rule; the first such file is refused.
/// - `Memory`: memory ran out.
fn load_sources(
    alloc: Global,
    held: &mut Vec<Option<Text>>,
    first: usize,
) -> Result<Release, FolderStop>
    requires { first + 9 < 2 ^ 64 }
    ensures files { JudgedAs (λ release. release.current) result
        (files_verdict (source_held held.old.items first)) }
    ensures still { IfOk result HasNothingPrepared }
    ensures others { StayOutside first held.old.items held.new.items }
{
    let mut release = Release::empty(alloc);
    'files: for at in 0..SOURCE_FILES.len() {
        let file = SOURCE_FILES[at];
        load_held(&mut release, held, first, file)?;
    }
    Ok(release)
}

/// Loads one file of what is held. Its text moves into the release.
#[tactic(auto, unfolding(crate::specs::Verdict::file_verdict))]
fn load_held(
    release: &mut Release,
    held: &mut Vec<Option<Text>>,
    first: usize,
    file: SourceFile,
) -> Result<(), FolderStop>
    requires room { first + 9 < 2 ^ 64 }
    requires empty { items_now release.old file ≡ [] }
    ensures loads { LoadsFile result
        (file_verdict file (source_held held.old.items first file)) file release.old
        release.new }
    ensures others { (at : ℕ) → at ≢ first + file_place file
        → held_at held.new.items at ≡ held_at held.old.items at }
{
    let Some(text) = take_held(held, first + file.place()) else {
        return Err(FolderStop::Refused(FolderRefusal::NoFile(file)));
    };
    match release.load_text(file, text) {
        Ok(()) => Ok(()),
        Err(stop) => Err(file_stop(file, stop)),
    }
}

/// Why a file that does not load is refused.
fn file_stop(file: SourceFile, stop: LoadStop) -> FolderStop
    ensures { FaultyBy file result stop }
{
    match stop {
        LoadStop::Fault { line, rule } => {
            FolderStop::Refused(FolderRefusal::FileLine { file, line, rule })
        }
        LoadStop::Memory => FolderStop::Memory,
    }
}

/// The bench over the source files of a folder, the first of which is held at this place. Their texts move into it. The counter
/// of steps rises by at most the number of code points.
///
/// - `Refused(refusal)`: a file is absent, too long, or breaks a rule, or a code point breaks a rule of a valid release.
/// - `Memory`: memory ran out.
pub fn judge_folder<L: Ledger>(
    alloc: Global,
    held: &mut Vec<Option<Text>>,
    first: usize,
    steps: &mut Steps<L>,
) -> Result<Bench, FolderStop>
    requires { first + 9 < 2 ^ 64 }
    ensures files { JudgedAs (λ bench. bench.current) result
        (release_verdict (source_held held.old.items first)) }
    ensures still { IfOk result HasNothingPrepared }
    ensures others { StayOutside first held.old.items held.new.items }
    ensures steps { steps.new ≤ steps.old + point_count }
{
    let release = load_sources(alloc, held, first)?;
    match Bench::open(alloc, release, steps) {
        Ok(bench) => Ok(bench),
        Err(stop) => Err(opening_stop(stop)),
    }
}

/// Why a release has no bench.
fn opening_stop(stop: OpenStop) -> FolderStop
    ensures { BreaksBy result stop }
{
    match stop {
        OpenStop::Invalid { rule, point } => {
            FolderStop::Refused(FolderRefusal::Point(Broken { point, rule }))
        }
        OpenStop::Memory => FolderStop::Memory,
    }
}

/// [`judge_folder`] of a folder at this path, with the line of its refusal.
///
/// - `Refused(line)`: a file is absent, too long, or breaks a rule, or a code point breaks a rule of a valid release.
/// - `Memory`: memory ran out.
pub fn open_folder<L: Ledger>(
    alloc: Global,
    folder: &[u8],
    held: &mut Vec<Option<Text>>,
    first: usize,
    steps: &mut Steps<L>,
) -> Result<Bench, Stop>
    requires { first + 9 < 2 ^ 64 }
    ensures files { ToldAs (λ bench. bench.current) result
        (folder_verdict folder.now (source_held held.old.items first)) }
    ensures still { IfOk result HasNothingPrepared }
    ensures others { StayOutside first held.old.items held.new.items }
    ensures steps { steps.new ≤ steps.old + point_count }
{
    match judge_folder(alloc, held, first, steps) {
        Ok(bench) => Ok(bench),
        Err(stop) => Err(folder_stop(alloc, folder, stop)),
    }
}

/// Why a folder has no bench, with the line that is then printed.
fn folder_stop(alloc: Global, folder: &[u8], stop: FolderStop) -> Stop
    ensures { TellsFolder folder.now result stop }
{
    let FolderStop::Refused(refusal) = stop else {
        return Stop::Memory;
    };
    match folder_line(alloc, folder, refusal) {
        Ok(line) => Stop::Refused(line),
        Err(_) => Stop::Memory,
    }
}
