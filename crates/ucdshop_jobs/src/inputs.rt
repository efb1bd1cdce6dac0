//! What the texts that a run works on give.

ghost use Rattle.std.specs.Prelude.{◌≡◌, ◌+◌, ◌≤◌, Ok, IfOk, IsTrue};
ghost use Rattle.std.specs.Option.{option_map};
ghost use Rattle.std.specs.List.{All};
ghost use Rattle.ucd_points.specs.Limits.{point_count};
ghost use Rattle.run_inputs.specs.Held.{held_at, source_held};
ghost use Rattle.run_inputs.specs.Judging.{ToldAs};
ghost use Rattle.run_inputs.specs.Verdict.{release_verdict};
ghost use Rattle.ucdshop_jobs.specs.JobWords.{job_of};
ghost use Rattle.ucdshop_jobs.specs.Counting.{opened_limit};
ghost use Rattle.ucdshop_jobs.specs.Judging.{behind_verdict, earlier_inputs, inputs_of};
ghost use Rattle.ucdshop_jobs.specs.Run.{commands_verdict, earlier_place, earlier_verdict, inputs_verdict};
ghost use Rattle.script_lines.specs.Groups.{IsWellFormed};

use crate::job::Job;
use edit_session::Bench;
use run_endings::Stop;
use run_inputs::{held_at, open_beside, open_folder, read_script, same_sources};
use script_lines::Commands;
use std::alloc::Global;
use std::sync::ledger::Ledger;
use ucd_model::{SOURCE_FILES, Steps, Text};

/// What the texts that a run works on give.
#[derive(Drop)]
pub struct Inputs {
    /// The bench over the source files.
    pub bench: Bench,
    /// The commands of the script; none if there is no script.
    pub commands: Commands,
    /// The bench over the source files of the earlier release, if there is one.
    pub earlier: Option<Bench>,
}

/// Judges what a job is given: the source files, the script after them, and the source files of the earlier release after
/// that. Texts of source files move into the benches, or are dropped if the earlier release is the release itself. The counter of
/// steps rises by at most the number of code points for each release that the job names.
///
/// - `Refused(line)`: the first of these is refused: a source file, a code point, the script, a source file of the earlier
///   release, a code point of it.
/// - `Memory`: memory ran out.
#[tactic(auto, using(crate::specs::CountingLemmas::one_release))]
pub fn judge_inputs<L: Ledger>(
    alloc: Global,
    job: Job<'_>,
    held: &mut Vec<Option<Text>>,
    steps: &mut Steps<L>,
) -> Result<Inputs, Stop>
    ensures inputs { ToldAs inputs_of result (inputs_verdict (job_of job.entry) held.old.items) }
    ensures commands { IfOk result (λ inputs. All IsWellFormed inputs.commands) }
    ensures steps { steps.new ≤ steps.old + opened_limit (job_of job.entry) }
{
    let same = is_same_release(job, held.as_slice());
    let bench = open_folder(alloc, job.folder, held, 0, steps)?;
    judge_script_and_earlier(alloc, job, held, bench, same, steps)
}

/// Whether there is an earlier release, and its source files are those of the release, byte for byte.
fn is_same_release(job: Job<'_>, held: &[Option<Text>]) -> bool
    ensures { IsTrue result → source_held held.now (earlier_place (job_of job.entry))
        ≡ source_held held.now 0 }
{
    job.previous.is_some() && same_sources(held, 0, job.earlier_place())
}

/// Judges what is held behind the release, which this bench is over. `same` says that the earlier release is that release.
#[tactic(auto, using(crate::specs::CountingLemmas::one_release))]
fn judge_script_and_earlier<L: Ledger>(
    alloc: Global,
    job: Job<'_>,
    held: &mut Vec<Option<Text>>,
    bench: Bench,
    same: bool,
    steps: &mut Steps<L>,
) -> Result<Inputs, Stop>
    requires same { IsTrue same → release_verdict
        (source_held held.old.items (earlier_place (job_of job))) ≡ Ok bench.current }
    ensures inputs { ToldAs inputs_of result
        (behind_verdict (job_of job.entry) held.old.items bench.current) }
    ensures commands { IfOk result (λ inputs. All IsWellFormed inputs.commands) }
    ensures steps { steps.new + point_count ≤ steps.old + opened_limit (job_of job.entry) }
{
    match judge_commands(alloc, job, held.as_slice()) {
        Ok(commands) => with_earlier(alloc, job, held, bench, same, commands, steps),
        Err(stop) => Err(stop),
    }
}

/// Judges what is held of the earlier release, and joins it with the bench and the commands.
#[tactic(auto, using(crate::specs::CountingLemmas::one_release))]
fn with_earlier<L: Ledger>(
    alloc: Global,
    job: Job<'_>,
    held: &mut Vec<Option<Text>>,
    bench: Bench,
    same: bool,
    commands: Commands,
    steps: &mut Steps<L>,
) -> Result<Inputs, Stop>
    requires same { IsTrue same → release_verdict
        (source_held held.old.items (earlier_place (job_of job))) ≡ Ok bench.current }
    requires commands { All IsWellFormed commands }
    ensures inputs { ToldAs inputs_of result
        (earlier_inputs (job_of job.entry) held.old.items bench.current commands) }
    ensures commands { IfOk result (λ inputs. All IsWellFormed inputs.commands) }
    ensures steps { steps.new + point_count ≤ steps.old + opened_limit (job_of job.entry) }
{
    match judge_earlier(alloc, job, held, &bench, same, steps) {
        Ok(earlier) => Ok(Inputs {
            bench,
            commands,
            earlier,
        }),
        Err(stop) => Err(stop),
    }
}

/// Judges what is held of the earlier release. If it is the release that this bench is over, its bench is a copy.
fn judge_earlier<L: Ledger>(
    alloc: Global,
    job: Job<'_>,
    held: &mut Vec<Option<Text>>,
    bench: &Bench,
    same: bool,
    steps: &mut Steps<L>,
) -> Result<Option<Bench>, Stop>
    requires same { IsTrue same → release_verdict
        (source_held held.old.items (earlier_place (job_of job))) ≡ Ok bench.now.current }
    ensures earlier { ToldAs (λ earlier. option_map (λ bench. bench.current) earlier) result
        (earlier_verdict (job_of job.entry).previous
        (source_held held.old.items (earlier_place (job_of job.entry)))) }
    ensures steps { steps.new + point_count ≤ steps.old + opened_limit (job_of job.entry) }
{
    match job.previous {
        Some(folder) => {
            let place = job.earlier_place();
            let earlier = open_beside(alloc, folder, held, place, bench, same, steps)?;
            Ok(Some(earlier))
        }
        None => Ok(None),
    }
}

/// Judges what is held of the script.
fn judge_commands(alloc: Global, job: Job<'_>, held: &[Option<Text>]) -> Result<Commands, Stop>
    ensures script { ToldAs (λ commands. commands) result
        (commands_verdict (job_of job.entry).script (held_at held.now 9)) }
    ensures commands { IfOk result (All IsWellFormed) }
{
    match job.script {
        Some(script) => {
            let path = script.path(alloc)?;
            read_script(alloc, path.as_slice(), held_at(held, SOURCE_FILES.len()))
        }
        None => Ok(Commands::new(alloc)),
    }
}
