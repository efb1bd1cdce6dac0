//! The files that a run writes, made before the first is written.

ghost use Rattle.std.specs.Prelude.{◌≡◌, ℕ, ◌∷◌, ◌++◌, [], IfOk, OnOk, map};
ghost use Rattle.ucd_points.specs.SourceFiles.{source_files};
ghost use Rattle.ucdshop_jobs.specs.Carrying.{session_of};
ghost use Rattle.ucdshop_jobs.specs.JobWords.{job_of};
ghost use Rattle.run_endings.specs.Planning.{HaveLines, Puts};
ghost use Rattle.run_endings.specs.Printed.{write_failed};
ghost use Rattle.ucdshop_jobs.specs.Run.{log_file, made_file, made_files, made_script, new_files, part_files, policy_file, sets_file};
ghost use Rattle.run_endings.specs.Writing.{file_of, files_of};

use edit_session::Bench;
use release_maker::Made;
use run_endings::{Output, path_in, put_text};
use run_inputs::{put_derived, put_sources};
use stability_policies::{Breaks, report_text};
use std::alloc::Global;
use ucd_model::{Memory, SOURCE_FILES, SourceFile, Text};
use ucdshop_jobs::{Carried, Job, Part};

/// What the outputs of a run are made of.
#[derive(Clone, Copy)]
pub struct Work<'a> {
    /// The release that was made, and its script.
    pub made: &'a Option<Made>,
    /// The bench, once the commands of the script are carried out.
    pub bench: &'a Bench,
    /// What these came to.
    pub carried: &'a Carried,
    /// The breaks of the stability policies.
    pub breaks: &'a Breaks,
}

/// The files that a job writes, each with the line for the case that it can't be written.
///
/// - `Memory`: memory ran out.
pub fn outputs_of(alloc: Global, job: Job<'_>, work: Work<'_>) -> Result<Vec<Output>, Memory>
    requires { work.made.now ≡ job.made }
    ensures files { IfOk result (λ outputs. files_of outputs.items
        ≡ new_files (job_of job.entry)
        (session_of work.entry.bench.now work.entry.carried.now) work.entry.breaks.now) }
    ensures lines { IfOk result (λ outputs. HaveLines outputs.items) }
{
    let mut outputs = Vec::new(alloc);
    'parts: for part in job.parts {
        put_part(alloc, job, work, *part, &mut outputs)?;
    }
    Ok(outputs)
}

/// Puts a part of what a job writes.
fn put_part(
    alloc: Global,
    job: Job<'_>,
    work: Work<'_>,
    part: Part,
    outputs: &mut Vec<Output>,
) -> Result<(), Memory>
    requires { work.made.now ≡ job.made }
    ensures { OnOk result (Puts (part_files (job_of job.entry)
        (session_of work.entry.bench.now work.entry.carried.now) work.entry.breaks.now part)
        outputs.old.items outputs.new.items) }
{
    let folder = job.output;
    match part {
        Part::Sources => put_sources(alloc, folder, work.bench, outputs),
        Part::Derived => put_derived(alloc, folder, work.bench, outputs),
        Part::Log => put_log(alloc, folder, work.carried, outputs),
        Part::Sets => put_sets(alloc, folder, work.carried, outputs),
        Part::Report => put_report(alloc, folder, work.breaks, outputs),
        Part::Made => put_if_made(alloc, folder, work.made, outputs),
    }
}

/// Puts the policy report of these breaks below a folder.
fn put_report(
    alloc: Global,
    folder: &[u8],
    breaks: &Breaks,
    outputs: &mut Vec<Output>,
) -> Result<(), Memory>
    ensures { OnOk result (Puts (policy_file folder.now breaks.now ∷ []) outputs.old.items
        outputs.new.items) }
{
    let path = path_in(alloc, folder, b"policy.txt")?;
    let bytes = report_text(alloc, breaks)?;
    let output = Output::of(alloc, path, bytes)?;
    outputs.push(output)?;
    Ok(())
}

/// Puts the source files and the script as they are made below a folder, if they are.
fn put_if_made(
    alloc: Global,
    folder: &[u8],
    made: &Option<Made>,
    outputs: &mut Vec<Output>,
) -> Result<(), Memory>
    ensures { OnOk result (Puts (made_files folder.now made.now) outputs.old.items
        outputs.new.items) }
{
    match made {
        Some(made) => put_made(alloc, folder, made, outputs),
        None => Ok(()),
    }
}

/// Puts a release that is made, and its script, below a folder.
fn put_made(
    alloc: Global,
    folder: &[u8],
    made: &Made,
    outputs: &mut Vec<Output>,
) -> Result<(), Memory>
    ensures { OnOk result (Puts
        (map (made_file folder.now made.now) source_files ++ made_script folder.now ∷ [])
        outputs.old.items outputs.new.items) }
{
    put_made_files(alloc, folder, made, outputs)?;
    put_made_script(alloc, folder, made, outputs)?;
    Ok(())
}

/// Puts the source files of a release that is made below a folder.
fn put_made_files(
    alloc: Global,
    folder: &[u8],
    made: &Made,
    outputs: &mut Vec<Output>,
) -> Result<(), Memory>
    ensures { OnOk result (Puts (map (made_file folder.now made.now) source_files) outputs.old.items
        outputs.new.items) }
{
    'files: for file in &SOURCE_FILES {
        let output = made_output(alloc, folder, made, *file)?;
        outputs.push(output)?;
    }
    Ok(())
}

/// A source file of a release that is made below a folder.
#[tactic(auto, unfolding(ucdshop_jobs::specs::Run::made_text))]
fn made_output(
    alloc: Global,
    folder: &[u8],
    made: &Made,
    file: SourceFile,
) -> Result<Output, Memory>
    ensures file { IfOk result (λ output. file_of output ≡ made_file folder.now made.now file) }
    ensures line { IfOk result (λ output. output.fault_line ≡ write_failed output.path) }
{
    let path = path_in(alloc, folder, file.path())?;
    let bytes = Text::of(alloc, made.text(file))?;
    Output::of(alloc, path, bytes)
}

/// Puts the script that is made below a folder.
fn put_made_script(
    alloc: Global,
    folder: &[u8],
    made: &Made,
    outputs: &mut Vec<Output>,
) -> Result<(), Memory>
    ensures { OnOk result (Puts (made_script folder.now ∷ []) outputs.old.items outputs.new.items) }
{
    put_text(alloc, folder, b"script.txt", made.script(), outputs)
}

/// Puts the log below a folder.
fn put_log(
    alloc: Global,
    folder: &[u8],
    carried: &Carried,
    outputs: &mut Vec<Output>,
) -> Result<(), Memory>
    ensures { OnOk result (Puts (log_file folder.now carried.now.log ∷ []) outputs.old.items
        outputs.new.items) }
{
    put_text(alloc, folder, b"bench.log", carried.log.as_slice(), outputs)
}

/// Puts the answers to the questions below a folder.
fn put_sets(
    alloc: Global,
    folder: &[u8],
    carried: &Carried,
    outputs: &mut Vec<Output>,
) -> Result<(), Memory>
    ensures { OnOk result (Puts (sets_file folder.now carried.now.sets ∷ []) outputs.old.items
        outputs.new.items) }
{
    put_text(alloc, folder, b"sets.txt", carried.sets.as_slice(), outputs)
}
