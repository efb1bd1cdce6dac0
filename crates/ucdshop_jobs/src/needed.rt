//! The paths that a job reads.

ghost use Rattle.std.specs.Prelude.{◌≡◌, ◌++◌, IfOk, OnOk, option_to_list};
ghost use Rattle.std.specs.List.{flat_map};
ghost use Rattle.std.specs.Option.{option_map};
ghost use Rattle.run_inputs.specs.Paths.{sources_in};
ghost use Rattle.ucdshop_jobs.specs.JobWords.{job_of, path_at};
ghost use Rattle.ucdshop_jobs.specs.Jobs.{needed};

use crate::job::{Job, ScriptPlace};
use run_inputs::put_source_paths;
use std::alloc::Global;
use ucd_model::{Memory, Texts};

/// The paths that a job reads, in their order: none if its release is made.
///
/// - `Memory`: memory ran out.
pub fn needed_paths(alloc: Global, job: Job<'_>) -> Result<Texts, Memory>
    ensures { IfOk result (λ paths. paths ≡ needed (job_of job.entry)) }
{
    let mut paths = Texts::new(alloc);
    if job.made.is_none() {
        put_source_paths(alloc, job.folder, &mut paths)?;
        put_script_path(alloc, job.script, &mut paths)?;
        put_earlier_paths(alloc, job.previous, &mut paths)?;
    }
    Ok(paths)
}

/// Puts the path of the script, if there is one.
fn put_script_path(
    alloc: Global,
    script: Option<ScriptPlace<'_>>,
    into: &mut Texts,
) -> Result<(), Memory>
    ensures { OnOk result (into.new ≡ into.old
        ++ option_to_list (option_map path_at script.entry)) }
{
    if let Some(script) = script {
        into.push(script.path(alloc)?)?;
    }
    Ok(())
}

/// Puts the paths of the source files of the earlier release, if there is one.
fn put_earlier_paths(alloc: Global, previous: Option<&[u8]>, into: &mut Texts) -> Result<(), Memory>
    ensures { OnOk result (into.new ≡ into.old
        ++ flat_map sources_in
        (option_to_list (option_map (λ folder. folder.now) previous.entry))) }
{
    if let Some(folder) = previous {
        put_source_paths(alloc, folder, into)?;
    }
    Ok(())
}
