//! What a run writes and tells, made before anything is written.

ghost use Rattle.std.specs.Prelude.{◌≡◌, ◌||◌, IfOk, length, nat_lt};
ghost use Rattle.ucdshop_jobs.specs.Carrying.{session_of};
ghost use Rattle.ucdshop_jobs.specs.JobWords.{job_of};
ghost use Rattle.run_endings.specs.Planning.{HasPlan};
ghost use Rattle.ucdshop_jobs.specs.Run.{ending_of, summary_of};

use crate::making::count_casefolds;
use crate::outputs::{Work, outputs_of};
use run_endings::Plan;
use stability_policies::Breaks;
use std::alloc::Global;
use ucd_model::{Memory, Text};
use ucdshop_jobs::{Carried, Job, MadeCounts, RunCounts, made_summary, summary};

/// The files that a job writes, and its summary. At the beginning UnicodeData.txt had so many rows.
///
/// - `Memory`: memory ran out.
pub fn plan_of(alloc: Global, job: Job<'_>, rows: usize, work: Work<'_>) -> Result<Plan, Memory>
    requires { work.made.now ≡ job.made }
    ensures { IfOk result (λ plan. HasPlan
        (ending_of (job_of job.entry) rows
        (session_of work.entry.bench.now work.entry.carried.now) work.entry.breaks.now)
        plan) }
{
    let outputs = outputs_of(alloc, job, work)?;
    let summary = summary_of(alloc, job.made, rows, work)?;
    Ok(Plan {
        outputs,
        summary,
        done: has_refusal_or_break(work.carried, work.breaks),
    })
}

/// Whether a command was refused or a policy is broken.
fn has_refusal_or_break(carried: &Carried, breaks: &Breaks) -> bool
    ensures { result ≡ (nat_lt 0 carried.now.refused || nat_lt 0 (length breaks.now)) }
{
    carried.refused > 0 || breaks.len() > 0
}

/// The summary of a job: that of the release that is made of a number, or of any other.
fn summary_of(alloc: Global, made: Option<u8>, rows: usize, work: Work<'_>) -> Result<Text, Memory>
    ensures { IfOk result (λ line. line
        ≡ summary_of made rows
        (session_of work.entry.bench.now work.entry.carried.now) work.entry.breaks.now) }
{
    let carried = work.carried;
    if let Some(number) = made {
        let counts = MadeCounts {
            number,
            rows,
            accepted: carried.accepted,
            changed: carried.changed,
            casefolds: count_casefolds(work.bench),
        };
        return made_summary(alloc, counts);
    }
    let counts = RunCounts {
        accepted: carried.accepted,
        refused: carried.refused,
        answered: carried.answered,
        broken: work.breaks.len(),
    };
    summary(alloc, counts)
}
