//! All that a run does before it writes.

ghost use Rattle.std.specs.Prelude.{◌≡◌, ◌≤◌, [], IfOk, None, Some, length};
ghost use Rattle.std.specs.List.{All};
ghost use Rattle.ucdshop_jobs.specs.JobWords.{IsListed, job_of};
ghost use Rattle.ucdshop_jobs.specs.Counting.{FormCounts, StepsWithoutScript, SessionCounts, StopCounts, VerdictCounts};
ghost use Rattle.ucdshop_jobs.specs.Judging.{IsMadeForJob, given_verdict, inputs_of};
ghost use Rattle.ucdshop_core.specs.Planning.{CountsRows};
ghost use Rattle.run_endings.specs.Planning.{HasPlan, IsPlanOf, OnRefused, OnlyRead, PlansAs, UnreadAs};
ghost use Rattle.run_endings.specs.Promises.{shelf_seen};
ghost use Rattle.run_endings.specs.Reading.{IsRead};
ghost use Rattle.std.specs.Option.{option_map};
ghost use Rattle.run_endings.specs.Endings.{Refuses, Sees};
ghost use Rattle.ucdshop_jobs.specs.Run.{expected_of, inputs_ending, job_verdict, judged};
ghost use Rattle.ucdshop_jobs.specs.Jobs.{needed};
ghost use Rattle.script_lines.specs.Groups.{IsWellFormed};
ghost use Rattle.ucdshop_jobs.specs.Session.{started};

use crate::making::count_data_rows;
use crate::outputs::Work;
use crate::plan::plan_of;
use edit_session::Bench;
use release_maker::Made;
use run_endings::{Plan, Stop, make_room, read_inputs};
use script_lines::{Command as ScriptCommand, Commands};
use shelf_io::Shelf;
use std::alloc::Global;
use std::sync::ledger::Ledger;
use ucd_model::{Memory, Steps};
use ucdshop_jobs::{
    Given, Inputs, Job, breaks_since, carry_out, given_of_made_release, judge_inputs, needed_paths,
};

/// Carries out the commands of a script, and makes the files that are then written, and the summary.
fn plan_inputs<L: Ledger>(
    alloc: Global,
    job: Job<'_>,
    made: &Option<Made>,
    inputs: Inputs,
    steps: &mut Steps<L>,
) -> Result<Plan, Memory>
    requires ready { All IsWellFormed inputs.commands }
    requires made { made.now ≡ job.made }
    ensures plan { IfOk result (λ plan. HasPlan
        (inputs_ending (job_of job.entry) (inputs_of inputs)) plan) }
    ensures counts { SessionCounts
        (started inputs.bench.current) inputs.commands steps.old steps.new }
    ensures steps { inputs.commands ≡ [] → steps.new ≡ steps.old }
{
    let Inputs {
        bench,
        commands,
        earlier,
    } = inputs;
    plan_owned(alloc, job, made, bench, commands, &earlier, steps)
}

/// What `plan_inputs` makes. It lets the bench and the commands go, and borrows the earlier bench.
fn plan_owned<L: Ledger>(
    alloc: Global,
    job: Job<'_>,
    made: &Option<Made>,
    bench: Bench,
    commands: Commands,
    earlier: &Option<Bench>,
    steps: &mut Steps<L>,
) -> Result<Plan, Memory>
    requires ready { All IsWellFormed commands }
    requires made { made.now ≡ job.made }
    ensures plan { IfOk result (λ plan. HasPlan
        (inputs_ending (job_of job.entry)
        (record {
          files = bench.current;
          commands = commands;
          earlier = option_map
              (λ before. before.current) earlier.now;
        })) plan) }
    ensures counts { SessionCounts (started bench.current) commands steps.old steps.new }
    ensures steps { commands ≡ [] → steps.new ≡ steps.old }
{
    let mut bench = bench;
    plan_borrowed(
        alloc,
        job,
        made,
        &mut bench,
        commands.as_slice(),
        earlier,
        steps,
    )
}

/// What `plan_inputs` makes, and it borrows all that was read.
fn plan_borrowed<L: Ledger>(
    alloc: Global,
    job: Job<'_>,
    made: &Option<Made>,
    bench: &mut Bench,
    commands: &[ScriptCommand],
    earlier: &Option<Bench>,
    steps: &mut Steps<L>,
) -> Result<Plan, Memory>
    requires ready { All IsWellFormed commands.now }
    requires made { made.now ≡ job.made }
    ensures plan { IfOk result (λ plan. HasPlan
        (inputs_ending (job_of job.entry)
        (record {
          files = bench.old.current;
          commands = commands.now;
          earlier = option_map
              (λ before. before.current) earlier.now;
        })) plan) }
    ensures counts { SessionCounts (started bench.old.current) commands.now steps.old steps.new }
    ensures steps { commands.now ≡ [] → steps.new ≡ steps.old }
{
    let rows = made_row_count(job.made, bench)?;
    let carried = carry_out(alloc, bench, commands, steps)?;
    let breaks = breaks_since(alloc, earlier, bench)?;
    let work = Work {
        made,
        bench,
        carried: &carried,
        breaks: &breaks,
    };
    plan_of(alloc, job, rows, work)
}

/// How many rows UnicodeData.txt has, if a release is made, since the summary then tells it. Otherwise 0.
fn made_row_count(made: Option<u8>, bench: &Bench) -> Result<usize, Memory>
    ensures { IfOk result (λ rows. CountsRows made rows bench.now.current) }
{
    match made {
        Some(_) => count_data_rows(bench),
        None => Ok(0),
    }
}

/// Judges what is given to a job, and does all that the job asks for but writing. The counter of steps rises by at
/// most the number of code points if no script is carried out.
///
/// - `Refused(line)`: a file, a code point or the script breaks a rule.
/// - `Memory`: memory ran out.
fn plan_given<L: Ledger>(
    alloc: Global,
    job: Job<'_>,
    given: Given,
    steps: &mut Steps<L>,
) -> Result<Plan, Stop>
    requires { IsMadeForJob given (job_of job) }
    ensures plan { PlansAs result
        (judged (job_of job.entry) (given_verdict (job_of job.entry) given)) }
    ensures counts { VerdictCounts (job_of job.entry)
        (given_verdict (job_of job.entry) given) steps.old steps.new }
    ensures stops { StopCounts result (Some (job_of job.entry)) steps.old steps.new }
    ensures steps { StepsWithoutScript (job_of job.entry) steps.old steps.new }
{
    let mut given = given;
    match judge_inputs(alloc, job, &mut given.held, steps) {
        Ok(inputs) => Ok(plan_inputs(alloc, job, &given.made, inputs, steps)?),
        Err(stop) => Err(stop),
    }
}

/// The texts that a job works on: what is read at the paths that it needs, or what it makes.
///
/// - `ReadFailed(line)`: a file could not be read.
/// - `Memory`: memory ran out.
fn texts_read_or_made<S: Shelf>(alloc: Global, job: Job<'_>, shelf: &mut S) -> Result<Given, Stop>
    requires { IsListed (job_of job) }
    ensures given { IfOk result (λ given. IsMadeForJob given (job_of job.entry)) }
    ensures verdict { IfOk result
        (λ given. Sees S.tells (S.holds shelf.old) (needed (job_of job.entry))
        (λ seen. given_verdict (job_of job.entry) given
        ≡ job_verdict (job_of job.entry) seen)) }
    ensures refused { OnRefused result (λ _. ⊥) }
    ensures unread { UnreadAs result (needed (job_of job.entry))
        (shelf_seen S.Shelf shelf.old shelf.new) }
    ensures only_read { OnlyRead (shelf_seen S.Shelf shelf.old shelf.new) }
{
    match job.made {
        Some(number) => Ok(given_of_made_release(alloc, number)?),
        None => read_texts(alloc, job, shelf),
    }
}

/// What is read at the paths that a job needs.
fn read_texts<S: Shelf>(alloc: Global, job: Job<'_>, shelf: &mut S) -> Result<Given, Stop>
    ensures read { IfOk result (λ given. IsRead S.tells (S.holds shelf.old)
        (needed (job_of job.entry)) given.held.items) }
    ensures made { IfOk result (λ given. given.made ≡ None) }
    ensures refused { OnRefused result (λ _. ⊥) }
    ensures unread { UnreadAs result (needed (job_of job.entry))
        (shelf_seen S.Shelf shelf.old shelf.new) }
    ensures only_read { OnlyRead (shelf_seen S.Shelf shelf.old shelf.new) }
{
    let paths = needed_paths(alloc, job)?;
    let held = read_inputs(alloc, shelf, paths.as_slice())?;
    Ok(Given { held, made: None })
}

/// Does all of a job that comes before the first write. The counter of steps rises by at most the number of code
/// points if no script is carried out.
///
/// - `Refused(line)`: a file is absent, too long, or breaks a rule, a code point breaks a rule of a valid release, or
///   the script is refused.
/// - `ReadFailed(line)`: a file could not be read.
/// - `Memory`: memory ran out.
pub fn prepare<S: Shelf, L: Ledger>(
    alloc: Global,
    job: Job<'_>,
    shelf: &mut S,
    steps: &mut Steps<L>,
) -> Result<Plan, Stop>
    requires { IsListed (job_of job) }
    ensures planned { IfOk result
        (λ plan. Sees S.tells (S.holds shelf.old) (needed (job_of job.entry))
        (λ seen. IsPlanOf plan (expected_of (job_of job.entry) seen))) }
    ensures room { IfOk result (λ plan. length plan.outputs.items ≤ S.spare shelf.new) }
    ensures refused { OnRefused result
        (λ line. Sees S.tells (S.holds shelf.old) (needed (job_of job.entry))
        (λ seen. expected_of (job_of job.entry) seen ≡ Refuses line)) }
    ensures unread { UnreadAs result (needed (job_of job.entry))
        (shelf_seen S.Shelf shelf.old shelf.new) }
    ensures only_read { OnlyRead (shelf_seen S.Shelf shelf.old shelf.new) }
    ensures counts { Sees S.tells (S.holds shelf.old) (needed (job_of job.entry))
        (λ seen. FormCounts (Some (job_of job.entry)) seen steps.old steps.new) }
    ensures stops { StopCounts result (Some (job_of job.entry)) steps.old steps.new }
    ensures steps { StepsWithoutScript (job_of job.entry) steps.old steps.new }
{
    let given = texts_read_or_made(alloc, job, shelf)?;
    let plan = plan_given(alloc, job, given, steps)?;
    make_room(shelf, &plan)?;
    Ok(plan)
}
