//! What `desk` writes and tells, made before its first file is written.

ghost use Rattle.std.specs.Prelude.{◌≡◌, ◌∷◌, [], ◌+◌, ◌≤◌, IfOk, OnOk, length};
ghost use Rattle.bench_editors.specs.Desks.{DeskState};
ghost use Rattle.bench_editors.specs.Standing.{StandsFor, desk_revision};
ghost use Rattle.run_endings.specs.Planning.{HasPlan, Puts};
ghost use Rattle.ucdshop_more_core.specs.Run.{desk_ending, desk_ending_by, desk_ending_from, desk_log_file};
ghost use Rattle.ucdshop_more_core.specs.Sessions.{AreFew, AreWellFormed, session_of};
ghost use Rattle.ucdshop_more_core.specs.Turns.{request_turns};

use crate::desk_log::DeskLog;
use crate::desk_session::hold_session;
use crate::requests::{Request, Requests};
use crate::sitting::Sitting;
use crate::summary_lines::desk_summary;
use bench_editors::Desk;
use edit_session::Bench;
use run_endings::{Output, Plan, put_text};
use run_inputs::put_sources;
use std::alloc::Global;
use std::sync::ledger::Ledger;
use ucd_model::{Memory, Steps};

/// The files that `desk` writes below a folder, and its summary.
///
/// - `Memory`: memory ran out.
pub fn desk_plan<L: Ledger>(
    alloc: Global,
    output: &[u8],
    sitting: Sitting,
    steps: &mut Steps<L>,
) -> Result<Plan, Memory>
    requires ready { AreWellFormed sitting.requests }
    requires few { AreFew sitting.requests }
    ensures { IfOk result (HasPlan (desk_ending output.now (session_of sitting))) }
{
    let Sitting { bench, requests } = sitting;
    let mut desk = Desk::new(alloc, bench);
    plan_of_requests(alloc, output, &mut desk, requests.as_slice(), steps)
}

/// The files that `desk` writes below a folder, and its summary, for these requests at this desk.
///
/// - `Memory`: memory ran out.
fn plan_of_requests<L: Ledger>(
    alloc: Global,
    output: &[u8],
    desk: &mut Desk,
    requests: &[Request],
    steps: &mut Steps<L>,
) -> Result<Plan, Memory>
    requires ready { AreWellFormed requests.now }
    requires room { desk_revision desk.old + length requests.now ≤ 4294967295 }
    ensures { IfOk result (λ plan. (s : DeskState) → StandsFor desk.old s
        → HasPlan (desk_ending_from output.now s (request_turns requests.now)) plan) }
{
    let log = hold_session(alloc, desk, requests, steps)?;
    plan_of_log(alloc, output, desk.bench(), &log)
}

/// The files that `desk` writes below a folder, and its summary, by the bench as the requests leave it, and the log.
///
/// - `Memory`: memory ran out.
fn plan_of_log(alloc: Global, output: &[u8], bench: &Bench, log: &DeskLog) -> Result<Plan, Memory>
    ensures { IfOk result (HasPlan
        (desk_ending_by output.now bench.now.current log.now.text log.now.accepted
        log.now.refused)) }
{
    let mut outputs = Vec::new(alloc);
    put_sources(alloc, output, bench, &mut outputs)?;
    put_log(alloc, output, log, &mut outputs)?;
    let summary = desk_summary(alloc, log.accepted, log.refused)?;
    Ok(Plan {
        outputs,
        summary,
        done: log.refused > 0,
    })
}

/// Puts the log below a folder.
fn put_log(
    alloc: Global,
    folder: &[u8],
    log: &DeskLog,
    outputs: &mut Vec<Output>,
) -> Result<(), Memory>
    ensures { OnOk result (Puts (desk_log_file folder.now log.now.text ∷ []) outputs.old.items
        outputs.new.items) }
{
    put_text(alloc, folder, b"desk.log", log.text.as_slice(), outputs)
}
