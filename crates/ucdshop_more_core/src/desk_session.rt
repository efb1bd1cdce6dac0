//! A session at a desk: requests, handled one after the other.

ghost use Rattle.std.specs.Prelude.{◌≡◌, ◌+◌, ◌<◌, ◌≤◌, IfOk, OnOk, length};
ghost use Rattle.std.specs.List.{All};
ghost use Rattle.bench_editors.specs.Desks.{DeskState, answer};
ghost use Rattle.bench_editors.specs.Standing.{StandsFor, desk_revision};
ghost use Rattle.script_lines.specs.Groups.{IsWellFormed};
ghost use Rattle.ucdshop_more_core.specs.Logging.{LogsAll};
ghost use Rattle.ucdshop_more_core.specs.Sessions.{AreWellFormed};
ghost use Rattle.ucdshop_more_core.specs.Turns.{request_turn, request_turns};

use crate::desk_log::DeskLog;
use crate::desk_mark::{DeskMark, ops_of_first_command};
use crate::requests::Request;
use bench_editors::{Desk, Reply};
use std::alloc::Global;
use std::sync::ledger::Ledger;
use ucd_model::{Memory, Steps};

/// Handles requests at a desk, in order. A reply is let go once its line is in the log.
///
/// - `Memory`: memory ran out. Nothing is known of the desk then.
pub fn hold_session<L: Ledger>(
    alloc: Global,
    desk: &mut Desk,
    requests: &[Request],
    steps: &mut Steps<L>,
) -> Result<DeskLog, Memory>
    requires ready { AreWellFormed requests.now }
    requires room { desk_revision desk.old + length requests.now ≤ 4294967295 }
    ensures { IfOk result (λ log. (s : DeskState) → StandsFor desk.old s
        → LogsAll s (request_turns requests.now) log desk.new) }
{
    let mut log = DeskLog::new(alloc);
    'requests: for request in requests {
        let reply = reply_to(desk, request, steps)?;
        log.put(alloc, request.line, &reply)?;
    }
    Ok(log)
}

/// What a desk replies to a request.
///
/// - `Memory`: memory ran out. Nothing is known of the desk then.
fn reply_to<L: Ledger>(
    desk: &mut Desk,
    request: &Request,
    steps: &mut Steps<L>,
) -> Result<Reply, Memory>
    requires ready { All IsWellFormed request.now.commands }
    requires room { desk_revision desk.old < 4294967295 }
    ensures reply { IfOk result (λ reply. (s : DeskState) → StandsFor desk.old s
        → reply ≡ (answer s (request_turn request.now).event).reply) }
    ensures state { OnOk result ((s : DeskState) → StandsFor desk.old s
        → StandsFor desk.new (answer s (request_turn request.now).event).state) }
    ensures revision { desk_revision desk.new ≤ desk_revision desk.old + 1 }
{
    match request.mark {
        DeskMark::Open { editor } => desk.enter(editor),
        DeskMark::Leave { editor } => Ok(desk.leave(editor)),
        DeskMark::Propose { editor, base } => {
            let group = ops_of_first_command(request.commands.as_slice());
            desk.propose(editor, base, group, steps)
        }
    }
}
