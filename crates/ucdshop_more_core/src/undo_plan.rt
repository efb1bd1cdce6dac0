//! What `undo` writes and tells, made before its first file is written.

ghost use Rattle.std.specs.Prelude.{◌≡◌, ◌∷◌, [], ◌≤◌, IfOk, OnOk};
ghost use Rattle.std.specs.List.{fold};
ghost use Rattle.run_endings.specs.Planning.{HasPlan, Puts};
ghost use Rattle.ucdshop_more_core.specs.Drafts.{AreWellFormed, draft_of};
ghost use Rattle.ucdshop_more_core.specs.Moves.{all_moves};
ghost use Rattle.ucdshop_more_core.specs.Run.{course_ending, release_files, undo_ending, undo_log_file};
ghost use Rattle.ucdshop_more_core.specs.Undoing.{after_move, course_of};

use crate::draft::Drafted;
use crate::sections::Section;
use crate::summary_lines::undo_summary;
use crate::undo_log::UndoLog;
use crate::undo_session::make_moves;
use bench_undo::History;
use run_endings::{Output, Plan, put_text};
use run_inputs::{put_derived, put_sources};
use std::alloc::Global;
use std::sync::ledger::Ledger;
use ucd_model::{Memory, Steps};

/// The files that `undo` writes below a folder, and its summary. At most so many groups can be taken back.
///
/// - `Memory`: memory ran out.
pub fn undo_plan<L: Ledger>(
    alloc: Global,
    output: &[u8],
    drafted: Drafted,
    depth: u32,
    steps: &mut Steps<L>,
) -> Result<Plan, Memory>
    requires some { 1 ≤ depth }
    requires few { depth ≤ 1024 }
    requires ready { AreWellFormed drafted.sections }
    ensures { IfOk result (HasPlan (undo_ending output.now depth (draft_of drafted))) }
{
    let Drafted { bench, sections } = drafted;
    let mut history = History::new(alloc, bench, depth);
    plan_of_sections(alloc, output, &mut history, sections.as_slice(), steps)
}

/// The files that `undo` writes below a folder, and its summary, for these sections on this history.
///
/// - `Memory`: memory ran out.
fn plan_of_sections<L: Ledger>(
    alloc: Global,
    output: &[u8],
    history: &mut History,
    sections: &[Section],
    steps: &mut Steps<L>,
) -> Result<Plan, Memory>
    requires ready { AreWellFormed sections.now }
    ensures { IfOk result (HasPlan
        (course_ending output.now
        (fold after_move (course_of history.old
        (record { text = []; accepted = 0; undone = 0; refused = 0 }))
        (all_moves sections.now)))) }
{
    let log = make_moves(alloc, history, sections, steps)?;
    plan_of_log(alloc, output, history, &log)
}

/// The files that `undo` writes below a folder, and its summary, by the history as the sections leave it, and the log.
///
/// - `Memory`: memory ran out.
fn plan_of_log(
    alloc: Global,
    output: &[u8],
    history: &History,
    log: &UndoLog,
) -> Result<Plan, Memory>
    ensures { IfOk result (HasPlan (course_ending output.now (course_of history.now log.now))) }
{
    let mut outputs = Vec::new(alloc);
    put_release(alloc, output, history, &mut outputs)?;
    put_log(alloc, output, log, &mut outputs)?;
    let summary = undo_summary(alloc, log.accepted, log.undone)?;
    Ok(Plan {
        outputs,
        summary,
        done: log.refused > 0,
    })
}

/// Puts the source files below a folder, and those that are derived.
fn put_release(
    alloc: Global,
    folder: &[u8],
    history: &History,
    outputs: &mut Vec<Output>,
) -> Result<(), Memory>
    ensures { OnOk result (Puts (release_files folder.now history.now.files) outputs.old.items
        outputs.new.items) }
{
    let bench = history.bench();
    put_sources(alloc, folder, bench, outputs)?;
    put_derived(alloc, folder, bench, outputs)
}

/// Puts the log below a folder.
fn put_log(
    alloc: Global,
    folder: &[u8],
    log: &UndoLog,
    outputs: &mut Vec<Output>,
) -> Result<(), Memory>
    ensures { OnOk result (Puts (undo_log_file folder.now log.now.text ∷ []) outputs.old.items
        outputs.new.items) }
{
    put_text(alloc, folder, b"undo.log", log.text.as_slice(), outputs)
}
