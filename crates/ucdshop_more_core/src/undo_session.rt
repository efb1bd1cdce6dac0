//! The moves of a script, made one after the other on a history.

ghost use Rattle.std.specs.Prelude.{◌≡◌, ◌∷◌, [], IfOk, OnOk, map};
ghost use Rattle.std.specs.List.{All, fold};
ghost use Rattle.script_lines.specs.Groups.{IsWellFormed};
ghost use Rattle.ucdshop_more_core.specs.Drafts.{AreWellFormed};
ghost use Rattle.ucdshop_more_core.specs.Moves.{TakeBack, all_moves, group_move, section_moves};
ghost use Rattle.ucdshop_more_core.specs.Undoing.{after_move, course_of};

use crate::groups::ops_in;
use crate::sections::Section;
use crate::undo_log::UndoLog;
use bench_undo::{History, Undone};
use edit_session::ApplyStop;
use script_lines::Command;
use std::alloc::Global;
use std::sync::ledger::Ledger;
use ucd_model::{Memory, Steps};

/// Makes the moves of all sections on a history, in order.
///
/// - `Memory`: memory ran out. Nothing is known of the history then.
pub fn make_moves<L: Ledger>(
    alloc: Global,
    history: &mut History,
    sections: &[Section],
    steps: &mut Steps<L>,
) -> Result<UndoLog, Memory>
    requires ready { AreWellFormed sections.now }
    ensures { IfOk result (λ log. course_of history.new log
        ≡ fold after_move (course_of history.old
        (record { text = []; accepted = 0; undone = 0; refused = 0 }))
        (all_moves sections.now)) }
{
    let mut log = UndoLog::new(alloc);
    'sections: for section in sections {
        make_section_moves(alloc, history, section, &mut log, steps)?;
    }
    Ok(log)
}

/// Makes the moves of a section: an undo if it stands behind a mark, and then its groups.
///
/// - `Memory`: memory ran out.
fn make_section_moves<L: Ledger>(
    alloc: Global,
    history: &mut History,
    section: &Section,
    log: &mut UndoLog,
    steps: &mut Steps<L>,
) -> Result<(), Memory>
    requires ready { All IsWellFormed section.now.commands }
    ensures { OnOk result (course_of history.new log.new
        ≡ fold after_move (course_of history.old log.old) (section_moves section.now)) }
{
    if let Some(line) = section.undo {
        take_back(alloc, history, line, log, steps)?;
    }
    carry_groups(alloc, history, section.commands.as_slice(), log, steps)
}

/// Takes the latest group back, by the mark on this line.
///
/// - `Memory`: memory ran out.
fn take_back<L: Ledger>(
    alloc: Global,
    history: &mut History,
    line: u32,
    log: &mut UndoLog,
    steps: &mut Steps<L>,
) -> Result<(), Memory>
    ensures { OnOk result (course_of history.new log.new
        ≡ after_move (course_of history.old log.old) (TakeBack line)) }
{
    match history.undo(alloc, steps)? {
        Undone::Back(accepted) => log.note_undone(alloc, line, accepted.changed.len()),
        Undone::Nothing => log.note_nothing_to_undo(alloc, line),
    }
}

/// Carries groups out, in order.
///
/// - `Memory`: memory ran out.
fn carry_groups<L: Ledger>(
    alloc: Global,
    history: &mut History,
    commands: &[Command],
    log: &mut UndoLog,
    steps: &mut Steps<L>,
) -> Result<(), Memory>
    requires ready { All IsWellFormed commands.now }
    ensures { OnOk result (course_of history.new log.new
        ≡ fold after_move (course_of history.old log.old) (map group_move commands.now)) }
{
    'commands: for command in commands {
        carry_group(alloc, history, command, log, steps)?;
    }
    Ok(())
}

/// Carries a group out.
///
/// - `Memory`: memory ran out.
fn carry_group<L: Ledger>(
    alloc: Global,
    history: &mut History,
    command: &Command,
    log: &mut UndoLog,
    steps: &mut Steps<L>,
) -> Result<(), Memory>
    requires ready { IsWellFormed command.now }
    ensures { OnOk result (course_of history.new log.new
        ≡ after_move (course_of history.old log.old) (group_move command.now)) }
{
    match history.apply(alloc, ops_in(command), steps) {
        Ok(accepted) => log.accept(alloc, command.line, accepted.changed.len()),
        Err(ApplyStop::Refused(why)) => log.refuse(alloc, command.line, why),
        Err(ApplyStop::Memory) => Err(Memory),
    }
}
