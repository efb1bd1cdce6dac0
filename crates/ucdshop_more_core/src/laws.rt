//! The laws of what a run writes: each function here does nothing, and its contract is a law.

ghost use Rattle.ucdshop_more_core.specs.OutputLaws.{AgesHoldTheirBytes, DeskFilesHoldTheirBytes, UndoFilesHoldTheirBytes};

/// Once the files of `desk` are put, the path of each holds its bytes: none takes the place of another.
pub fn desk_files_hold_their_bytes()
    ensures { DeskFilesHoldTheirBytes }
{}

/// Once the files of `undo` are put, the path of each holds its bytes: none takes the place of another.
pub fn undo_files_hold_their_bytes()
    ensures { UndoFilesHoldTheirBytes }
{}

/// Once both files of `ages` are put, the path of each holds its bytes: neither takes the place of the other.
pub fn ages_hold_their_bytes()
    ensures { AgesHoldTheirBytes }
{}
