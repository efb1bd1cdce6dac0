//! The laws of what a run writes and tells: each function here does nothing, and its contract is a law.

ghost use Rattle.ucdshop_core.specs.LineLaws.{LinesAreCounted};
ghost use Rattle.ucdshop_core.specs.OutputLaws.{OtherPathsStay, OutputsHoldTheirBytes, PathsAreOfTheWords};
ghost use Rattle.ucdshop_core.specs.SessionLaws.{RefusalsAreLeftOut, RefusalsChangeNothing};

use ucd_lines::{endings_are_told_apart, no_line_feed_inside, only_the_last_is_unended};

/// The words alone give the paths of the files that are written, in order.
pub fn paths_are_of_the_words()
    ensures { PathsAreOfTheWords }
{}

/// Once all files are put, the path of each holds the bytes of that file: none takes the place of another.
pub fn outputs_hold_their_bytes()
    ensures { OutputsHoldTheirBytes }
{}

/// Each path that is none of theirs holds what it held.
pub fn other_paths_stay()
    ensures { OtherPathsStay }
{}

/// The number of a line of a source file is one more than the LFs before it: so many lines have the pieces above a piece.
pub fn lines_are_counted()
    ensures { LinesAreCounted }
{
    no_line_feed_inside();
    only_the_last_is_unended();
    endings_are_told_apart();
}

/// A refused command changes nothing but the log, whose line names its rule, and the count of refusals.
pub fn refusals_change_nothing()
    ensures { RefusalsChangeNothing }
{}

/// If a refused command is left out of the commands of a script, the files and answers stay the same, and so do the
/// counts but that of refusals.
pub fn refusals_are_left_out()
    ensures { RefusalsAreLeftOut }
{}
