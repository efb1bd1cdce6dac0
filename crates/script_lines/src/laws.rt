//! Laws on scripts.

ghost use Rattle.script_lines.specs.Faults.{FaultsAreFirst};
ghost use Rattle.script_lines.specs.Grammar.{ScriptsAreRead};
ghost use Rattle.script_lines.specs.Groups.{GroupsAreWellFormed};

use source_rows::{keys_are_read, possible_rows_are_readable, rows_are_read};

/// A script has commands exactly if its lines are those of a script with these commands: lines that are passed over,
/// operations, and groups of at most 4,096 operations between `begin` and `end`.
pub fn scripts_are_read()
    ensures { ScriptsAreRead }
{
    rows_are_read();
    keys_are_read();
}

/// A script is refused exactly by its first fault: the first line that has one; `E2` if no
/// line has one and a group is open at the end.
pub fn faults_are_first()
    ensures { FaultsAreFirst }
{}

/// The groups of a script without a fault can be carried out: each operation has a row that its file can have, with
/// bytes that are read as it, and a group has at most 4,096 operations.
pub fn groups_are_well_formed()
    ensures { GroupsAreWellFormed }
{
    rows_are_read();
    possible_rows_are_readable();
}
