//! The groups among the commands of a script.

ghost use Rattle.std.specs.Prelude.{◌≡◌};
ghost use Rattle.script_lines.specs.Groups.{AreWellFormed, IsWellFormed};
ghost use Rattle.ucdshop_more_core.specs.Marks.{is_group, ops_in};

use release_rows::Op;
use script_lines::{Command, What};

/// Whether a command asks for a group, and no question.
pub fn is_group(command: &Command) -> bool
    ensures { result ≡ is_group command.now.what }
{
    matches!(command.what, What::Group(_))
}

/// The operations of a group; none of a question.
pub fn ops_in(command: &Command) -> &[Op]
    requires { IsWellFormed command.now }
    ensures ops { result.now ≡ ops_in command.now.what }
    ensures ready { AreWellFormed result.now }
{
    match &command.what {
        What::Group(ops) => ops.as_slice(),
        What::Question(_) => &[],
    }
}
