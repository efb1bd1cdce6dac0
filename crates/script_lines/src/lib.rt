//! Reads edit scripts: groups of operations on the rows of a release, and questions of sets between them.
#![tactic(auto)]

mod command;
mod group;
mod laws;
mod line;
mod operation;
mod piece;
mod reading;
mod script;
mod source_path;
mod stop;

pub use command::{Command, Commands, What};
pub use laws::{faults_are_first, groups_are_well_formed, scripts_are_read};
pub use reading::{commands, commands_from};
pub use stop::{ScriptRule, ScriptStop};
