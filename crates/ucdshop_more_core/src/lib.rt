//! The run of the second program: what it reads, judges, chains, writes and prints.
#![tactic(auto)]

mod beside;
mod chaining;
mod command;
mod conform_plan;
mod desk_log;
mod desk_mark;
mod desk_plan;
mod desk_session;
mod draft;
mod groups;
pub mod laws;
mod log_lines;
mod miss_text;
mod outputs;
mod planning;
mod program;
mod reading;
mod requests;
mod sections;
mod sitting;
mod step_text;
mod summary_lines;
mod trial;
mod undo_log;
mod undo_plan;
mod undo_session;

pub use program::run_more;
pub use run_endings::{OUT_OF_MEMORY, Status};
