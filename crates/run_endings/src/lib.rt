//! How runs of programs end: what any program reads, plans, writes and tells, and what a run keeps by its status.
#![tactic(auto)]

mod ending;
mod failure_lines;
mod gathering;
mod output;
mod path;
mod plan;
mod reading;
mod status;
mod stop;
mod writing;

pub use ending::{end_run, make_room};
pub use failure_lines::{OUT_OF_MEMORY, read_failed_line, write_failed_line};
pub use gathering::read_inputs;
pub use output::{Output, put_text};
pub use path::path_in;
pub use plan::Plan;
pub use status::Status;
pub use stop::Stop;
