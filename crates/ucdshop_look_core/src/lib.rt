//! The run of the third program: what is asked of a release, and what it answers, with no file written.
#![tactic(auto)]

mod answering;
mod changing;
mod checking;
mod command;
pub mod laws;
mod planning;
mod points;
mod printed;
mod program;
mod refusals;
mod showing;
mod spanning;

pub use program::run_look;
pub use run_endings::{OUT_OF_MEMORY, Status};
