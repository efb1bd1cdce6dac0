//! The jobs of the program: what each needs, how it is judged, and how its script is carried out.
#![tactic(auto)]

mod answering;
mod carried;
mod carrying;
mod given;
mod inputs;
mod job;
mod log;
mod needed;
mod policies;
mod summary_lines;

pub use carried::Carried;
pub use carrying::carry_out;
pub use given::{Given, given_of_made_release};
pub use inputs::{Inputs, judge_inputs};
pub use job::{Job, Part, ScriptPlace};
pub use needed::needed_paths;
pub use policies::breaks_since;
pub use set_questions::{AskFault, AskRule};
pub use summary_lines::{MadeCounts, RunCounts, made_summary, summary};
