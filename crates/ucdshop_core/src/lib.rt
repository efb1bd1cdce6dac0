//! The run of the program: what it derives, writes and prints of its jobs.
#![tactic(auto)]

pub mod laws;
mod making;
mod outputs;
mod perfect_run;
mod plan;
mod planning;
mod program;
mod release_number;
mod words;

pub use outputs::Work;
pub use perfect_run::run_perfectly;
pub use plan::plan_of;
pub use program::{run, run_counted};
pub use run_endings::{OUT_OF_MEMORY, Output, Plan, Status, Stop};
pub use ucdshop_jobs::{
    AskFault, AskRule, Carried, Given, Inputs, Job, Part, RunCounts, ScriptPlace, breaks_since,
    carry_out, judge_inputs, needed_paths, summary,
};
