//! A program of a few lines over `run_endings` and `run_inputs` alone, which keeps what any program promises, and its tests.
#![tactic(auto)]

mod checker;
#[cfg(test)]
mod checks;

pub use checker::check;
