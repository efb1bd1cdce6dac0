//! Tests of the run with a script: groups, questions and the report against an earlier release. They stand above the crate that they test,
//! so that it is proved once.
#![tactic(auto)]

#[cfg(test)]
mod compare_faults;
#[cfg(test)]
mod compares;
#[cfg(test)]
mod missing_rows;
#[cfg(test)]
mod questions;
#[cfg(test)]
mod script_ends;
#[cfg(test)]
mod scripts;
