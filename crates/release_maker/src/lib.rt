//! Makes a release of any of fifty sizes from a number, and a script for it: a large input for tests and measurements.
#![tactic(auto)]

mod line;
mod made;
mod texts;

pub use made::{Made, make};
