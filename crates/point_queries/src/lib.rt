//! The derivation of a code point with the questions that it asks of the facts.
#![tactic(auto)]

mod derivation;
mod forms;
mod query_list;
mod rounds;
mod rows;
mod trees;
mod tries;

pub use derivation::{Derived, derive_point, questions_of};
