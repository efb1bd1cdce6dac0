//! Which code points ask a question: the questions of each code point, now and next, and a way back from the questions.
#![tactic(auto)]

mod asker_index;
mod asker_iter;
mod asking;
mod collecting;
mod dependencies;
pub mod laws;
mod listing;
mod number_set;
mod preparing;
mod relisting;
mod sweeping;

pub use asker_iter::Askers;
pub use dependencies::{DependencyMap, Listing};
