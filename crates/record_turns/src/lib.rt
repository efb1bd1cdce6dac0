//! Code points that are derived again after an edit: which records changed, and what they ask.
#![tactic(auto)]

mod again_stop;
mod points_again;
mod release_turn;

pub use again_stop::AgainStop;
pub use release_turn::turn;
