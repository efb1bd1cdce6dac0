//! A bench whose accepted groups can be undone, the latest first.
#![tactic(auto)]

mod history;
mod laws;
mod undone;

pub use history::History;
pub use laws::{same_points_change, undo_restores};
pub use undone::Undone;
