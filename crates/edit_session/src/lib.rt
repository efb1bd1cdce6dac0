//! A valid release that is held open: its rows, the facts of its rows, and the records of all code points.
#![tactic(auto)]

mod accepted;
mod apply_stop;
mod bench;
mod derivation;
mod first_points;
mod group;
mod kept_group;
mod listed_points;
mod mentions;
mod open_stop;
mod pieces;
mod questions;
mod release_records;
mod revert;

pub use accepted::Accepted;
pub use apply_stop::{ApplyStop, Refused};
pub use bench::Bench;
pub use open_stop::OpenStop;
pub use release_records::ReleaseRecords;
