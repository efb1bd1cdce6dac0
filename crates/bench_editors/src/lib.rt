//! Several editors at one bench: each proposal is a group of operations on rows that nobody else has touched since the
//! revision that its editor has seen.
#![tactic(auto)]

mod desk;
mod event;
mod laws;
mod reply;
mod row_key;
mod row_revisions;

pub use desk::Desk;
pub use event::Event;
pub use laws::{groups_replay, replies_are_those_of_a_lone_editor};
pub use reply::{Replies, Reply};
