//! Tables of words that keep pages for the blocks of 256 code points that have several values.
#![tactic(auto)]

mod block;
pub mod laws;
mod layers;
mod next;
mod paged_table;
mod part;
mod span;
mod stretches;
mod value;

pub use paged_table::PagedTable;
