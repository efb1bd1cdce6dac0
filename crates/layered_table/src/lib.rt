//! Words for spans of code points, one layer over another: the last layer that covers a code point counts.
#![tactic(auto)]

mod cutting;
mod painting;

pub use cutting::disjoint_layers;
pub use painting::{Layer, table_of_layers};
