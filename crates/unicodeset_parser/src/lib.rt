//! Reads UnicodeSets. UTS #35, "Unicode Sets".
#![tactic(auto)]

mod blank;
mod bytes;
mod escape;
mod expr;
mod faults;
mod frames;
mod laws;
mod lexing;
mod machine;
mod parsing;
mod property;
mod state;
mod stop;
mod token;

pub use expr::{Expr, Join, NamedProperty, Part, Parts, ValuedProperty};
pub use laws::{
    faults_are_first, faults_are_named, one_tree, places_ascend, read_trees_are_text,
    read_trees_can_be_written, read_trees_read_back, reads_exactly, texts_read_back,
};
pub use parsing::parse;
pub use stop::{SetRule, SetStop};
