//! The text of a section: a line for each maximal span of code points with one label. UAX #44, section 5.3.
#![tactic(auto)]

mod label;
mod run;
mod section;

pub use label::{LabelText, put_spaced};
pub use section::OpenSection;
