//! The text of the derived files, over the records of the code points. UAX #44, section 5.3.
#![tactic(auto)]

mod file;
pub mod laws;
mod listing;
mod names;
mod section;
mod values;

pub use file::{file_text, text_over};
pub use listing::{Listing, file_listings};
