//! What the names of properties mean. UAX #44, section 5.8.
#![tactic(auto)]

mod aliases;
mod edited;
mod file_values;
mod indexing;
mod kinds;
mod loose;
mod loose_name;
mod meaning;
mod naming;
mod number_map;
mod places;
mod property;
mod renewing;
mod rows;
mod tables;
mod value_numbers;
mod value_rows;
mod values;

pub use aliases::Aliases;
pub use edited::Edited;
pub use file_values::{FileValues, NumberedRow};
pub use property::{Group, Property, Test};
pub use value_numbers::ValueNumbers;
