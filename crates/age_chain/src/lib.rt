//! The ages of code points over a chain of releases: the first release in which each is assigned. UAX #44, section 5.14.
#![tactic(auto)]

mod chain;
mod giving;
mod laws;
mod listing;

pub use chain::Chain;
pub use laws::{age_is_of_the_first_release, forms_stay_from};
