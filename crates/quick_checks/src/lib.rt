//! Exclusion from composition, and the quick checks of the normalisation forms. UAX #15, sections 5 and 9.
#![tactic(auto)]

mod checks;
mod exclusion;
pub mod laws;

pub use checks::{quick, quick_composed, quick_decomposed};
pub use exclusion::{full_exclusion, is_fully_excluded};
