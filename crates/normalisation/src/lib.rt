//! Canonical order, composition, and the four normalisation forms. UAX #15; The Unicode Standard, section 3.11.
#![tactic(auto)]

mod all_forms;
mod canonical_order;
mod composition;
pub mod composition_laws;
pub mod form_laws;
mod forms;
pub mod order_laws;
mod starter;

pub use all_forms::{Forms, four_forms};
pub use canonical_order::order;
pub use composition::compose;
pub use forms::{nfc, nfd, nfkc, nfkd};
pub use starter::{Starter, is_unblocked, starter_behind};
