//! The derivation of a code point: its record, or the first rule of a valid release that it breaks. UAX #44,
//! section 5.3; UAX #31, section 5.1.
#![tactic(auto)]

mod casefolds;
mod composed_checks;
mod composites;
mod core_set;
mod derivation;
mod identifiers;
pub mod laws;
mod missing_rows;
mod point_forms;
mod predicates;

pub use derivation::derive_record;
pub use identifiers::{id_continue, id_start, xid_continue, xid_start};
