//! The stability policies of the Unicode Standard: which of them a release breaks against an earlier one, and what it
//! keeps if it breaks none. Unicode Character Encoding Stability Policies.
#![tactic(auto)]

mod alias_rows;
mod breaks;
mod broken_stretch;
mod case_tests;
mod caseless;
mod common;
mod differing;
mod form_tests;
mod kept_tests;
mod laws;
mod mapping_tests;
mod name_places;
mod named_row;
mod names;
mod point_breaks;
mod policy;
mod policy_set;
mod reporting;
mod row_tests;
mod sieving;
mod testing;
mod writing;

pub use breaks::{Break, Breaks, lists};
pub use common::{common_caseless, common_forms};
pub use laws::{
    caseless_stays, empty_part_keeps_caseless, empty_part_keeps_forms, forms_stay,
    forms_stay_through, policies_are_whole,
};
pub use normalisation::Forms;
pub use policy::{POLICIES, Policy};
pub use reporting::report;
pub use writing::report_text;
