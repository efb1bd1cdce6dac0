//! Case mappings and foldings of lists of code points, and what changes by them. The Unicode Standard, section 3.13.
#![tactic(auto)]

mod changes;
pub mod laws;
mod mapping;
mod matching;
mod predicates;
mod titling;

pub use changes::{Changes, changes_when};
pub use mapping::{fold, folded, lower, upper};
pub use predicates::{
    case_ignorable, cased, is_case_ignorable, is_cased, is_lowercase, is_uppercase,
};
pub use titling::title;
