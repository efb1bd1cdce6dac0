//! Code points that are ignored by default, and the case foldings under compatibility composition, NFKC_Casefold and
//! NFKC_Simple_Casefold.
#![tactic(auto)]

mod alike;
mod casefold;
mod ignorable;
pub mod laws;
mod rounds;
mod settled;

pub use alike::all_fold_alike;
pub use casefold::{Folded, casefold_of, nfkc_casefold, nfkc_simple_casefold};
pub use ignorable::{default_ignorable, drop_ignorable, is_default_ignorable, is_visible_format};
pub use rounds::{LISTS, MOST_POINTS};
