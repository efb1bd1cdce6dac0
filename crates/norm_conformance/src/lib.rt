//! Conformance of a release to NormalizationTest.txt: the cases of that file, and each invariant that the release misses.
//! UAX #15, section 4, UAX15-C3.
#![tactic(auto)]

mod case;
mod case_check;
mod checking;
mod columns;
mod form_check;
mod laws;
mod line;
mod listed;
mod miss;
mod reading;
mod stop;

pub use case::{Case, CaseList, Cases};
pub use checking::misses;
pub use laws::{cases_are_read, faults_are_first, lines_are_read};
pub use miss::{Miss, Misses};
pub use reading::read_cases;
pub use stop::{CaseRule, CaseStop};
