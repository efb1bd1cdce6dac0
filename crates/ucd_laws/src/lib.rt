//! Laws of the definitions that no other definition rests on, and worked examples of each: they stand beside what they
//! speak of, so that a proof waits for none of them.
#![tactic(auto)]

pub mod row_laws;
pub mod span_laws;
