//! What the derivation of a code point asks of the facts, and that it depends on nothing else.
#![tactic(auto)]

pub mod laws;
