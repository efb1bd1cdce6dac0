//! Tests of the policy report over benches, of chains of them, and of conformance. They stand above the crates that they test, so that
//! each is proved once.
#![tactic(auto)]

#[cfg(test)]
mod ages;
#[cfg(test)]
mod conformance;
#[cfg(test)]
mod reports;
#[cfg(test)]
mod samples;
