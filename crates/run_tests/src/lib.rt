//! Tests of the run without a script: `derive` and `make`. They stand above the crate that they test, so that it is proved once.
#![tactic(auto)]

#[cfg(test)]
mod derive_faults;
#[cfg(test)]
mod derives;
#[cfg(test)]
mod folding;
#[cfg(test)]
mod makes;
#[cfg(test)]
mod other_files;
pub mod runs;
#[cfg(test)]
mod validity;
