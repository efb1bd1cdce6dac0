//! Tests of what is derived from facts, and of its text. They stand above the crates that they test, so that each is
//! proved once.
#![tactic(auto)]

#[cfg(test)]
mod asking;
#[cfg(test)]
mod casing;
#[cfg(test)]
mod checks;
#[cfg(test)]
mod derived_text;
#[cfg(test)]
mod expansion;
#[cfg(test)]
mod facts;
#[cfg(test)]
mod folding;
#[cfg(test)]
mod forms;
#[cfg(test)]
mod records;
#[cfg(test)]
mod sample;
#[cfg(test)]
mod sample_text;
#[cfg(test)]
mod simple_folding;
