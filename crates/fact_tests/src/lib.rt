//! Tests of facts: of lines and names as real files have them, and of edits. They stand above the crate that they test, so that it is proved once.
#![tactic(auto)]

#[cfg(test)]
mod changes;
#[cfg(test)]
mod facts;
#[cfg(test)]
mod names;
#[cfg(test)]
mod next_facts;
#[cfg(test)]
mod word_breaks;
