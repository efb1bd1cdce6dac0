//! Tests of benches and of groups on them. They stand above the crates that they test, so that each is proved once.
#![tactic(auto)]

#[cfg(test)]
mod benches;
#[cfg(test)]
mod dependants;
#[cfg(test)]
mod editors;
#[cfg(test)]
mod groups;
