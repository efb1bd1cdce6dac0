//! Tests of the public calls that read and print, that read lines, names and sets, that answer sets, and of releases that
//! are made. They stand above the crates that they test, so that each is proved once.
#![tactic(auto)]

#[cfg(test)]
mod answers;
#[cfg(test)]
mod lines;
#[cfg(test)]
mod made;
#[cfg(test)]
mod members;
#[cfg(test)]
mod missing_values;
#[cfg(test)]
mod names;
#[cfg(test)]
mod replacing;
#[cfg(test)]
mod sets;
#[cfg(test)]
mod shelves;
#[cfg(test)]
mod systems;
