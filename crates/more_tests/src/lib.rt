//! Tests of the runs of the second program. They stand above the crate that they test, so that it is proved once.
#![tactic(auto)]

#[cfg(test)]
mod ages;
#[cfg(test)]
mod conform;
#[cfg(test)]
mod desk;
#[cfg(test)]
mod desk_marks;
#[cfg(test)]
mod faults;
#[cfg(test)]
mod refusals;
#[cfg(test)]
mod runs;
#[cfg(test)]
mod undo;
#[cfg(test)]
mod undo_marks;
#[cfg(test)]
mod words;
