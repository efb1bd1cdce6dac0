//! Tests of the runs of the third program. They stand above the crate that they test, so that it is proved once.
#![tactic(auto)]

#[cfg(test)]
mod asking;
#[cfg(test)]
mod changing;
#[cfg(test)]
mod checking;
#[cfg(test)]
mod faults;
#[cfg(test)]
mod runs;
#[cfg(test)]
mod showing;
#[cfg(test)]
mod words;
