//! Which code points mention which: from a code point one goes on to those whose derivation may ask about it.
#![tactic(auto)]

pub mod laws;
mod leading;
mod mentions;
mod putting;
mod reaching;

pub use mentions::{Mentions, MentionsBuilder};
