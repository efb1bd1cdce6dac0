//! A value of any type for each code point, over a table of places.
#![tactic(auto)]

mod slot_store;
mod slots;
mod store;
mod unused_slots;

pub use slot_store::SlotStore;
pub use store::Store;
