//! Lists that can be edited: what is now stays until what is next is committed.
#![tactic(auto)]

mod change;
mod copy;
mod cover;
mod entries;
mod entry;
mod fill;
mod find;
mod guides;
mod hints;
mod now_or_next;
mod order;
mod part;
mod part_list;
mod passing;
mod put;
mod reach;
mod read;
mod search;
mod seek;
mod seen_numbers;
mod spot;

pub use entries::Entries;
pub use entry::Entry;
pub use part_list::PartList;
pub use passing::Passing;
pub use reach::Reach;
pub use seek::Seek;
pub use seen_numbers::SeenNumbers;
pub use spot::Spot;
