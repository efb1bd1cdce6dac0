//! The records of all code points, which are changed in two steps: prepared, and then committed or discarded.
#![tactic(auto)]

mod copy;
mod table;
mod witnesses;

pub use copy::copied_record;
pub use table::RecordTable;
