//! The text of one code point: its record, the rows that speak of it, and what a change of its record changes.
#![tactic(auto)]

mod change;
mod earlier_records;
mod file_lines;
pub mod laws;
mod line_finder;
mod point_text;
mod record_text;
mod row_place;
mod rows;
mod value;

pub use change::put_changes;
pub use earlier_records::EarlierRecords;
pub use point_text::PointText;
pub use record_text::put_record;
pub use rows::put_rows;
