//! Cuts the source files of the Unicode Character Database into lines and fields, and reads and writes code points.
//! UAX #44, section 4.2, "File Format Conventions".
#![tactic(auto)]

mod blank;
mod code_point;
mod decimal_text;
mod field_iter;
mod hex_text;
mod item;
mod item_iter;
mod laws;
mod search;
mod split;
mod trivia;

pub use blank::{is_blank, trim};
pub use code_point::{hex, hex_number};
pub use decimal_text::{put_decimal, put_total};
pub use field_iter::Fields;
pub use hex_text::{compare_hex, put_hex, put_span};
pub use item::{Ending, Item, join};
pub use item_iter::Items;
pub use laws::{
    contents_are_those_of_items, empty_text_has_no_line, endings_are_told_apart, hex_reads_put_hex,
    items_join, lines_are_unique, no_line_feed_inside, only_the_last_is_unended,
};
pub use search::{cut, first_at};
pub use split::{fields, items};
pub use trivia::{has_missing_rows, is_trivia, missing_rest};
