//! Loads the source files of a release and keeps their text, from which their rows are read again.
#![tactic(auto)]

mod back;
mod brief;
mod conflict;
mod copy;
mod difference;
mod edits;
mod end_map;
mod extents;
mod file_back;
mod file_edits;
mod file_text;
mod hash;
mod join;
mod key_rule;
mod key_search;
mod keyed_extent;
mod laws;
mod lead;
mod load_items;
mod load_row;
mod load_stop;
mod loaded_row;
mod loading;
mod meeting;
mod nameless_span;
mod nine_files;
mod noted;
mod op_spans;
mod operation;
mod patch;
mod piece;
mod read_piece;
mod release;
mod row_iter;
mod row_key;
mod row_rule;
mod row_text;
mod search;
mod sort_key;
mod span_order;
mod splice;
mod stored_item;
mod stored_row;
mod tag;
mod touching;
mod way_back;

pub use key_rule::KeyRule;
pub use laws::{
    bytes_are_kept, everything_else_stays, faults_are_first, loaded_files_are_sound, loads_exactly,
    missing_rows_overlap_nothing, operations_keep_cuts, operations_keep_order,
    operations_keep_rows, reloads_the_same, rows_stay, rows_stay_back, speaking_rows_meet_spans,
    values_are_apart,
};
pub use load_stop::{LoadRule, LoadStop};
pub use operation::{Op, OpStop, Ops};
pub use patch::Patch;
pub use release::Release;
pub use row_iter::Rows;
pub use row_text::RowText;
pub use splice::Splice;
