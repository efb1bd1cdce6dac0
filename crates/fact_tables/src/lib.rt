//! The facts of all code points, packed into tables that are looked up; what rows give is copied into them from tables of
//! rows.
#![tactic(auto)]

mod case_images;
mod cases;
mod changes;
mod composing;
mod copying;
mod data_lists;
mod fact_tables;
mod given_points;
mod images;
mod joined_spans;
mod list_run;
mod mappings;
mod next_view;
mod now_or_next;
mod packed_mappings;
mod painting;
mod pair_index;
mod pair_keys;
mod plain;
mod point_list_calls;
mod point_lists;
mod points;
mod pool_range;
mod preparing;
mod reached;
mod reaching;
mod reading;
mod row_tables;
mod sweeping;
mod table_copy;
mod uniform;
mod view;
mod word;
mod word_facts;
mod word_runs;

pub use case_images::CaseImages;
pub use cases::Cases;
pub use data_lists::DataLists;
pub use fact_tables::FactTables;
pub use given_points::GivenPoints;
pub use joined_spans::disjoint_spans;
pub use next_view::NextView;
pub use painting::{sum_of_tables, table_of_spans};
pub use point_lists::PointLists;
pub use points::point;
pub use row_tables::RowTables;
pub use view::NowView;
pub use word::NO_ROW;
pub use word_runs::WordRuns;
