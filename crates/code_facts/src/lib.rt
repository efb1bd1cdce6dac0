//! The facts of all code points that the rows of a release give, in tables that are looked up.
#![tactic(auto)]

mod case;
mod case_rows;
mod data_tables;
mod from_release;
mod giving_files;
mod hangul;
pub mod laws;
mod mark;
mod mark_rows;
mod marks;
mod mid_words;
mod row_lists;
mod row_tables;

pub use fact_tables::{FactTables, NextView, NowView};
pub use from_release::FromRelease;
pub use giving_files::gives_facts;
