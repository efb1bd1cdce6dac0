//! Reads and writes the rows of the source files of the Unicode Character Database.
#![tactic(auto)]

mod aliases;
mod case_folding;
mod category_name;
mod code_point;
mod composition_exclusions;
mod conditions;
mod data_text;
mod data_values;
mod decomposition;
mod fault;
mod fields;
mod fields_cache;
mod fifteen;
mod key;
mod key_names;
mod keys;
mod laws;
mod lines;
mod mapping;
mod point_values;
mod put_data;
mod put_points;
mod put_rows;
mod read;
mod row_keys;
mod row_ref;
mod special_casing;
mod text;
mod unicode_data;
mod used_fields;
mod values;

pub use case_folding::FoldText;
pub use conditions::Conditions;
pub use data_text::DataText;
pub use data_values::Values;
pub use decomposition::Decomposition;
pub use fault::{RowFault, RowStop};
pub use fields_cache::FieldsCache;
pub use fifteen::DataFields;
pub use key::Key;
pub use key_names::{compare_names, content_section};
pub use keys::read_key;
pub use laws::{
    categories_are_named, contents_have_keys, first_line_faults_stay, key_texts_read_back,
    keys_are_read, possible_rows_are_readable, rows_are_lines_or_ranges, rows_are_no_trivia,
    rows_are_read, spans_are_read, spellings_are_one, texts_read_back,
};
pub use mapping::{Mapping, nonempty_mapping_of};
pub use point_values::{PointValues, read_point_values, read_point_values_with_cache};
pub use read::{has_values, read_row, read_row_ref, read_valued};
pub use row_keys::row_key;
pub use row_ref::RowRef;
pub use special_casing::CasingText;
pub use text::row_text;
pub use unicode_data::begins_range;
pub use values::{ValueText, Valued};
