//! Rows, facts and questions about them: types, values and definitions for the crates that read, edit and keep them.
#![tactic(auto)]

mod bits;
mod category;
mod composite;
pub mod composite_laws;
mod decomposition;
mod enumeration;
pub mod enumeration_laws;
mod fact_list;
mod facts;
pub mod facts_laws;
mod files;
mod folding;
mod form;
mod image;
mod property;
mod query;
mod row;
mod sameness;
mod sets;
mod uniform;
mod view;

pub use category::{CATEGORIES, Category};
pub use decomposition::{Kind, TAGS, Tag};
pub use fact_list::FactList;
pub use facts::Facts;
pub use files::{DERIVED_FILES, DerivedFile};
pub use folding::{FOLDINGS, Folding};
pub use form::{Bad, Broken, Form, FormStop, Quick};
pub use image::Image;
pub use property::{CORE_PROPERTIES, Core, FLAGS, Flag};
pub use query::{Queries, Query};
pub use row::{
    AliasRow, CasingRow, DataRow, ExclusionRow, FoldRow, FoldStatus, OtherFields, Row, ValueRow,
};
pub use sameness::same_facts;
pub use sets::{CoreSet, Flags};
pub use ucd_points::{
    Copied, FILE_LIMIT, ListOf, Memory, Point, Points, SOURCE_FILES, SourceFile, Span, Spans, Text,
    Texts, file_limit, point_count, same_points,
};
pub use uniform::UniformFacts;
pub use view::{FactView, FactsRef};
