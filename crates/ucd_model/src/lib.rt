//! What is derived from facts: forms, records, valid releases and derived texts. It hands the types of `ucd_facts` out again.
#![tactic(auto)]

pub mod label_laws;
mod pieces;
mod records;
pub mod sameness_laws;
mod steps;
pub mod validity_laws;

pub use pieces::equal_record_spans;
pub use records::{Record, Records};
pub use steps::Steps;
pub use ucd_facts::{
    AliasRow, Bad, Broken, CATEGORIES, CORE_PROPERTIES, CasingRow, Category, Core, CoreSet,
    DERIVED_FILES, DataRow, DerivedFile, ExclusionRow, FLAGS, FOLDINGS, FactList, FactView, Facts,
    FactsRef, Flag, Flags, FoldRow, FoldStatus, Folding, Form, FormStop, Image, Kind, OtherFields,
    Queries, Query, Quick, Row, TAGS, Tag, ValueRow, composite_laws, enumeration_laws, facts_laws,
    same_facts,
};
pub use ucd_points::{
    Copied, FILE_LIMIT, ListOf, Memory, Point, Points, SOURCE_FILES, SourceFile, Span, Spans, Text,
    Texts, file_limit, point_count, same_points,
};
