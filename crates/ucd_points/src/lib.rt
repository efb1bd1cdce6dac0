//! Code points, spans and lists of them, and the files and lines in which they are written: what tables, lists and
//! lines need, and all else stands on.
#![tactic(auto)]

mod files;
pub mod laws;
mod list;
mod memory;
mod point;
mod span;

pub use files::{FILE_LIMIT, SOURCE_FILES, SourceFile, file_limit};
pub use list::{Copied, ListOf, Points, Spans, Text, Texts, same_points};
pub use memory::Memory;
pub use point::{Point, point_count};
pub use span::Span;
