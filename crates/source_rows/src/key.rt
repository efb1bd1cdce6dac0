//! Keys of rows.

use ucd_facts::{Point, Texts};

/// What a row of a source file is found by.
#[derive(Debug, Drop)]
pub struct Key {
    /// The first code point of the row; `None` in PropertyAliases.txt and PropertyValueAliases.txt.
    pub code: Option<Point>,
    /// What else the key has, in order: the property in PropList.txt; the letter of the status in CaseFolding.txt; the
    /// conditions in SpecialCasing.txt, with one space between them, and nothing if there are none; the first two
    /// names in PropertyAliases.txt, the first three in PropertyValueAliases.txt. Nothing in the other files.
    pub names: Texts,
}
