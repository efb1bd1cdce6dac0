//! The cases of NormalizationTest.txt.

use ucd_model::{ListOf, Points};

/// A case: a text, and its four normalisation forms.
#[derive(Debug, Drop)]
pub struct Case {
    /// The line of the file on which the case stands, counted from 1.
    pub line: u32,
    /// The part of the file in which it stands, from 0 to 9.
    pub part: u8,
    /// The source.
    pub c1: Points,
    /// Its Normalisation Form C.
    pub c2: Points,
    /// Its Normalisation Form D.
    pub c3: Points,
    /// Its Normalisation Form KC.
    pub c4: Points,
    /// Its Normalisation Form KD.
    pub c5: Points,
}

/// Cases, in the order of their lines.
pub type CaseList = ListOf<Case>;

/// What NormalizationTest.txt holds.
#[derive(Debug, Drop)]
pub struct Cases {
    /// Its cases.
    pub list: CaseList,
    /// Whether a line `@Part1` stands in it, so that the file lists in part 1 each code point that has another form.
    pub part_one: bool,
}
