//! The rules on keys and spans that an operation may break.

/// What the row of an operation breaks against the rows of its file.
#[derive(Clone, Copy, Debug, PartialEq, Eq)]
pub enum KeyRule {
    /// A row with this key is there already.
    K1,
    /// No row has this key.
    K2,
    /// The row overlaps another one: in UnicodeData.txt, Scripts.txt, WordBreakProperty.txt and
    /// CompositionExclusions.txt any row, in PropList.txt one of the same property.
    K4,
}
