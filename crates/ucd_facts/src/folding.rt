//! The two case foldings.

/// A case folding of lists of code points. The Unicode Standard, section 5.18, Caseless Matching; CaseFolding.txt.
#[derive(Clone, Copy, Debug, PartialEq, Eq)]
pub enum Folding {
    /// The full folding, with statuses C and F: a code point may fold to more than one.
    Full,
    /// The simple folding, with statuses C and S: each code point folds to one.
    Simple,
}

/// The foldings.
pub const FOLDINGS: [Folding; 2] = [Folding::Full, Folding::Simple];
