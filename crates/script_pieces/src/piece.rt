//! A piece of a file of scripts.

/// A mark: a line that begins with `@`.
#[derive(Clone, Copy, Debug, PartialEq, Eq)]
pub struct Mark<'a> {
    /// The number of its line, counted from 1.
    pub line: u32,
    /// The line, without what ends it.
    pub content: &'a [u8],
}

/// A piece of a file: what stands between two marks.
#[derive(Clone, Copy, Debug, PartialEq, Eq)]
pub struct Piece<'a> {
    /// The mark that it stands behind; `None` for what stands before the first.
    pub mark: Option<Mark<'a>>,
    /// The number of its first line, counted from 1 in the file.
    pub first_line: u32,
    /// The bytes of its lines.
    pub body: &'a [u8],
}
