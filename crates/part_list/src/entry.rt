//! Entries of a list.

/// An item with the code points that it speaks of, and a number that tells some of what it is.
#[derive(Clone, Copy, Debug)]
pub struct Entry<T> {
    /// The first code point, as a number.
    pub code: u32,
    /// The last code point, as a number.
    pub last: u32,
    /// What a search can tell of the item without a look at it.
    pub tag: u32,
    /// The item.
    pub item: T,
}
