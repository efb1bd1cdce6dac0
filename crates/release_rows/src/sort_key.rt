//! Keys in their order.

/// The key of a row: its names, and then its first code point.
#[derive(PartialEq, Eq, PartialOrd, Ord, Drop)]
pub struct SortKey {
    /// The names in order, with `;` between them; empty if the key has no names. No name holds a `;`.
    pub names: Vec<u8>,
    /// The first code point, from 0 to 10FFFF; 0 for a row of names.
    pub code: u32,
}
