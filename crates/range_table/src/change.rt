//! Places where the values change.

/// A place where the value changes.
#[derive(Clone, Copy)]
pub struct Change<V> {
    /// The first code point with the value, as a number from 1 to 10FFFF.
    pub start: u32,
    /// The value from there on, up to the next change.
    pub value: V,
}
