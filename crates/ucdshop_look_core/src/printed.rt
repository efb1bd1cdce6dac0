//! The lines that a run prints.

/// The line for words that have no listed form.
pub const USAGE: &[u8] =
    b"usage: ucdshop_look ask DATA SET .. | show DATA POINT .. | check DATA [SCRIPT [PREVIOUS]] | changes DATA SCRIPT\n";
