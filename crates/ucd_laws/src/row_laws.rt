//! The laws of the facts of rows that files can have: each function here does nothing, and its contract is a law.

ghost use Rattle.ucd_laws.specs.RowLaws.{KindsAreMapped};

/// A code point with a kind of mapping has a mapping, if each row is one that UnicodeData.txt can have. UAX #44,
/// section 5.7.3.
pub fn kinds_are_mapped()
    ensures { KindsAreMapped }
{}
