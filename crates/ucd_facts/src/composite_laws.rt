//! The laws of primary composites: each function here does nothing, and its contract is a law.

ghost use Rattle.ucd_facts.specs.CompositeLaws.{PairIsLeast, PairIsOnly, SecondIsExact};

/// The pair of two points is the least primary composite with their mapping, and there is none if no composite has
/// it.
pub fn pair_is_least()
    ensures { PairIsLeast }
{}

/// Only the least primary composite with their mapping is the pair of two points.
pub fn pair_is_only()
    ensures { PairIsOnly }
{}

/// A point is a second member exactly if some primary composite's mapping ends with it.
pub fn second_is_exact()
    ensures { SecondIsExact }
{}
