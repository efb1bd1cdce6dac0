//! The laws of a valid release: each function here does nothing, and its contract is a law.

ghost use Rattle.ucd_model.specs.ValidityLaws.{ValidIsUnbroken, BrokenIsLeast, ValidExpands, EndlessHasChain, HiddenHasLesser, ValidPairIsSingle};

/// A release is valid, so each code point has its record, exactly if no code point is found that breaks a rule.
pub fn valid_is_unbroken()
    ensures { ValidIsUnbroken }
{}

/// What is found is the least code point that has no record, with the first rule that it breaks, and nothing else is.
pub fn broken_is_least()
    ensures { BrokenIsLeast }
{}

/// In a valid release each code point has its canonical and its compatibility expansion. UAX #15, section 1.3.
pub fn valid_expands()
    ensures { ValidExpands }
{}

/// A code point has no expansion exactly if a chain of eight mappings begins at it.
pub fn endless_has_chain()
    ensures { EndlessHasChain }
{}

/// A code point is a hidden composite exactly if a lesser primary composite has its mapping.
/// The Unicode Standard, section 3.11, D114.
pub fn hidden_has_lesser()
    ensures { HiddenHasLesser }
{}

/// In a valid release two primary composites with one mapping are one. The Unicode Standard, section 3.11, D114.
pub fn valid_pair_is_single()
    ensures { ValidPairIsSingle }
{}
