//! The laws of composition: each function here does nothing, and its contract is a law.

ghost use Rattle.normalisation.specs.CompositionLaws.{CompositesReplace, BlockedStay, UnpairedStay, StarterlessStay, EmptyComposesToEmpty};

/// One more code point that is not blocked from the last starter, and has a composite with it, is joined with it.
/// The Unicode Standard, section 3.11, D117.
pub fn composites_replace()
    ensures { CompositesReplace }
{}

/// One more code point that is blocked from the last starter stays. The Unicode Standard, section 3.11, D115.
pub fn blocked_stay()
    ensures { BlockedStay }
{}

/// One more code point that has no composite with the last starter stays.
pub fn unpaired_stay()
    ensures { UnpairedStay }
{}

/// One more code point before which no starter is stays.
pub fn starterless_stay()
    ensures { StarterlessStay }
{}

/// No code points compose to none.
pub fn empty_composes_to_empty()
    ensures { EmptyComposesToEmpty }
{}
