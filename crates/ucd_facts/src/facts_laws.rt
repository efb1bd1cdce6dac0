//! The laws of the facts of code points: each function here does nothing, and its contract is a law.

ghost use Rattle.ucd_facts.specs.FactsLaws.{ImageIsSame, ImageIsOther, HangulComposesBack, NumbersPastPointsAreUnassigned};

/// An image is `Same` exactly if a code point is mapped to itself alone.
pub fn image_is_same()
    ensures { ImageIsSame }
{}

/// Every other image holds what the code point is mapped to.
pub fn image_is_other()
    ensures { ImageIsOther }
{}

/// The mapping of a Hangul syllable composes to the syllable. The Unicode Standard, section 3.12.
pub fn hangul_composes_back()
    ensures { HangulComposesBack }
{}

/// A number past the code points has the facts of a code point without a row.
pub fn numbers_past_points_are_unassigned()
    ensures { NumbersPastPointsAreUnassigned }
{}
