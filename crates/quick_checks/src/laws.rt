//! The laws of the quick checks: each function here does nothing, and its contract is a law. UAX #15, section 9.

ghost use Rattle.quick_checks.specs.CheckLaws.{KindsTellQuickChecks, UnchangedIsYes, NoIsOther, OthersAreSame};

/// What the kind of a mapping tells is the quick check of the decomposition, whatever that decomposition is.
pub fn kinds_tell_quick_checks()
    ensures { KindsTellQuickChecks }
{}

/// If no mapping is empty, a code point whose four forms are all itself, and that is no second member of a primary
/// composite's mapping, has `Yes` in each quick check.
pub fn unchanged_is_yes()
    ensures { UnchangedIsYes }
{}

/// If no mapping is empty, and a quick check is `No`, the form of the code point differs from the code point alone.
pub fn no_is_other()
    ensures { NoIsOther }
{}

/// If a quick check is not `No`, the form of the code point is the code point alone.
pub fn others_are_same()
    ensures { OthersAreSame }
{}
