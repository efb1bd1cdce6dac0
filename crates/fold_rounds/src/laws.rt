//! The laws of the folding rounds, by either folding: each function here does nothing, and its contract is a law.

ghost use Rattle.fold_rounds.specs.RoundLaws.{FixedIsFound, FoundIsFixed};

/// A list that at most seven rounds reach, and that one more leaves as it is, is the one that is found.
/// The Unicode Standard, section 3.13, toNFKC_Casefold.
pub fn fixed_is_found()
    ensures { FixedIsFound }
{}

/// What is found is a list that at most seven rounds reach, and that one more leaves as it is.
pub fn found_is_fixed()
    ensures { FoundIsFixed }
{}
