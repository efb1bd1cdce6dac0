//! The laws of mentions: each function here does nothing, and its contract is a law.

ghost use Rattle.mention_index.specs.Laws.{AskedLead};
ghost use Rattle.mention_index.specs.Reached.{AskedAreReached};

/// A derivation asks about code points alone that are reached from its own, by steps to a member of a mapping, and from the
/// first member of a primary composite's mapping to the composite. The Unicode Standard, sections 3.7, 3.11 and 3.13.
pub fn asked_are_reached()
    ensures { AskedAreReached }
{}

/// If there are steps to each code point from those that it mentions, and from a primary composite to the first member of its
/// mapping, one comes to a code point from each that its derivation asks about.
pub fn asked_lead()
    ensures { AskedLead }
{}
