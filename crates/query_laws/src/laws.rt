//! The laws of what is asked: each function here does nothing, and its contract is a law.

ghost use Rattle.ucd_facts.specs.Answers.{QueriesAreTold};
ghost use Rattle.query_laws.specs.Laws.{TreeIsLeast, SameExpansions, SameForms, SameRounds, SameFoldings, AskedIsLocal, PlainAskOwn};
ghost use Rattle.query_laws.specs.Turns.{OthersStay, CollectedAreDependants, CollectedAreCounted, NextIsValid, NextIsBroken, NextKeepsAsked};

/// The test of whether two questions are the same tells whether they are.
pub fn queries_are_told()
    ensures { QueriesAreTold }
{}

/// If a code point has an expansion, the tree that it looks at is the least set of code points that holds it and, with
/// each code point, the members of its mapping that counts.
pub fn trees_are_least()
    ensures { TreeIsLeast }
{}

/// If facts answer alike what the rows of an expansion's tree are, they give the same expansion, and the same tree. UAX
/// #15, section 1.3.
pub fn expansions_are_local()
    ensures { SameExpansions }
{}

/// If facts answer alike what a form of a list asks, they put the list in the same form, and ask the same. UAX #15,
/// section 1.3.
pub fn forms_are_local()
    ensures { SameForms }
{}

/// If facts answer alike what a folding round asks, they give the same round, and ask the same. The Unicode Standard,
/// section 3.13.
pub fn rounds_are_local()
    ensures { SameRounds }
{}

/// If facts answer alike what all folding rounds of a code point ask, they give the same rounds up to the one after the
/// last, the same last round, and ask the same.
pub fn foldings_are_local()
    ensures { SameFoldings }
{}

/// A code point that has its record has the same one over all facts that answer alike what its derivation asks, and its
/// derivation asks the same of them.
pub fn asked_is_local()
    ensures { AskedIsLocal }
{}

/// A code point without a mapping asks its own row, and whether it is the second member of a primary composite's mapping,
/// and nothing else.
pub fn plain_points_ask_their_own()
    ensures { PlainAskOwn }
{}

/// In a turn each code point that asks no changed question has the same record, and asks the same.
pub fn others_stay()
    ensures { OthersStay }
{}

/// The code points that ask a changed question are just those that depend on the change.
pub fn collected_are_dependants()
    ensures { CollectedAreDependants }
{}

/// There are at most as many of them as code points that depend on the change.
pub fn collected_are_counted()
    ensures { CollectedAreCounted }
{}

/// If each of them has its record after a turn, the release is valid.
pub fn next_is_valid()
    ensures { NextIsValid }
{}

/// The first of them that has no record after a turn is the first code point without one.
pub fn next_is_broken()
    ensures { NextIsBroken }
{}

/// After a turn, what is kept of each code point is right if it is made anew for those code points and stays as it was
/// for the others.
pub fn next_keeps_asked()
    ensures { NextKeepsAsked }
{}
