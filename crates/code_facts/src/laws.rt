//! The laws of facts: each function here does nothing, and its contract is a law.

ghost use Rattle.code_facts.specs.Locality.{FactsAreLocal, FactsStay, OthersGiveNone};

/// The facts of a code point are those of the rows that speak of it.
pub fn facts_are_local()
    ensures { FactsAreLocal }
{}

/// A code point of which the same rows speak, in the same order, has the same facts.
pub fn facts_stay()
    ensures { FactsStay }
{}

/// The facts are the same if the files that give some have the same rows.
pub fn others_give_none()
    ensures { OthersGiveNone }
{}
