//! The laws of case mappings: each function here does nothing, and its contract is a law.
//! The Unicode Standard, section 3.13.

ghost use Rattle.case_derivation.specs.CasingLaws.{CasemappedIsAnyOfThree, LowerOfJoined, UpperOfJoined, FoldOfJoined, TitleOfWord, TitleWithoutCased};

/// Changes_When_Casemapped is Changes_When_Lowercased, Changes_When_Uppercased and Changes_When_Titlecased together.
/// UAX #44, section 5.3.
pub fn casemapped_is_any_of_three()
    ensures { CasemappedIsAnyOfThree }
{}

/// Two joined lists in lower case are the two lists in lower case, joined: no member's mapping depends on its
/// neighbours.
pub fn lower_of_joined()
    ensures { LowerOfJoined }
{}

/// Two joined lists in upper case are the two lists in upper case, joined.
pub fn upper_of_joined()
    ensures { UpperOfJoined }
{}

/// Two joined lists, folded, are the two folded lists, joined.
pub fn fold_of_joined()
    ensures { FoldOfJoined }
{}

/// In a title the members before the first Cased one stay, that one has its title mapping, and what is after it is in
/// lower case.
pub fn title_of_word()
    ensures { TitleOfWord }
{}

/// A list without a Cased member is its own title.
pub fn title_without_cased()
    ensures { TitleWithoutCased }
{}
