//! The laws of the enumerations and of their names: each function here does nothing, and its contract is a law.

ghost use Rattle.ucd_facts.specs.Enumerations.{EnumerationsAreWhole};
ghost use Rattle.ucd_facts.specs.NameLaws.{CategoriesAreSpelled, StatusesAreSpelled, TagTextsAreNames, NamesTellValues};

/// Each list of an enumeration's values has all of them, each once and at its place.
pub fn enumerations_are_whole()
    ensures { EnumerationsAreWhole }
{}

/// The two bytes that name a category are its code, and no code names `Cn`. UAX #44, section 5.7.1, table 12.
pub fn categories_are_spelled()
    ensures { CategoriesAreSpelled }
{}

/// The byte that names a status of a folding is its code.
pub fn statuses_are_spelled()
    ensures { StatusesAreSpelled }
{}

/// The text of a tag is its name between `<` and `>`. UAX #44, section 5.7.3, table 14.
pub fn tag_texts_are_names()
    ensures { TagTextsAreNames }
{}

/// Two categories, statuses, tags, properties or files with one name are one.
pub fn names_tell_values()
    ensures { NamesTellValues }
{}
