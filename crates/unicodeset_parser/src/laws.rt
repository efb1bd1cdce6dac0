//! Laws of the grammar.

ghost use Rattle.unicodeset_parser.specs.FaultNames.{FaultsAreNamed};
ghost use Rattle.unicodeset_parser.specs.Laws.{ReadsExactly, OneTree, FaultsAreFirst};
ghost use Rattle.unicodeset_parser.specs.Spelling.{TextsReadBack, ReadTreesCanBeWritten, ReadTreesAreText, ReadTreesReadBack};
ghost use Rattle.unicodeset_parser.specs.TreeNames.{PlacesAscend};

/// Tokens are read as a tree exactly if the grammar spells that tree.
pub fn reads_exactly()
    ensures { ReadsExactly }
{}

/// No tokens spell two trees.
pub fn one_tree()
    ensures { OneTree }
{}

/// What is refused stops at the least place: what stands before begins a text, and no text begins with it too; or all
/// of it begins a text, and the fault is S2 at the end.
pub fn faults_are_first()
    ensures { FaultsAreFirst }
{}

/// The rule of what is refused follows from what may stand after the tokens before it: a set, a character, both or
/// neither.
pub fn faults_are_named()
    ensures { FaultsAreNamed }
{}

/// The text of a tree that can be written, if it is UTF-8, is read as that tree, the places of its properties aside.
pub fn texts_read_back()
    ensures { TextsReadBack }
{}

/// Each tree that a text is read as can be written.
pub fn read_trees_can_be_written()
    ensures { ReadTreesCanBeWritten }
{}

/// The text of each tree that a text is read as is UTF-8.
pub fn read_trees_are_text()
    ensures { ReadTreesAreText }
{}

/// What was read, written and read again is the same tree, the places of its properties aside.
pub fn read_trees_read_back()
    ensures { ReadTreesReadBack }
{}

/// The names in the tree of a text stand in the order of their places: each begins after the one before it.
pub fn places_ascend()
    ensures { PlacesAscend }
{}
