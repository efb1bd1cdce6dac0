//! Laws that tie what is read to the grammar.

ghost use Rattle.source_rows.specs.KeyGrammar.{KeysAreRead};
ghost use Rattle.source_rows.specs.KeyNames.{ContentsHaveKeys};
ghost use Rattle.source_rows.specs.KeyTexts.{KeyTextsReadBack};
ghost use Rattle.source_rows.specs.Laws.{SpansAreRead, CategoriesAreNamed, PossibleRowsAreReadable, RowsAreRead, SpellingsAreOne, TextsReadBack};
ghost use Rattle.source_rows.specs.Ranges.{FirstLineFaultsStay};
ghost use Rattle.source_rows.specs.RowLines.{RowsAreLinesOrRanges};
ghost use Rattle.source_rows.specs.Trivia.{RowsAreNoTrivia};

/// The reader gives a row exactly if the grammar reads the bytes as that row.
pub fn rows_are_read()
    ensures { RowsAreRead }
{}

/// The reader gives a span exactly if the bytes spell it.
pub fn spans_are_read()
    ensures { SpansAreRead }
{}

/// The code of each category but `Cn` is read as that category, and `Cn` is none.
pub fn categories_are_named()
    ensures { CategoriesAreNamed }
{}

/// The text of a row that the file can have is read as that row.
pub fn texts_read_back()
    ensures { TextsReadBack }
{}

/// The row values that a file can have are those that some bytes are read as.
pub fn possible_rows_are_readable()
    ensures { PossibleRowsAreReadable }
{}

/// No bytes are read as two rows, and no two rows have one text.
pub fn spellings_are_one()
    ensures { SpellingsAreOne }
{}

/// A key is given exactly if the text stands for that key.
pub fn keys_are_read()
    ensures { KeysAreRead }
{}

/// A fault of a first line alone is the fault of the two lines, unless it is G09: then the two lines have no fault but G09 or G04.
pub fn first_line_faults_stay()
    ensures { FirstLineFaultsStay }
{}

/// Bytes that are read as a row are neither blank nor a comment.
pub fn rows_are_no_trivia()
    ensures { RowsAreNoTrivia }
{}

/// The names of a row's key and the name of its group stand in the content that it is read from.
pub fn contents_have_keys()
    ensures { ContentsHaveKeys }
{}

/// The text of the key of a row that a file can have is read as that key.
pub fn key_texts_read_back()
    ensures { KeyTextsReadBack }
{}

/// A row has one line that begins no range, or the two lines of a range of UnicodeData.txt.
pub fn rows_are_lines_or_ranges()
    ensures { RowsAreLinesOrRanges }
{}
