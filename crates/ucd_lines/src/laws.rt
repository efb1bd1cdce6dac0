//! Laws of lines and code points.

ghost use Rattle.ucd_lines.specs.Laws.{ItemsJoin, EmptyTextHasNoLine, LinesAreUnique, NoLineFeedInside, OnlyTheLastIsUnended, EndingsAreToldApart, ContentsAreThoseOfItems, HexReadsPutHex};

/// The contents and endings of the lines of a text, put together, give the text.
pub fn items_join()
    ensures { ItemsJoin }
{}

/// The empty text has no line.
pub fn empty_text_has_no_line()
    ensures { EmptyTextHasNoLine }
{}

/// No content of a line holds a LF.
pub fn no_line_feed_inside()
    ensures { NoLineFeedInside }
{}

/// Each line but the last has an ending, and the content of a line without one is not empty.
pub fn only_the_last_is_unended()
    ensures { OnlyTheLastIsUnended }
{}

/// A content that LF alone ends does not end in CR.
pub fn endings_are_told_apart()
    ensures { EndingsAreToldApart }
{}

/// A text has no other lines: any lines that keep these laws are the lines of the text that they give, put together.
pub fn lines_are_unique()
    ensures { LinesAreUnique }
{}

/// The contents of the lines of a text are the contents that the grammar of files speaks of.
pub fn contents_are_those_of_items()
    ensures { ContentsAreThoseOfItems }
{}

/// The digits that a code point is written in spell that code point.
pub fn hex_reads_put_hex()
    ensures { HexReadsPutHex }
{}
