//! Laws of loaded files.

ghost use Rattle.release_rows.specs.OperationLaws.{MissingRowsOverlapNothing, OperationsKeepCuts, OperationsKeepOrder, OperationsKeepRows, RowsStay};
ghost use Rattle.release_rows.specs.Patches.{RowsStayBack};
ghost use Rattle.release_rows.specs.Touching.{SpeakingRowsMeetSpans};
ghost use Rattle.release_rows.specs.Unchanged.{EverythingElseStays};
ghost use Rattle.release_rows.specs.ValuesApart.{ValuesAreApart};
ghost use Rattle.release_rows.specs.Laws.{FaultsAreFirst, LoadsExactly, BytesAreKept, LoadedFilesAreSound, ReloadsTheSame};

use source_rows::{rows_are_lines_or_ranges, rows_are_no_trivia};
use ucd_lines::{
    endings_are_told_apart, items_join, lines_are_unique, no_line_feed_inside,
    only_the_last_is_unended,
};

/// A file is refused exactly by its first fault: no piece above has one.
pub fn faults_are_first()
    ensures { FaultsAreFirst }
{}

/// A file is loaded exactly if no piece of it has a fault, and then its items are its pieces.
pub fn loads_exactly()
    ensures { LoadsExactly }
{}

/// The items of a loaded file, put together, are its bytes.
pub fn bytes_are_kept()
    ensures { BytesAreKept }
{
    items_join();
}

/// The items of a loaded file are kept, ascend in UnicodeData.txt and are cut as lines are. The content of an item that
/// LF alone ends does not end in CR.
pub fn loaded_files_are_sound()
    ensures { LoadedFilesAreSound }
{
    no_line_feed_inside();
    only_the_last_is_unended();
    endings_are_told_apart();
}

/// The bytes of such items, put together, are loaded as these items, if they are within the limit.
pub fn reloads_the_same()
    ensures { ReloadsTheSame }
{
    lines_are_unique();
    rows_are_lines_or_ranges();
}

/// If the items of a file are kept, they still are after an operation: each item is read from its content, keys differ,
/// and rows do not overlap if the file forbids it.
pub fn operations_keep_rows()
    ensures { OperationsKeepRows }
{
    rows_are_no_trivia();
}

/// If the rows of UnicodeData.txt ascend, they still do after an operation.
pub fn operations_keep_order()
    ensures { OperationsKeepOrder }
{}

/// If the items of a file are cut as lines are, they still are after an operation.
pub fn operations_keep_cuts()
    ensures { OperationsKeepCuts }
{
    rows_are_no_trivia();
}

/// A missing row overlaps no row of another key, nor does such a row overlap it.
pub fn missing_rows_overlap_nothing()
    ensures { MissingRowsOverlapNothing }
{}

/// A code point outside of what an operation touches has the same rows that speak of it, in the same order.
pub fn rows_stay()
    ensures { RowsStay }
{}

/// A code point outside of what the rows of a patch speak of has the same rows that speak of it where the patch leads, in
/// the same order.
pub fn rows_stay_back()
    ensures { RowsStayBack }
{}

/// A row that speaks of a code point in one of the spans is among those that meet the spans.
pub fn speaking_rows_meet_spans()
    ensures { SpeakingRowsMeetSpans }
{}

/// Everything but the operation's row keeps its content and its order, comments and empty lines too. Only the item in
/// front of an added row may differ: it has a LF if it had no line end. A changed row keeps its place and its line end,
/// and each other file keeps its items.
pub fn everything_else_stays()
    ensures { EverythingElseStays }
{}

/// No code point is covered by two of the rows that are kept of Scripts.txt, or by two of WordBreakProperty.txt,
/// missing rows aside.
pub fn values_are_apart()
    ensures { ValuesAreApart }
{}
