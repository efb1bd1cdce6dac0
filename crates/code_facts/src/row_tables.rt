//! Tables of what rows give.

ghost use Rattle.std.specs.Prelude.{◌≡◌, ℕ, ◌<◌, IfOk};
ghost use Rattle.range_table.specs.RunTable.{values_now};
ghost use Rattle.release_rows.specs.ValuesApart.{AreValuesApart};
ghost use Rattle.ucd_facts.specs.Facts.{data_row, class_in};
ghost use Rattle.ucd_points.specs.declared.files.SourceFile.TheVariants.{UnicodeData};
ghost use Rattle.code_facts.specs.DataTables.{data_now};
ghost use Rattle.code_facts.specs.Marks.{marks_at};
ghost use Rattle.code_facts.specs.RowLists.{sources_of};
ghost use Rattle.code_facts.specs.RowTables.{ShowsRows};
ghost use Rattle.code_facts.specs.Rows.{Apart, row_data};

use crate::case_rows::case_images;
use crate::data_tables::DataTables;
use crate::marks::binary_facts;
use crate::row_lists::RowLists;
use fact_tables::{DataLists, RowTables, sum_of_tables};
use range_table::RunTable;
use std::alloc::Global;
use ucd_facts::Memory;

/// The tables of these rows. UAX #44, sections 5.3, 5.6 and 5.7.
///
/// - `Memory`: memory ran out.
pub fn row_tables(alloc: Global, rows: &RowLists<'_>) -> Result<RowTables, Memory>
    requires apart { Apart rows.now.unicode_data.items }
    requires word_breaks_apart { AreValuesApart rows.now.word_break.items }
    ensures { IfOk result (λ made. (c : ℕ) → c < 1114112
        → ShowsRows made (sources_of rows.now) c) }
{
    let data_tables = DataTables::of(alloc, rows)?;
    let marked = binary_facts(alloc, rows)?;
    let DataTables { words, lists } = data_tables;
    row_tables_from_parts(alloc, rows, &words, lists, &marked)
}

/// The tables over what the rows of UnicodeData.txt give and over the marks.
fn row_tables_from_parts(
    alloc: Global,
    rows: &RowLists<'_>,
    data_words: &RunTable<u64>,
    lists: Box<DataLists>,
    marked: &RunTable<u64>,
) -> Result<RowTables, Memory>
    requires gives { (c : ℕ) → c < 1114112
        → data_now (record { words = data_words.now; lists = lists }) c
        ≡ row_data c (data_row (sources_of rows.now UnicodeData) c) }
    requires class { (c : ℕ) → class_in (data_row (sources_of rows.now UnicodeData) c) < 256 }
    requires marks { (c : ℕ) → c < 1114112
        → values_now marked.now c ≡ marks_at (sources_of rows.now) c }
    ensures { IfOk result (λ made. (c : ℕ) → c < 1114112
        → ShowsRows made (sources_of rows.now) c) }
{
    let cases = Box::new(alloc, case_images(alloc, rows)?)?;
    let words = sum_of_tables(alloc, data_words, marked)?;
    Ok(RowTables {
        words,
        lists,
        cases,
    })
}
