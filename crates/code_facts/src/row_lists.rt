//! The rows of a release, file by file.

ghost use Rattle.std.specs.Prelude.{◌≡◌, filter, IfOk};
ghost use Rattle.ucd_points.specs.declared.files.SourceFile.TheVariants.{UnicodeData, WordBreakProperty};
ghost use Rattle.release_rows.specs.Touching.{meets};
ghost use Rattle.release_rows.specs.ValuesApart.{AreValuesApart};
ghost use Rattle.code_facts.specs.Locality.{rows_within};
ghost use Rattle.code_facts.specs.RowLists.{AreRowsOf};
ghost use Rattle.release_rows.specs.Releases.{rows_now, rows_next};
ghost use Rattle.code_facts.specs.Rows.{Apart};

use release_rows::{Release, RowText};
use std::alloc::Global;
use ucd_facts::{Memory, SourceFile, Span};

/// The rows of the files that give facts, each in the order of its file, as they stand in it.
#[derive(Drop)]
pub struct RowLists<'a> {
    /// Those of UnicodeData.txt.
    pub unicode_data: Vec<RowText<'a>>,
    /// Those of CaseFolding.txt.
    pub case_folding: Vec<RowText<'a>>,
    /// Those of SpecialCasing.txt.
    pub special_casing: Vec<RowText<'a>>,
    /// Those of PropList.txt.
    pub prop_list: Vec<RowText<'a>>,
    /// Those of WordBreakProperty.txt.
    pub word_break: Vec<RowText<'a>>,
    /// Those of CompositionExclusions.txt.
    pub exclusions: Vec<RowText<'a>>,
}

impl<'a> RowLists<'a> {
    /// The rows of a release now. No two of UnicodeData.txt cover the same code point, nor two of WordBreakProperty.txt
    /// but missing rows.
    ///
    /// - `Memory`: memory ran out.
    pub fn of(alloc: Global, release: &'a Release) -> Result<RowLists<'a>, Memory>
        ensures rows { IfOk result (λ lists. AreRowsOf lists (rows_now release.now)) }
        ensures apart { IfOk result (λ lists. Apart lists.unicode_data.items) }
        ensures word_breaks_apart { IfOk result (λ lists. AreValuesApart lists.word_break.items) }
    {
        Ok(RowLists {
            unicode_data: data_rows_of(alloc, release)?,
            case_folding: rows_of(alloc, release, SourceFile::CaseFolding)?,
            special_casing: rows_of(alloc, release, SourceFile::SpecialCasing)?,
            prop_list: rows_of(alloc, release, SourceFile::PropList)?,
            word_break: word_breaks_of(alloc, release)?,
            exclusions: rows_of(alloc, release, SourceFile::CompositionExclusions)?,
        })
    }

    /// The rows of a release next that speak of a code point in some of the spans. No two of UnicodeData.txt cover the
    /// same code point, nor two of WordBreakProperty.txt but missing rows.
    ///
    /// - `Memory`: memory ran out.
    pub fn next_touching(
        alloc: Global,
        release: &'a Release,
        spans: &[Span],
    ) -> Result<RowLists<'a>, Memory>
        ensures rows { IfOk result
            (λ lists. AreRowsOf lists (rows_within (meets spans.now) (rows_next release.now))) }
        ensures apart { IfOk result (λ lists. Apart lists.unicode_data.items) }
        ensures word_breaks_apart { IfOk result (λ lists. AreValuesApart lists.word_break.items) }
    {
        Ok(RowLists {
            unicode_data: next_data_rows_in(alloc, release, spans)?,
            case_folding: release.next_rows_in(alloc, SourceFile::CaseFolding, spans)?,
            special_casing: release.next_rows_in(alloc, SourceFile::SpecialCasing, spans)?,
            prop_list: release.next_rows_in(alloc, SourceFile::PropList, spans)?,
            word_break: next_word_breaks_in(alloc, release, spans)?,
            exclusions: release.next_rows_in(alloc, SourceFile::CompositionExclusions, spans)?,
        })
    }
}

/// The rows of a file now, in the order of the file.
///
/// - `Memory`: memory ran out.
fn rows_of(alloc: Global, release: &Release, file: SourceFile) -> Result<Vec<RowText<'_>>, Memory>
    ensures { IfOk result (λ rows. rows.items ≡ rows_now release.now file) }
{
    let mut texts = Vec::new(alloc);
    let mut rows = release.rows(file);
    'rows: while let Some((_, row)) = rows.next() {
        texts.push(row)?;
    }
    Ok(texts)
}

/// The rows of UnicodeData.txt now. No two of them cover the same code point.
///
/// - `Memory`: memory ran out.
fn data_rows_of(alloc: Global, release: &Release) -> Result<Vec<RowText<'_>>, Memory>
    ensures rows { IfOk result (λ rows. rows.items ≡ rows_now release.now UnicodeData) }
    ensures apart { IfOk result (λ rows. Apart rows.items) }
{
    let _rows = release.rows(SourceFile::UnicodeData);
    rows_of(alloc, release, SourceFile::UnicodeData)
}

/// The rows of UnicodeData.txt next that speak of a code point in some of the spans. No two of them cover the same code
/// point.
///
/// - `Memory`: memory ran out.
fn next_data_rows_in<'a>(
    alloc: Global,
    release: &'a Release,
    spans: &[Span],
) -> Result<Vec<RowText<'a>>, Memory>
    ensures rows { IfOk result (λ rows. rows.items
        ≡ filter (meets spans.now) (rows_next release.now UnicodeData)) }
    ensures apart { IfOk result (λ rows. Apart rows.items) }
{
    let _rows = release.next_rows(SourceFile::UnicodeData);
    release.next_rows_in(alloc, SourceFile::UnicodeData, spans)
}

/// The rows of WordBreakProperty.txt now. No two of them but missing rows cover the same code point.
///
/// - `Memory`: memory ran out.
fn word_breaks_of(alloc: Global, release: &Release) -> Result<Vec<RowText<'_>>, Memory>
    ensures rows { IfOk result (λ rows. rows.items ≡ rows_now release.now WordBreakProperty) }
    ensures apart { IfOk result (λ rows. AreValuesApart rows.items) }
{
    let _rows = release.rows(SourceFile::WordBreakProperty);
    rows_of(alloc, release, SourceFile::WordBreakProperty)
}

/// The rows of WordBreakProperty.txt next that speak of a code point in some of the spans. No two of them but missing
/// rows cover the same code point.
///
/// - `Memory`: memory ran out.
fn next_word_breaks_in<'a>(
    alloc: Global,
    release: &'a Release,
    spans: &[Span],
) -> Result<Vec<RowText<'a>>, Memory>
    ensures rows { IfOk result (λ rows. rows.items
        ≡ filter (meets spans.now) (rows_next release.now WordBreakProperty)) }
    ensures apart { IfOk result (λ rows. AreValuesApart rows.items) }
{
    let _rows = release.next_rows(SourceFile::WordBreakProperty);
    release.next_rows_in(alloc, SourceFile::WordBreakProperty, spans)
}
