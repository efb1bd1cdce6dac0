//! What the rows of UnicodeData.txt give to each code point.

ghost use Rattle.std.specs.Prelude.{◌≡◌, ℕ, ◌<◌, true, Some, None, IfOk, OnOk, if◌then◌else◌};
ghost use Rattle.std.specs.Option.{option_to_list};
ghost use Rattle.range_table.specs.Values.{SameValues, with_span};
ghost use Rattle.fact_tables.specs.Word.{data_part};
ghost use Rattle.fact_tables.specs.WordRuns.{words_next};
ghost use Rattle.ucd_facts.specs.Facts.{within, mapping_in, data_row, class_in, is_hangul_syllable, hangul_mapping};
ghost use Rattle.ucd_points.specs.declared.files.SourceFile.TheVariants.{UnicodeData};
ghost use Rattle.ucd_facts.specs.declared.row.Row.TheVariants.{Unit as DataLine};
ghost use Rattle.code_facts.specs.RowLists.{sources_of};
ghost use Rattle.code_facts.specs.Rows.{row_data, Apart};
ghost use Rattle.code_facts.specs.DataTables.{Adds, AreEmpty, IsFresh, data_now, data_next, given_row};
ghost use Rattle.fact_tables.specs.PointLists.{lists_now, lists_next};

use crate::hangul::{hangul_mapping, syllables};
use crate::row_lists::RowLists;
use fact_tables::{DataLists, NO_ROW, PointLists, WordRuns, point};
use range_table::RunTable;
use release_rows::RowText;
use source_rows::{Mapping, PointValues, Values};
use std::alloc::Global;
use ucd_facts::{Kind, Memory, Point, Span};

/// The part of the word that the row of a code point gives, and its mappings.
#[derive(Drop)]
pub struct DataTables {
    /// The parts of the packed words.
    pub words: RunTable<u64>,
    /// The mappings.
    pub lists: Box<DataLists>,
}

impl DataTables {
    /// The tables of the rows of UnicodeData.txt among these.
    ///
    /// - `Memory`: memory ran out.
    pub fn of(alloc: Global, rows: &RowLists<'_>) -> Result<DataTables, Memory>
        requires { Apart rows.now.unicode_data.items }
        ensures gives { IfOk result (λ tables. (c : ℕ) → c < 1114112
            → data_now tables c ≡ row_data c (data_row (sources_of rows.now UnicodeData) c)) }
        ensures class { OnOk result ((c : ℕ)
            → class_in (data_row (sources_of rows.now UnicodeData) c) < 256) }
    {
        DataTables::of_rows(alloc, &rows.unicode_data)
    }

    /// The tables of these rows.
    ///
    /// - `Memory`: memory ran out.
    fn of_rows(alloc: Global, rows: &[RowText<'_>]) -> Result<DataTables, Memory>
        requires { Apart rows.now }
        ensures gives { IfOk result (λ tables. (c : ℕ) → c < 1114112
            → data_now tables c ≡ row_data c (data_row rows.now c)) }
        ensures class { OnOk result ((c : ℕ) → class_in (data_row rows.now c) < 256) }
    {
        let mut given = DataRuns::new(alloc)?;
        given.add_rows(alloc, rows)?;
        given.into_tables()
    }
}

/// The part of the word that the row of a code point gives, and its mappings, while rows are added.
#[derive(Drop)]
pub struct DataRuns {
    /// The parts of the packed words.
    pub words: WordRuns,
    /// The mappings.
    pub lists: Box<DataLists>,
}

impl DataRuns {
    /// What no rows give.
    fn new(alloc: Global) -> Result<DataRuns, Memory>
        ensures { IfOk result (λ given. (c : ℕ) → c < 1114112
            → data_next given c ≡ row_data c None) }
    {
        let lists = Box::new(alloc, DataLists::new(alloc)?)?;
        Ok(DataRuns {
            words: WordRuns::filled(alloc, NO_ROW)?,
            lists,
        })
    }

    /// Gives the points of these rows what the rows give. No row has given them anything.
    fn add_rows(&mut self, alloc: Global, rows: &[RowText<'_>]) -> Result<(), Memory>
        requires apart { Apart rows.now }
        requires fresh { (c : ℕ) → c < 1114112 → data_next self.old c ≡ row_data c None }
        ensures gives { OnOk result ((c : ℕ) → c < 1114112
            → data_next self.new c ≡ row_data c (data_row rows.now c)) }
        ensures class { OnOk result ((c : ℕ) → class_in (data_row rows.now c) < 256) }
    {
        'rows: for row in rows {
            self.add_text(alloc, row)?;
        }
        Ok(())
    }

    /// Gives the points of a row what the row gives, if it is a row of UnicodeData.txt. No row has given them anything.
    fn add_text(&mut self, alloc: Global, row: &RowText<'_>) -> Result<(), Memory>
        requires { IsFresh row.now (data_next self.old) }
        ensures { OnOk result (Adds row.now (data_next self.old) (data_next self.new)) }
    {
        match row.point_values() {
            Some(given) => self.add(alloc, &given),
            None => Ok(()),
        }
    }

    /// Gives the points of a row what the row gives. No row has given them anything.
    fn add(&mut self, alloc: Global, row: &PointValues<'_>) -> Result<(), Memory>
        requires fresh { IsFresh (DataLine (given_row row.now)) (data_next self.old) }
        ensures gives { OnOk result ((c : ℕ) → c < 1114112
            → data_next self.new c
            ≡ (if within c row.now.span then row_data c (Some (given_row row.now))
            else data_next self.old c)) }
        ensures class { row.now.values.class < 256 }
    {
        add_word(&mut self.words, row)?;
        add_mapping(alloc, &mut self.lists.mappings, row)?;
        add_simple(&mut self.lists.uppers, row.span, row.values.upper)?;
        add_simple(&mut self.lists.lowers, row.span, row.values.lower)?;
        add_simple(&mut self.lists.titles, row.span, row.values.title)
    }

    /// The tables of what was given.
    ///
    /// - `Memory`: memory ran out.
    fn into_tables(self) -> Result<DataTables, Memory>
        ensures { IfOk result (λ tables. (c : ℕ) → c < 1114112
            → data_now tables c ≡ data_next self c) }
    {
        let DataRuns { words, mut lists } = self;
        lists.mappings.commit();
        lists.uppers.commit();
        lists.lowers.commit();
        lists.titles.commit();
        Ok(DataTables {
            words: words.into_table()?,
            lists,
        })
    }
}

/// Gives the points of a row its part of the word.
fn add_word(words: &mut WordRuns, row: &PointValues<'_>) -> Result<(), Memory>
    ensures word { OnOk result ((c : ℕ) → c < 1114112
        → words_next words.new c
        ≡ (if within c row.now.span then (row_data c (Some (given_row row.now))).word
        else words_next words.old c)) }
    ensures class { row.now.values.class < 256 }
{
    let kind = row.values.decomposition.kind;
    words.put(row.span, data_word(&row.values, kind))?;
    if let Kind::Plain = kind
        && let Some(part) = syllables(row.span)
    {
        words.put(part, data_word(&row.values, Kind::Canonical))?;
    }
    Ok(())
}

/// The part of the word that a row of UnicodeData.txt gives with these values and a mapping of this kind.
fn data_word(values: &Values<'_>, kind: Kind) -> u64
    ensures value { result ≡ data_part true values.now.category values.now.class kind }
    ensures class { values.now.class < 256 }
{
    let class = values.class;
    1 + 8 * values.category.place() as u64 + 256 * u64::from(class) + 65_536 * kind.place() as u64
}

/// Gives the points of a row its mapping, or that of a Hangul syllable. They have none yet.
fn add_mapping(
    alloc: Global,
    mappings: &mut PointLists,
    row: &PointValues<'_>,
) -> Result<(), Memory>
    requires { AreEmpty (lists_next mappings.old) row.now.span }
    ensures { OnOk result ((c : ℕ) → c < 1114112
        → lists_next mappings.new c
        ≡ (if within c row.now.span then mapping_in c (Some (given_row row.now))
        else lists_next mappings.old c)) }
{
    let mapping = row.values.decomposition.mapping.duplicate();
    put_mapping(alloc, mappings, row.span, mapping)?;
    if let Kind::Plain = row.values.decomposition.kind
        && let Some(part) = syllables(row.span)
    {
        add_syllables(mappings, part)?;
    }
    Ok(())
}

/// Gives the points of a span a copy of a mapping. They have none yet. For an empty one nothing is done.
fn put_mapping(
    alloc: Global,
    mappings: &mut PointLists,
    span: Span,
    mapping: Mapping<'_>,
) -> Result<(), Memory>
    requires { AreEmpty (lists_next mappings.old) span }
    ensures { OnOk result (SameValues (lists_next mappings.new)
        (with_span (lists_next mappings.old) span.lo span.hi mapping.entry)) }
{
    if mapping.len() == 0 {
        return Ok(());
    }
    let points = mapping.copied(alloc)?;
    mappings.prepare(span, points.as_slice())
}

/// Gives each syllable of a span its mapping.
fn add_syllables(mappings: &mut PointLists, part: Span) -> Result<(), Memory>
    requires { (c : ℕ) → within c part ≡ true → is_hangul_syllable c ≡ true }
    ensures { OnOk result ((c : ℕ) → c < 1114112 → lists_next mappings.new c
        ≡ (if within c part then hangul_mapping c else lists_next mappings.old c)) }
{
    'syllables: for number in part.first()..part.last() + 1 {
        let syllable = point(number);
        mappings.prepare(Span::one(syllable), &hangul_mapping(syllable))?;
    }
    Ok(())
}

/// Gives the points of a span a simple mapping. They have none yet.
fn add_simple(lists: &mut PointLists, span: Span, image: Option<Point>) -> Result<(), Memory>
    requires { AreEmpty (lists_next lists.old) span }
    ensures { OnOk result (SameValues (lists_next lists.new)
        (with_span (lists_next lists.old) span.lo span.hi (option_to_list image))) }
{
    match image {
        Some(image) => lists.prepare(span, &[image]),
        None => Ok(()),
    }
}
