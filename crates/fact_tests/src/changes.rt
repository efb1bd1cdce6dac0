//! Questions that an edit of facts answers differently.

ghost use Rattle.std.specs.Prelude.{◌≡◌, ℕ, ◌<◌, true, IfOk};
ghost use Rattle.std.specs.List.{list_any};
ghost use Rattle.ucd_facts.specs.Facts.{within};
ghost use Rattle.range_table.specs.RunTable.{values_now};
ghost use Rattle.fact_tables.specs.FactTables.{tables_facts, tables_next};

use code_facts::{FactTables, FromRelease};
use range_table::RunTable;
use release_rows::Release;
use std::alloc::Global;
use std::process::Abort;
use std::test::Fail;
use ucd_facts::{Memory, Point, Query, SourceFile, Span, Spans};

pub type Tables = FactTables<RunTable<u64>>;

/// The code point of a number.
pub fn point(number: u32) -> Point
    requires { number < 1114112 }
    ensures { result ≡ number }
{
    Point::new(number).unwrap()
}

/// The span of all code points.
fn everywhere(alloc: Global) -> Result<Spans, Memory>
    ensures { IfOk result (λ spans. (c : ℕ) → c < 1114112 → list_any (within c) spans ≡ true) }
{
    let mut spans = Spans::new(alloc);
    spans.push(Span {
        lo: point(0),
        hi: point(Point::COUNT - 1),
    })?;
    Ok(spans)
}

/// The tables of a release without rows.
pub fn empty_tables(alloc: Global) -> Result<Box<Tables>, Memory>
    ensures { IfOk result (λ tables. tables_next values_now tables.value
        ≡ tables_facts values_now tables.value) }
{
    let release = Release::empty(alloc);
    Ok(Box::new(alloc, FactTables::of(alloc, &release)?)?)
}

/// Prepares the facts of the rows of a release next, wherever they are.
pub fn prepare(alloc: Global, tables: &mut Tables, after: &Release) -> Result<(), Memory>
    requires { tables_next values_now tables.old ≡ tables_facts values_now tables.old }
{
    let touched = everywhere(alloc)?;
    tables.prepare(alloc, after, &touched)
}

/// The questions that now and next do not answer alike.
fn asks(rt: &impl Abort, alloc: Global, tables: &Tables, expected: &[Query]) -> Result<(), Fail> {
    let queries = tables.queries_changed(alloc)?;
    assert_eq!(rt; queries.as_slice(), expected);
    Ok(())
}

/// Once two rows are there, the pair of 0041 and 0300 has the composite 00C0; once 0041 has class 230, it has none.
fn asked_steps(
    rt: &impl Abort,
    alloc: Global,
    tables: &mut Tables,
    letters: &Release,
    mark: &Release,
) -> Result<(), Fail>
    requires { tables_next values_now tables.old ≡ tables_facts values_now tables.old }
{
    prepare(alloc, tables, letters)?;
    asks(rt, alloc, tables, &both_rows())?;
    tables.commit();
    asks(rt, alloc, tables, &[])?;
    prepare(alloc, tables, mark)?;
    asks(rt, alloc, tables, &one_row())?;
    tables.discard();
    asks(rt, alloc, tables, &[])
}

/// The questions on the facts of 0041 and 00C0, and on their pair.
fn both_rows() -> [Query; 4] {
    [
        Query::Row(point(0x41)),
        Query::Row(point(0xC0)),
        Query::Pair(point(0x41), point(0x300)),
        Query::Second(point(0x300)),
    ]
}

/// The questions on the facts of 0041 and on the pair that it begins.
fn one_row() -> [Query; 3] {
    [
        Query::Row(point(0x41)),
        Query::Pair(point(0x41), point(0x300)),
        Query::Second(point(0x300)),
    ]
}

#[test]
fn what_changed_is_asked(rt: HostRuntime) -> Result<(), Fail> {
    let alloc = rt.alloc();
    let mut letters = Release::empty(alloc);
    letters.load_file(
        SourceFile::UnicodeData,
        b"0041;LATIN CAPITAL LETTER A;Lu;0;L;;;;;N;;;;0061;\n00C0;LATIN CAPITAL LETTER A WITH GRAVE;Lu;0;L;0041 0300;;;;N;LATIN CAPITAL LETTER A GRAVE;;;00E0;\n",
    )?;
    let mut mark = Release::empty(alloc);
    mark.load_file(
        SourceFile::UnicodeData,
        b"0041;LATIN CAPITAL LETTER A;Lu;230;L;;;;;N;;;;0061;\n00C0;LATIN CAPITAL LETTER A WITH GRAVE;Lu;0;L;0041 0300;;;;N;LATIN CAPITAL LETTER A GRAVE;;;00E0;\n",
    )?;
    let mut tables = empty_tables(alloc)?;
    asked_steps(&rt, alloc, &mut tables, &letters, &mark)
}
