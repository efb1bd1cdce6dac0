//! The derivation of all code points, from the first one on.

ghost use Rattle.std.specs.Prelude.{◌≡◌, ℕ, ◌+◌, ◌-◌, ◌<◌, ◌≤◌, Ok, IfOk, IfErr, IsTrue, OnOk};
ghost use Rattle.fact_tables.specs.FactTables.{tables_facts};
ghost use Rattle.paged_table.specs.Paged.{values_now};
ghost use Rattle.range_table.specs.Values.{SameValues};
ghost use Rattle.record_table.specs.Records.{record_next, record_now};
ghost use Rattle.ucd_points.specs.Limits.{point_count};
ghost use Rattle.ucd_facts.specs.Facts.{Facts};
ghost use Rattle.ucd_facts.specs.Predicates.{is_visible_format};
ghost use Rattle.ucd_model.specs.Records.{derived, kept_record, record_at};
ghost use Rattle.ucd_model.specs.ValidityLaws.{IsValid};
ghost use Rattle.edit_session.specs.Benches.{NamesBroken};
ghost use Rattle.edit_session.specs.FirstRecords.{DerivedBelow, IsFound, IsRecordSpan, IsValidBelow, SameRecords, StandsBehind};

use crate::open_stop::OpenStop;
use code_facts::FactTables;
use identifier_closure::derive_record;
use paged_table::PagedTable;
use record_table::RecordTable;
use std::alloc::Global;
use std::sync::ledger::Ledger;
use ucd_model::{FactView, FormStop, Memory, Point, Record, Span, Steps};

/// Code points that stand together, and the record that each of them has.
#[derive(Drop)]
struct RecordSpan {
    span: Span,
    value: Record,
}

/// The records that are derived from the facts of all code points. Code points that stand together and are uniform are
/// derived in one step. UAX #44, section 5.3.
///
/// - `Invalid { rule, point }`: a code point breaks a rule of a valid release: the least one, with its first rule.
/// - `Memory`: memory ran out.
pub fn derive_all<L: Ledger>(
    alloc: Global,
    tables: &FactTables<PagedTable>,
    steps: &mut Steps<L>,
) -> Result<RecordTable, OpenStop>
    ensures valid { OnOk result (IsValid (tables_facts values_now tables.now)) }
    ensures records { IfOk result
        (λ table. SameRecords (record_now table)
        (record_at (tables_facts values_now tables.now))) }
    ensures still { IfOk result (λ table. SameValues (record_next table) (record_now table)) }
    ensures invalid { IfErr result (λ stop. NamesBroken stop (tables_facts values_now tables.now)) }
    ensures steps { steps.new ≤ steps.old + point_count }
{
    let mut table = table_of_first_record(alloc, tables, steps)?;
    derive_behind(alloc, tables, &mut table, steps)?;
    table.commit();
    table.shrink_to_fit();
    Ok(table)
}

/// The table in which all code points have the record of the first one, which is derived in one step.
fn table_of_first_record<L: Ledger>(
    alloc: Global,
    tables: &FactTables<PagedTable>,
    steps: &mut Steps<L>,
) -> Result<RecordTable, OpenStop>
    ensures records { IfOk result
        (λ table. DerivedBelow (record_next table) 1 (tables_facts values_now tables.now)) }
    ensures invalid { IfErr result (λ stop. NamesBroken stop (tables_facts values_now tables.now)) }
    ensures step { steps.new ≡ steps.old + 1 }
{
    match derive_one(alloc, tables, Point::at(0), steps) {
        Ok(value) => {
            // of three mappings about two are those of Hangul syllables, which share their records
            let records = tables.mapping_count() / 3;
            let table = RecordTable::with_room(alloc, value, records, tables.packed().pages())?;
            Ok(table)
        }
        Err(stop) => Err(stop),
    }
}

/// Gives the code points behind the first one the records that are derived of them, next. Runs that follow one another and
/// have one record, as those of Hangul syllables, are given it together.
fn derive_behind<L: Ledger>(
    alloc: Global,
    tables: &FactTables<PagedTable>,
    table: &mut RecordTable,
    steps: &mut Steps<L>,
) -> Result<(), OpenStop>
    requires { DerivedBelow (record_next table.old) 1 (tables_facts values_now tables.now) }
    ensures records { OnOk result
        (DerivedBelow (record_next table.new) 1114112 (tables_facts values_now tables.now)) }
    ensures invalid { IfErr result (λ stop. NamesBroken stop (tables_facts values_now tables.now)) }
    ensures steps { steps.new + 1 ≤ steps.old + 1114112 }
{
    let mut run = derive_run(alloc, tables, Point::at(1), steps)?;
    'runs: while run.span.last() + 1 < Point::COUNT {
        let next = derive_run(alloc, tables, Point::at(run.span.last() + 1), steps)?;
        run = put_or_join(table, run, next)?;
    }
    table.prepare_span(run.span, run.value)?;
    Ok(())
}

/// Derives a code point in one step. The answer is its record, with the code points from it on that have the same record,
/// as far as few look-ups tell.
fn derive_run<L: Ledger>(
    alloc: Global,
    tables: &FactTables<PagedTable>,
    c: Point,
    steps: &mut Steps<L>,
) -> Result<RecordSpan, OpenStop>
    requires { IsValidBelow (tables_facts values_now tables.now) c }
    ensures first { IfOk result (λ run. run.span.lo ≡ c) }
    ensures run { IfOk result (IsRecordSpan (tables_facts values_now tables.now)) }
    ensures invalid { IfErr result (λ stop. NamesBroken stop (tables_facts values_now tables.now)) }
    ensures step { steps.new ≡ steps.old + 1 }
{
    let _number = c.number();
    match derive_one(alloc, tables, c, steps) {
        Ok(value) => {
            let end = end_of_alike(tables, c);
            Ok(RecordSpan {
                span: span_up_to(c, end),
                value,
            })
        }
        Err(stop) => Err(stop),
    }
}

/// Two runs that follow one another as one, if they have one record. Else the first is given its record next, and the
/// answer is the second.
///
/// - `Memory`: memory ran out. What is next stays.
fn put_or_join(
    table: &mut RecordTable,
    run: RecordSpan,
    next: RecordSpan,
) -> Result<RecordSpan, Memory>
    requires { next.span.lo ≡ run.span.hi + 1 }
    ensures { IfOk result (λ left. (F : ℕ → Facts) → IsRecordSpan F run → IsRecordSpan F next
        → DerivedBelow (record_next table.old) run.span.lo F
        → StandsBehind F (record_next table.new) left next.span.hi) }
{
    if has_one_record(&run, &next) {
        return Ok(RecordSpan {
            span: span_of_both(run.span, next.span),
            value: run.value,
        });
    }
    table.prepare_span(run.span, run.value)?;
    Ok(next)
}

/// Whether two runs have one record.
fn has_one_record(run: &RecordSpan, next: &RecordSpan) -> bool
    ensures { IsTrue result → kept_record run.now.value ≡ kept_record next.now.value }
{
    run.value.is_same(&next.value)
}

/// Two spans that follow one another as one.
fn span_of_both(span: Span, next: Span) -> Span
    requires { next.lo ≡ span.hi + 1 }
    ensures { result ≡ record { lo = span.lo; hi = next.hi } }
{
    Span {
        lo: span.lo,
        hi: next.hi,
    }
}

/// The span from a code point up to before a number.
fn span_up_to(c: Point, end: u32) -> Span
    requires from { c < end }
    requires inside { end ≤ 1114112 }
    ensures { result ≡ record { lo = c; hi = end - 1 } }
{
    match Span::new(c, Point::at(end - 1)) {
        Some(span) => span,
        None => unreachable!(),
    }
}

/// One past a code point that has a mapping; else, one past the last code point up to which all from it on have no mapping
/// and the same record, as far as few look-ups tell.
fn end_of_alike(tables: &FactTables<PagedTable>, c: Point) -> u32
    ensures from { c < result }
    ensures inside { result ≤ 1114112 }
    ensures alike { (d : ℕ) → c ≤ d → d < result
        → derived (tables_facts values_now tables.now) d
        ≡ derived (tables_facts values_now tables.now) c }
{
    match tables.last_uniform(c) {
        Some(last) => (last.number() + 1).min(end_of_visible_format_run(c)),
        None => c.number() + 1,
    }
}

/// One past the last code point up to which all from `c` on are format characters that are shown, or none of them is.
fn end_of_visible_format_run(c: Point) -> u32
    ensures from { c < result }
    ensures inside { result ≤ 1114112 }
    ensures same { (d : ℕ) → c ≤ d → d < result → is_visible_format d ≡ is_visible_format c }
{
    match c.number() {
        0..0xFFF9 => 0xFFF9,
        0xFFF9..0xFFFC => 0xFFFC,
        0xFFFC..0x13430 => 0x13430,
        0x13430..0x13440 => 0x13440,
        _ => Point::COUNT,
    }
}

/// The record of a code point, or the first rule that it breaks. Either takes one step.
fn derive_one<W: FactView, L: Ledger>(
    alloc: Global,
    view: &W,
    c: Point,
    steps: &mut Steps<L>,
) -> Result<Record, OpenStop>
    ensures found { IsFound (W.facts_of view.now) c result }
    ensures step { steps.new ≡ steps.old + 1 }
{
    match derive_record(alloc, view, c, steps) {
        Ok(value) => Ok(value),
        Err(FormStop::Bad(rule)) => Err(OpenStop::Invalid { rule, point: c }),
        Err(FormStop::Memory) => Err(OpenStop::Memory),
    }
}
