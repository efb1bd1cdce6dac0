//! The derivation of some code points, which is counted.

ghost use Rattle.std.specs.Prelude.{◌≡◌, ◌+◌, ◌≤◌, length, Ok, Err, IfErr, IfOk, OnOk};
ghost use Rattle.range_table.specs.Values.{SameValues, with_span};
ghost use Rattle.record_table.specs.Records.{record_next, record_now};
ghost use Rattle.ucd_model.specs.Records.{derived, kept_record, record_at};
ghost use Rattle.dependency_map.specs.Maps.{asked_at};
ghost use Rattle.record_turns.specs.Again.{AsksAnew, IsAgain, IsAskedAnew, IsFound, IsPut, StopsAt};

use crate::again_stop::AgainStop;
use dependency_map::DependencyMap;
use point_queries::{Derived, derive_point};
use point_store::Store;
use record_table::RecordTable;
use std::alloc::Global;
use std::sync::ledger::Ledger;
use ucd_model::{FactView, FormStop, Memory, Point, Points, Queries, Record, Records, Span, Steps};

/// Derives code points over facts, prepares their records and what they ask, and answers those whose records differ from
/// the ones now, in order. No record may have been prepared before. Each record is put before the next one is made. The
/// counter of steps rises by at most the number of code points.
///
/// - `Broken { rule, point }`: a code point breaks a rule of a valid release: the first of them, with its first rule.
/// - `Memory`: memory ran out.
///
/// After either, some records and what some of the code points ask may be prepared.
pub fn derive_again<W: FactView, S: Store<Option<Queries>>, L: Ledger>(
    alloc: Global,
    view: &W,
    points: &[Point],
    records: &mut RecordTable,
    map: &mut DependencyMap<S>,
    steps: &mut Steps<L>,
) -> Result<Points, AgainStop>
    requires { SameValues (record_next records.old) (record_now records.old) }
    ensures again { IfOk result (λ changed. IsAgain (record_now records.old)
        (W.facts_of view.now) points.now changed (record_next records.new)) }
    ensures asks { OnOk result (AsksAnew (W.facts_of view.now) points.now (asked_at S.next map.old)
        (asked_at S.next map.new)) }
    ensures kept { SameValues (record_now records.new) (record_now records.old) }
    ensures now { SameValues (asked_at S.now map.new) (asked_at S.now map.old) }
    ensures stop { IfErr result (λ stop. StopsAt (W.facts_of view.now) points.now stop) }
    ensures steps { steps.new ≤ steps.old + length points.now }
{
    let mut changed = Points::new(alloc);
    'points: for c in points {
        derive_point_again(alloc, view, *c, records, map, &mut changed, steps)?;
    }
    Ok(changed)
}

/// Derives a code point, prepares its record and what it asks, and puts it behind others if its record differs from the one
/// now, in one step.
fn derive_point_again<W: FactView, S: Store<Option<Queries>>, L: Ledger>(
    alloc: Global,
    view: &W,
    c: Point,
    records: &mut RecordTable,
    map: &mut DependencyMap<S>,
    changed: &mut Points,
    steps: &mut Steps<L>,
) -> Result<(), AgainStop>
    ensures has { OnOk result (derived (W.facts_of view.now) c
        ≡ Ok (record_at (W.facts_of view.now) c)) }
    ensures put { OnOk result (IsPut (record_now records.old c) c
        (record_at (W.facts_of view.now) c) changed.old changed.new (record_next records.old)
        (record_next records.new)) }
    ensures asked { OnOk result (IsAskedAnew (W.facts_of view.now) c (asked_at S.next map.old)
        (asked_at S.next map.new)) }
    ensures kept { SameValues (record_now records.new) (record_now records.old) }
    ensures now { SameValues (asked_at S.now map.new) (asked_at S.now map.old) }
    ensures stop { IfErr result (λ stop. IsFound (W.facts_of view.now) c (Err stop)) }
    ensures step { steps.new ≡ steps.old + 1 }
{
    match derive_with_questions(alloc, view, c, steps) {
        Ok(found) => Ok(prepare_derived_point(c, found, records, map, changed)?),
        Err(stop) => Err(stop),
    }
}

/// Prepares what a code point asks, and its record, and puts it behind others, if the record differs from the one now.
///
/// - `Memory`: memory ran out. Either may be prepared.
fn prepare_derived_point<S: Store<Option<Queries>>>(
    c: Point,
    found: Derived,
    records: &mut RecordTable,
    map: &mut DependencyMap<S>,
    changed: &mut Points,
) -> Result<(), Memory>
    ensures put { OnOk result (IsPut (record_now records.old c) c
        (kept_record found.value) changed.old changed.new (record_next records.old)
        (record_next records.new)) }
    ensures asked { OnOk result (SameValues (asked_at S.next map.new)
        (with_span (asked_at S.next map.old) c c found.asked)) }
    ensures kept { SameValues (record_now records.new) (record_now records.old) }
    ensures now { SameValues (asked_at S.now map.new) (asked_at S.now map.old) }
{
    map.prepare(c, &found.asked)?;
    put_if_changed(c, found.value, records, changed)
}

/// Prepares the record of a code point, and puts this behind others, if the record differs from the one now.
///
/// - `Memory`: memory ran out. The record may be prepared.
fn put_if_changed(
    c: Point,
    value: Record,
    records: &mut RecordTable,
    changed: &mut Points,
) -> Result<(), Memory>
    ensures put { OnOk result (IsPut (record_now records.old c) c
        (kept_record value) changed.old changed.new (record_next records.old)
        (record_next records.new)) }
    ensures kept { SameValues (record_now records.new) (record_now records.old) }
{
    let _number = c.number();
    if !records.record(c).is_same(&value) {
        changed.push(c)?;
        records.prepare_span(Span::one(c), value)?;
    }
    Ok(())
}

/// The record of a code point and what it asks, or the first rule that it breaks, in one step.
fn derive_with_questions<W: FactView, L: Ledger>(
    alloc: Global,
    view: &W,
    c: Point,
    steps: &mut Steps<L>,
) -> Result<Derived, AgainStop>
    ensures found { IsFound (W.facts_of view.now) c result }
    ensures step { steps.new ≡ steps.old + 1 }
{
    match derive_point(alloc, view, c, steps) {
        Ok(found) => Ok(found),
        Err(FormStop::Bad(rule)) => Err(AgainStop::Broken { rule, point: c }),
        Err(FormStop::Memory) => Err(AgainStop::Memory),
    }
}
