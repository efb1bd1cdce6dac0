//! A turn: what is kept of all code points goes from the facts of one release to those of the next one.

ghost use Rattle.std.specs.Prelude.{◌≡◌, ℕ, IfErr, IfOk, OnErr};
ghost use Rattle.range_table.specs.Values.{SameValues};
ghost use Rattle.ucd_facts.specs.Facts.{Facts};
ghost use Rattle.record_table.specs.Records.{record_next, record_now};
ghost use Rattle.dependency_map.specs.Maps.{asked_at};
ghost use Rattle.record_turns.specs.Turned.{CountsWithin, IsReady, IsTurned, StopsTurn};

use crate::again_stop::AgainStop;
use crate::points_again::derive_again;
use dependency_map::DependencyMap;
use point_store::Store;
use record_table::RecordTable;
use std::alloc::Global;
use std::sync::ledger::Ledger;
use ucd_model::{FactView, Points, Queries, Steps};

/// Derives code points that ask one of the questions over the facts of a view, prepares their records and what they
/// ask, and answers those whose records differ, in ascending order. Nothing may have been prepared before.
///
/// The questions are those that the view answers differently from the facts that the records are of, and the map tells who
/// asks one of them; of other questions it need not tell. The counter rises by at most the number of code points that
/// depend on the change.
///
/// - `Broken { rule, point }`: the facts of the view are not valid. The least code point that breaks a rule is named, with
///   its first rule.
/// - `Memory`: memory ran out.
///
/// After either, what is next stays too.
pub fn turn<W: FactView, S: Store<Option<Queries>>, L: Ledger>(
    alloc: Global,
    view: &W,
    queries: &Queries,
    records: &mut RecordTable,
    map: &mut DependencyMap<S>,
    steps: &mut Steps<L>,
) -> Result<Points, AgainStop>
    requires still { SameValues (record_next records.old) (record_now records.old) }
    requires unasked { SameValues (asked_at S.next map.old) (asked_at S.now map.old) }
    ensures now { SameValues (record_now records.new) (record_now records.old) }
    ensures asked { SameValues (asked_at S.now map.new) (asked_at S.now map.old) }
    ensures turned { IfOk result (λ changed. (F : ℕ → Facts)
        → IsReady F (W.facts_of view.now) (record_now records.old) (asked_at S.now map.old)
        (asked_at S.next map.old) queries.now
        → IsTurned F (W.facts_of view.now) (record_next records.new) (asked_at S.now map.old)
        (asked_at S.next map.new) queries.now changed) }
    ensures stop { IfErr result (λ stop. (F : ℕ → Facts)
        → IsReady F (W.facts_of view.now) (record_now records.old) (asked_at S.now map.old)
        (asked_at S.next map.old) queries.now → StopsTurn (W.facts_of view.now) stop) }
    ensures steps { (F : ℕ → Facts)
        → IsReady F (W.facts_of view.now) (record_now records.old) (asked_at S.now map.old)
        (asked_at S.next map.old) queries.now
        → CountsWithin F (W.facts_of view.now) steps.old steps.new }
    ensures err { OnErr result (SameValues (record_next records.new) (record_next records.old)) }
    ensures dropped { OnErr result
        (SameValues (asked_at S.next map.new) (asked_at S.next map.old)) }
{
    match turn_without_discard(alloc, view, queries, records, map, steps) {
        Ok(changed) => Ok(changed),
        Err(stop) => {
            records.discard();
            map.discard();
            Err(stop)
        }
    }
}

/// What `turn` does. After either error, some may be prepared.
fn turn_without_discard<W: FactView, S: Store<Option<Queries>>, L: Ledger>(
    alloc: Global,
    view: &W,
    queries: &Queries,
    records: &mut RecordTable,
    map: &mut DependencyMap<S>,
    steps: &mut Steps<L>,
) -> Result<Points, AgainStop>
    requires still { SameValues (record_next records.old) (record_now records.old) }
    ensures now { SameValues (record_now records.new) (record_now records.old) }
    ensures asked { SameValues (asked_at S.now map.new) (asked_at S.now map.old) }
    ensures turned { IfOk result (λ changed. (F : ℕ → Facts)
        → IsReady F (W.facts_of view.now) (record_now records.old) (asked_at S.now map.old)
        (asked_at S.next map.old) queries.now
        → IsTurned F (W.facts_of view.now) (record_next records.new) (asked_at S.now map.old)
        (asked_at S.next map.new) queries.now changed) }
    ensures stop { IfErr result (λ stop. (F : ℕ → Facts)
        → IsReady F (W.facts_of view.now) (record_now records.old) (asked_at S.now map.old)
        (asked_at S.next map.old) queries.now → StopsTurn (W.facts_of view.now) stop) }
    ensures steps { (F : ℕ → Facts)
        → IsReady F (W.facts_of view.now) (record_now records.old) (asked_at S.now map.old)
        (asked_at S.next map.old) queries.now
        → CountsWithin F (W.facts_of view.now) steps.old steps.new }
{
    let points = map.collect(alloc, queries)?;
    match derive_again(alloc, view, points.as_slice(), records, map, steps) {
        Ok(changed) => Ok(changed),
        Err(stop) => Err(stop),
    }
}
