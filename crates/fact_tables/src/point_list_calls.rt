//! Reading and changing the lists of code points.

ghost use Rattle.std.specs.Prelude.{◌≡◌, ◌<◌, ◌≤◌, ℕ, [], vec_len, OnOk, IfOk};
ghost use Rattle.range_table.specs.Values.{SameValues, with_span};
ghost use Rattle.fact_tables.specs.Lists.{LiesIn, slice_at};
ghost use Rattle.ucd_points.specs.Stretches.{HoldsTo};
ghost use Rattle.fact_tables.specs.PointLists.{lists_now, lists_next};

use crate::list_run::ListRun;
use crate::point_lists::PointLists;
use crate::pool_range::PoolRange;
use range_table::{RunTable, Table};
use std::alloc::Global;
use ucd_facts::{Memory, Point, Span};

impl PointLists {
    /// The lists that are all empty.
    ///
    /// - `Memory`: memory ran out.
    pub fn new(alloc: Global) -> Result<PointLists, Memory>
        ensures current { IfOk result (λ lists. (c : ℕ) → c < 1114112 → lists_now lists c ≡ []) }
        ensures prepared { IfOk result (λ lists. (c : ℕ) → c < 1114112 → lists_next lists c ≡ []) }
    {
        let pool = Vec::new(alloc);
        let places = RunTable::filled(alloc, PoolRange { start: 0, end: 0 })?;
        Ok(PointLists { places, pool })
    }

    /// The list of a code point now.
    pub fn get(&self, c: Point) -> &[Point]
        ensures { result.now ≡ lists_now self.now c }
    {
        let place = self.places.get(c);
        &self.pool[place.start as usize..place.end as usize]
    }

    /// The list of a code point now, and the end of a stretch from there on in which all code points have it. Equal
    /// lists that were given apart may stand in two stretches. The index behind `near` and `near` itself are tried
    /// first.
    pub fn run(&self, c: Point, near: usize) -> ListRun<'_>
        ensures points { result.points.now ≡ lists_now self.now c }
        ensures same { HoldsTo (λ k. lists_now self.now k ≡ lists_now self.now c) c result.last }
    {
        let run = self.places.run(c, near);
        let place = run.value;
        ListRun {
            points: &self.pool[place.start as usize..place.end as usize],
            last: run.last,
            index: run.index,
        }
    }

    /// The end of a stretch from a code point on in which all code points have now its list. Equal lists that were given
    /// apart may stand in two stretches.
    pub fn last_of_run(&self, c: Point) -> Point
        ensures from { c ≤ result }
        ensures same { (k : ℕ) → c ≤ k → k ≤ result → lists_now self.now k ≡ lists_now self.now c }
    {
        self.places.last_of_run(c)
    }

    /// Gives the points of a span a list next. What is now stays.
    ///
    /// - `Memory`: memory ran out, or the lists would have 2^32 points or more. Nothing is then known of them.
    pub fn prepare(&mut self, span: Span, points: &[Point]) -> Result<(), Memory>
        ensures current { OnOk result (SameValues (lists_now self.new) (lists_now self.old)) }
        ensures ok { OnOk result (SameValues (lists_next self.new)
            (with_span (lists_next self.old) span.lo span.hi points.now)) }
    {
        let place = put_in_pool(&mut self.pool, points)?;
        self.places.prepare(span, place)
    }

    /// What is next becomes now, and stays next. It takes no memory.
    pub fn commit(&mut self)
        ensures committed { SameValues (lists_now self.new) (lists_next self.old) }
        ensures next { SameValues (lists_next self.new) (lists_next self.old) }
    {
        self.places.commit();
    }
}

/// Puts points at the end of a pool, and answers their place. No points have a place of their own.
///
/// - `Memory`: memory ran out, or the pool would have 2^32 points or more.
fn put_in_pool(pool: &mut Vec<Point>, points: &[Point]) -> Result<PoolRange, Memory>
    ensures longer { vec_len pool.old ≤ vec_len pool.new }
    ensures others { (place : PoolRange) → LiesIn (vec_len pool.old) place
        → slice_at pool.new.items place ≡ slice_at pool.old.items place }
    ensures place { IfOk result (λ place. LiesIn (vec_len pool.new) place) }
    ensures points { IfOk result (λ place. slice_at pool.new.items place ≡ points.now) }
{
    if points.is_empty() {
        return Ok(PoolRange { start: 0, end: 0 });
    }
    let start = pool.len();
    pool.extend_from_slice(points)?;
    match (u32::try_from(start), u32::try_from(pool.len())) {
        (Ok(start), Ok(end)) => Ok(PoolRange { start, end }),
        _ => Err(Memory),
    }
}
