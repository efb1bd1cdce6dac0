//! Tables that keep runs of equal values.

ghost use Rattle.std.specs.Prelude.{◌≡◌, ℕ, ◌+◌, ◌<◌, ◌≤◌, false};
ghost use Rattle.range_table.specs.Values.{run_count};
ghost use Rattle.ucd_points.specs.Limits.{point_count};

use crate::layout::Layout;
use crate::run::Run;
use crate::stretches::Stretches;
use crate::table::Table;
use std::alloc::Global;
use ucd_points::{Memory, Point, Span};

/// A table that keeps each maximal run of equal values once.
///
/// The time to look a value up grows with the logarithm of the number of runs.
/// The first `prepare` after a `commit` or a `discard` copies the runs. Each takes time in proportion to the runs that
/// lie behind its span: each of several spans in ascending order costs the same, however many runs there are.
#[derive(Drop)]
pub struct RunTable<V: Copy + Eq> {
    committed: Layout<V>,
    // what is next, if something was prepared since the last `commit` or `discard`
    prepared: Option<Layout<V>>,
}

impl<V: Copy + Eq> RunTable<V> {
    /// The number of maximal runs of equal values now.
    pub fn runs(&self) -> usize
        ensures { result ≡ run_count V.eq (⟦<RunTable<V> as Table<V>>⟧.now self.now) point_count }
    {
        self.committed.runs()
    }

    /// The last code point of the maximal run of equal values now that a code point lies in.
    pub fn last_of_run(&self, c: Point) -> Point
        ensures from { c ≤ result }
        ensures same { (k : ℕ) → c ≤ k → k ≤ result
            → ⟦<RunTable<V> as Table<V>>⟧.now self.now k
            ≡ ⟦<RunTable<V> as Table<V>>⟧.now self.now c }
        ensures maximal { result + 1 < 1114112
            → V.eq (⟦<RunTable<V> as Table<V>>⟧.now self.now c)
            (⟦<RunTable<V> as Table<V>>⟧.now self.now (result + 1)) ≡ false }
    {
        self.committed.last_of_run(c)
    }

    /// The maximal run of equal values now that a code point lies in. The index behind `near` and `near` itself are
    /// tried first, but the run may lie anywhere: whoever goes from run to run with the index of each finds every next
    /// one at once.
    pub fn run(&self, c: Point, near: usize) -> Run<V>
        ensures value { result.value ≡ ⟦<RunTable<V> as Table<V>>⟧.now self.now c }
        ensures from { c ≤ result.last }
        ensures same { (k : ℕ) → c ≤ k → k ≤ result.last
            → ⟦<RunTable<V> as Table<V>>⟧.now self.now k
            ≡ ⟦<RunTable<V> as Table<V>>⟧.now self.now c }
        ensures maximal { result.last + 1 < 1114112
            → V.eq (⟦<RunTable<V> as Table<V>>⟧.now self.now c)
            (⟦<RunTable<V> as Table<V>>⟧.now self.now (result.last + 1)) ≡ false }
    {
        self.committed.run(c, near)
    }
}

impl<V: Copy + Eq> Table<V> for RunTable<V> {
    ghost use Rattle.range_table.specs.RunTable.{values_now, values_next};

    ghost now = { values_now };

    ghost next = { values_next };

    fn filled(alloc: Global, value: V) -> Result<RunTable<V>, Memory> {
        Ok(RunTable {
            committed: Layout::filled(alloc, value),
            prepared: None,
        })
    }

    fn get(&self, c: Point) -> V {
        self.committed.get(c)
    }

    fn get_next(&self, c: Point) -> V {
        match &self.prepared {
            Some(next) => next.get(c),
            None => self.committed.get(c),
        }
    }

    fn prepare(&mut self, span: Span, value: V) -> Result<(), Memory> {
        let mut next = match self.prepared.take() {
            Some(next) => next,
            None => self.committed.copy()?,
        };
        let done = next.set(span, value);
        self.prepared = Some(next);
        done
    }

    fn commit(&mut self) {
        if let Some(next) = self.prepared.take() {
            self.committed = next;
        }
    }

    fn discard(&mut self) {
        self.prepared = None;
    }

    // runs are copied with what room they need
    fn reserve(&mut self, _blocks: u32) {}

    fn shrink_to_fit(&mut self) {
        self.committed.shrink_to_fit();
        if let Some(next) = &mut self.prepared {
            next.shrink_to_fit();
        }
    }
}

impl<V: Copy + Eq> Stretches<V> for RunTable<V> {
    fn last_of_stretch(&self, c: Point) -> Point {
        self.committed.last_of_run(c)
    }

    fn last_of_stretch_next(&self, c: Point) -> Point {
        match &self.prepared {
            Some(next) => next.last_of_run(c),
            None => self.committed.last_of_run(c),
        }
    }
}
