//! The values of all code points, kept as the places where they change.

ghost use Rattle.std.specs.Prelude.{◌≡◌, ◌+◌, ◌<◌, ◌≤◌, ℕ, true, false, [], ◌++◌, take, drop, length, vec_len, IfOk, IsTrue, OnOk, OnErr};
ghost use Rattle.range_table.specs.Values.{SameValues, with_span, run_count};
ghost use Rattle.ucd_points.specs.Limits.{point_count};
ghost use Rattle.range_table.specs.Layout.{Layout as Runs, values, count_before, value_of_run, IsEnd};
ghost use Rattle.range_table.specs.Edit.{SetsSpan, edited};

use crate::change::Change;
use crate::edit::{Edit, change_to, splice};
use crate::run::Run;
use std::alloc::Global;
use std::marker::Model;
use ucd_points::{Memory, Point, Span};

/// The value of the first code point, and the places where the value changes, in ascending order.
#[derive(Drop)]
pub struct Layout<V: Copy + Eq> {
    first: V,
    changes: Vec<Change<V>>,
}

impl<V: Copy + Eq> Model for Layout<V> {
    ghost use Rattle.range_table.specs.Layout.{Layout as Runs, IsLayout};

    ghost Value = { Runs V };

    ghost view = { λ l. record { first = l.first; changes = l.changes.items } };

    ghost invariant = { λ l. IsLayout V.eq l.first l.changes.items };
}

impl<V: Copy + Eq> Layout<V> {
    /// The layout of one value. It takes no memory.
    pub fn filled(alloc: Global, value: V) -> Layout<V>
        requires { (a b : V) → V.eq a b ≡ true → a ≡ b }
        ensures { result ≡ record { first = value; changes = [] } }
    {
        Layout {
            first: value,
            changes: Vec::new(alloc),
        }
    }

    /// A copy of the layout.
    ///
    /// - `Memory`: memory ran out.
    pub fn copy(&self) -> Result<Layout<V>, Memory>
        ensures { IfOk result (λ copy. copy ≡ self.now) }
    {
        let alloc = *self.changes.allocator();
        let changes = Vec::from_slice(alloc, self.changes.as_slice())?;
        Ok(Layout {
            first: self.first,
            changes,
        })
    }

    /// The value of a code point.
    pub fn get(&self, c: Point) -> V
        ensures { result ≡ values self.now c }
    {
        self.value_of_run(self.count_before(c.number() + 1))
    }

    /// The number of maximal runs of equal values.
    pub fn runs(&self) -> usize
        ensures { result ≡ run_count V.eq (values self.now) point_count }
    {
        self.changes.len() + 1
    }

    /// The last code point of the run of equal values that a code point lies in.
    pub fn last_of_run(&self, c: Point) -> Point
        ensures from { c ≤ result }
        ensures same { (k : ℕ) → c ≤ k → k ≤ result → values self.now k ≡ values self.now c }
        ensures maximal { result + 1 < 1114112
            → V.eq (values self.now c) (values self.now (result + 1)) ≡ false }
    {
        Point::new(self.end_of_run(c) - 1).unwrap()
    }

    /// The run of equal values that a code point lies in. The index behind `near` and `near` itself are tried first,
    /// but the run may lie anywhere.
    pub fn run(&self, c: Point, near: usize) -> Run<V>
        ensures value { result.value ≡ values self.now c }
        ensures from { c ≤ result.last }
        ensures same { (k : ℕ) → c ≤ k → k ≤ result.last → values self.now k ≡ values self.now c }
        ensures maximal { result.last + 1 < 1114112
            → V.eq (values self.now c) (values self.now (result.last + 1)) ≡ false }
    {
        let index = self.count_before_with_hint(c.number() + 1, near);
        let end = self.end_at(c, index);
        Run {
            value: self.value_of_run(index),
            last: Point::new(end - 1).unwrap(),
            index,
        }
    }

    /// Gives the points of a span the value.
    ///
    /// It takes time in proportion to the number of changes behind the span, so each of many spans in ascending order
    /// costs the same.
    ///
    /// - `Memory`: memory ran out. The layout stays as it was.
    pub fn set(&mut self, span: Span, value: V) -> Result<(), Memory>
        ensures ok { OnOk result (SameValues (values self.new)
            (with_span (values self.old) span.lo span.hi value)) }
        ensures err { OnErr result (SameValues (values self.new) (values self.old)) }
    {
        let edit = self.edit(span, value);
        splice(&mut self.changes, &edit)?;
        self.first = edit.first;
        Ok(())
    }

    /// Gives back room that no change takes up, as far as a smaller block of memory can be had.
    pub fn shrink_to_fit(&mut self)
        ensures { self.new ≡ self.old }
    {
        self.changes.shrink_to_fit();
    }

    /// What is to be done to give the points of a span the value.
    fn edit(&self, span: Span, value: V) -> Edit<V>
        ensures ordered { result.from ≤ result.behind }
        ensures within { result.behind ≤ length self.now.changes }
        ensures set { SetsSpan V.eq self.now.first self.now.changes span.lo span.hi value
            result.first (edited result self.now.changes) }
    {
        let lo = span.first();
        let hi = span.last();
        let from = self.count_before(lo);
        let behind = self.count_before(hi + 2);
        // at 0 there is no value before, and the first value itself is set
        let (first, before) = if lo == 0 {
            (value, value)
        } else {
            (self.first, self.value_of_run(from))
        };
        let ends = if hi + 1 == Point::COUNT {
            None
        } else {
            change_to(value, hi + 1, self.value_of_run(behind))
        };
        Edit {
            first,
            from,
            behind,
            begins: change_to(before, lo, value),
            ends,
        }
    }

    /// How many changes come before `start`.
    /// The last two are looked at first: if spans come in ascending order, no search is needed.
    fn count_before(&self, start: u32) -> usize
        ensures { result ≡ count_before start self.now.changes }
    {
        let changes = self.changes.as_slice();
        let len = changes.len();
        if len == 0 || changes[len - 1].start < start {
            return len;
        }
        if len == 1 || changes[len - 2].start < start {
            return len - 1;
        }
        changes.partition_point(|change| change.start < start)
    }

    /// One past the last code point of the run that a code point lies in.
    fn end_of_run(&self, c: Point) -> u32
        ensures { IsEnd V.eq (values self.now) c result }
    {
        self.end_at(c, self.count_before(c.number() + 1))
    }

    /// One past the last code point of the run that a code point lies in, given how many changes come up to the code point.
    fn end_at(&self, c: Point, run: usize) -> u32
        requires { run ≡ count_before (c + 1) self.now.changes }
        ensures { IsEnd V.eq (values self.now) c result }
    {
        if run == self.changes.len() {
            Point::COUNT
        } else {
            self.changes[run].start
        }
    }

    /// How many changes come before `start`. One more than `near` is tried first, and `near` itself.
    fn count_before_with_hint(&self, start: u32, near: usize) -> usize
        ensures { result ≡ count_before start self.now.changes }
    {
        if near < self.changes.len() && self.is_count_before(start, near + 1) {
            return near + 1;
        }
        if self.is_count_before(start, near) {
            return near;
        }
        self.count_before(start)
    }

    /// Whether so many changes come before `start`.
    fn is_count_before(&self, start: u32, count: usize) -> bool
        ensures { IsTrue result → count ≡ count_before start self.now.changes }
    {
        let changes = self.changes.as_slice();
        let len = changes.len();
        if len < count {
            return false;
        }
        if count == 0 || changes[count - 1].start < start {
            return count == len || start <= changes[count].start;
        }
        false
    }

    /// The value of a run: of the first one, or of the one that a change begins.
    fn value_of_run(&self, run: usize) -> V
        requires { run ≤ length self.now.changes }
        ensures { result ≡ value_of_run self.now.first self.now.changes run }
    {
        if run == 0 {
            self.first
        } else {
            self.changes[run - 1].value
        }
    }
}
