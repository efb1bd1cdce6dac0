//! Who asks what now.

ghost use Rattle.std.specs.Prelude.{◌≡◌, ℕ, ◌+◌, ◌<◌, ◌≤◌, ◌||◌, true, [], ◌∷◌, MatchOption, OnOk, IfOk};
ghost use Rattle.std.specs.Option.{option_copied};
ghost use Rattle.number_sets.specs.Keys.{is_in};
ghost use Rattle.dependency_map.specs.Askers.{asks, askers_of, askers_of_any, points_from};
ghost use Rattle.dependency_map.specs.Index.{NoneFrom, kept_at};
ghost use Rattle.dependency_map.specs.Maps.{asked_at};

use crate::asker_index::next_listed_or_own;
use crate::asker_iter::Askers;
use crate::collecting::points_of_numbers;
use crate::dependencies::DependencyMap;
use number_sets::KeySet;
use point_store::Store;
use std::alloc::Global;
use ucd_facts::{Memory, Point, Points, Queries, Query};

impl<S: Store<Option<Queries>>> DependencyMap<S> {
    /// The code points that ask a question now, ascending, each once.
    pub fn askers(&self, query: Query) -> Askers<'_, S>
        ensures { result ≡ askers_of (asked_at S.now self.now) query }
    {
        Askers::new(self, query)
    }

    /// The code points that ask one of the questions now, ascending, each once.
    ///
    /// - `Memory`: memory ran out.
    pub fn collect(&self, alloc: Global, queries: &Queries) -> Result<Points, Memory>
        ensures { IfOk result (λ points. points
            ≡ askers_of_any (asked_at S.now self.now) queries.now) }
    {
        let mut numbers = Vec::new(alloc);
        'queries: for query in queries.as_slice() {
            self.push_askers(query, &mut numbers)?;
        }
        let sorted = KeySet::of(alloc, numbers);
        let points = points_of_numbers(alloc, &sorted)?;
        Ok(points)
    }

    /// Whether a code point asks a question now.
    pub fn asks(&self, c: Point, query: Query) -> bool
        ensures { result ≡ asks (asked_at S.now self.now) query c }
    {
        self.asks_now(c, &query)
    }

    /// The least code point at or above `from` that asks a question now.
    pub(crate) fn next_asker(&self, query: &Query, from: u32) -> Option<Point>
        ensures next { MatchOption result
            (NoneFrom (asks (asked_at S.now self.now) query.now) from 1114112)
            (λ c. (from ≤ c) × (asks (asked_at S.now self.now) query.now c ≡ true)
            × NoneFrom (asks (asked_at S.now self.now) query.now) from c) }
        ensures left { MatchOption result
            (points_from (asks (asked_at S.now self.now) query.now) from ≡ [])
            (λ c. points_from (asks (asked_at S.now self.now) query.now) from ≡ c
            ∷ points_from (asks (asked_at S.now self.now) query.now) (c + 1)) }
    {
        let mut start = from;
        'askers: while let Some(c) = next_listed_or_own(&self.askers, query, start) {
            start = c.number() + 1;
            if self.asks_now(c, query) {
                return Some(c);
            }
        }
        None
    }

    /// Puts the numbers of the code points that ask a question now behind others.
    ///
    /// - `Memory`: memory ran out.
    fn push_askers(&self, query: &Query, numbers: &mut Vec<u64>) -> Result<(), Memory>
        ensures { OnOk result ((k : ℕ) → k < 1114112
            → is_in numbers.new.items k
            ≡ (is_in numbers.old.items k || asks (asked_at S.now self.now) query.now k)) }
    {
        let mut from = 0;
        'askers: while let Some(c) = self.next_asker(query, from) {
            numbers.push(u64::from(c.number()))?;
            from = c.number() + 1;
        }
        Ok(())
    }

    /// Whether a code point asks a question now.
    fn asks_now(&self, c: Point, query: &Query) -> bool
        ensures { result ≡ asks (asked_at S.now self.now) query.now c }
    {
        match self.list_of(c) {
            Some(queries) => queries.as_slice().contains(query),
            None => *query == Query::Row(c) || *query == Query::Second(c),
        }
    }

    /// The questions that are kept for a code point now; `None` if it is plain.
    fn list_of(&self, c: Point) -> Option<&Queries>
        ensures { option_copied result ≡ kept_at S.now self.now.lists c }
    {
        match &self.lists {
            Some(lists) => lists.get(c).as_ref(),
            None => None,
        }
    }
}
