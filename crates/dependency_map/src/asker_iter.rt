//! Goes over the code points that ask a question.

ghost use Rattle.std.specs.Prelude.{◌≡◌};
ghost use Rattle.dependency_map.specs.Askers.{askers_of};
ghost use Rattle.dependency_map.specs.Maps.{asked_at};

use crate::dependencies::DependencyMap;
use point_store::Store;
use std::marker::Model;
use ucd_facts::{Point, Queries, Query};

/// The code points that ask a question and are left, ascending, each once. Contracts see the list of them.
#[derive(Drop)]
pub struct Askers<'a, S: Store<Option<Queries>>> {
    map: &'a DependencyMap<S>,
    query: Query,
    // the code points below it were gone over
    from: u32,
}

impl<'a, S: Store<Option<Queries>>> Model for Askers<'a, S> {
    ghost use Rattle.std.specs.Prelude.{ℕ, List};
    ghost use Rattle.dependency_map.specs.Askers.{asks, points_from};
    ghost use Rattle.dependency_map.specs.Maps.{asked_at};

    ghost Value = { List ℕ };

    ghost view = { λ e. points_from (asks (asked_at S.now e.map.now) e.query) e.from };
}

impl<'a, S: Store<Option<Queries>>> Askers<'a, S> {
    /// All code points that ask a question of a map now.
    pub(crate) fn new(map: &'a DependencyMap<S>, query: Query) -> Askers<'a, S>
        ensures { result ≡ askers_of (asked_at S.now map.now) query }
    {
        Askers {
            map,
            query,
            from: 0,
        }
    }
}

impl<'a, S: Store<Option<Queries>>> Iterator for Askers<'a, S> {
    ghost use Rattle.std.specs.Iterator.{YieldsFirst, item_count};

    type Item = Point;

    ghost next_gives = { YieldsFirst (λ rest. rest) };

    ghost remaining = { item_count (λ rest. rest) };

    fn next(&mut self) -> Option<Point> {
        let c = self.map.next_asker(&self.query, self.from)?;
        self.from = c.number() + 1;
        Some(c)
    }
}
