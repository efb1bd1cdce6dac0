//! The questions of many code points, of which a map is made.

ghost use Rattle.std.specs.Prelude.{◌≡◌, OnOk, OnErr};
ghost use Rattle.range_table.specs.Values.{SameValues, with_span};
ghost use Rattle.dependency_map.specs.Askers.{own_queries};
ghost use Rattle.dependency_map.specs.Maps.{asked_at, put_at};

use crate::asker_index::push_keys;
use crate::dependencies::{DependencyMap, Listing};
use crate::preparing::put_list;
use crate::relisting::sweep_threshold;
use number_sets::KeySet;
use point_store::Store;
use std::alloc::Global;
use ucd_facts::{Memory, Point, Queries};

impl<S: Store<Option<Queries>>> Listing<S> {
    /// The listing in which all code points are plain. It takes no memory.
    pub fn new(alloc: Global) -> Listing<S>
        ensures { put_at S.next result ≡ own_queries }
    {
        Listing {
            alloc,
            lists: None,
            keys: Vec::new(alloc),
        }
    }

    /// Gives a code point its questions.
    ///
    /// - `Memory`: memory ran out. What each code point has stays.
    pub fn put(&mut self, c: Point, asked: &Queries) -> Result<(), Memory>
        ensures ok { OnOk result (SameValues (put_at S.next self.new)
            (with_span (put_at S.next self.old) c c asked.now)) }
        ensures err { OnErr result (SameValues (put_at S.next self.new) (put_at S.next self.old)) }
    {
        let copy = Queries::of(self.alloc, asked.as_slice())?;
        push_keys(&mut self.keys, c, asked)?;
        put_list(self.alloc, &mut self.lists, c, copy)
    }

    /// The map in which code points ask what was put, now and next. It takes no memory.
    pub fn finish(self) -> DependencyMap<S>
        ensures now { SameValues (asked_at S.now result) (put_at S.next self) }
        ensures next { SameValues (asked_at S.next result) (put_at S.next self) }
    {
        let Listing {
            alloc,
            mut lists,
            keys,
        } = self;
        if let Some(lists) = &mut lists {
            lists.commit();
        }
        let few = sweep_threshold(&keys);
        DependencyMap {
            alloc,
            lists,
            askers: KeySet::of(alloc, keys),
            prepared: 0,
            few,
        }
    }
}
