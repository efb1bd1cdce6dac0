//! Questions of earlier states, which are let go.

ghost use Rattle.dependency_map.specs.Maps.{asked_at};
ghost use Rattle.point_store.specs.SlotStore.{values};
ghost use Rattle.range_table.specs.Values.{SameValues};

use crate::dependencies::DependencyMap;
use crate::relisting::{keys_of, sweep_threshold};
use number_sets::KeySet;
use point_store::SlotStore;
use range_table::Stretches;
use ucd_facts::Queries;

impl<T: Stretches<u64>> DependencyMap<SlotStore<T, Option<Queries>>> {
    /// If many questions were prepared since this was done last, lets go of those that no code point asks any more, now
    /// or next, as far as there is memory to look for them. What is now and next stays.
    pub fn sweep(&mut self)
        ensures now { SameValues (asked_at (values T.now) self.new)
            (asked_at (values T.now) self.old) }
        ensures next { SameValues (asked_at (values T.next) self.new)
            (asked_at (values T.next) self.old) }
    {
        if let Some(lists) = &mut self.lists {
            lists.sweep();
        }
        if self.prepared > self.few {
            self.gather_keys_anew();
        }
    }

    /// Lists the code points under the questions that they ask now or next, and under no others, if there is memory.
    fn gather_keys_anew(&mut self)
        ensures now { SameValues (asked_at (values T.now) self.new)
            (asked_at (values T.now) self.old) }
        ensures next { SameValues (asked_at (values T.next) self.new)
            (asked_at (values T.next) self.old) }
    {
        if let Ok(keys) = keys_of(self.alloc, &self.lists) {
            self.prepared = 0;
            self.few = sweep_threshold(&keys);
            self.askers = KeySet::of(self.alloc, keys);
        }
    }
}
