//! Stores over a table of places.

ghost use Rattle.std.specs.Prelude.{◌≡◌, ◌≢◌, ℕ, ◌+◌, ◌%◌, ◌<◌, ◌≤◌, IfOk};
ghost use Rattle.range_table.specs.Values.{SameValues};
ghost use Rattle.point_store.specs.Copies.{Copies};
ghost use Rattle.point_store.specs.Slots.{AreHeld};

use crate::slots::Slots;
use crate::store::Store;
use crate::unused_slots::{mark_used_next, mark_used_now};
use range_table::{Stretches, Table};
use std::alloc::Global;
use ucd_points::{Copied, Memory, Point, Span};

/// A store that keeps its values one after another, and the place of each code point's value in a table of type `T`.
///
/// Looking a value up takes one look-up in the table. Values that no code point has any more, even those that were
/// prepared and discarded, stay until [`SlotStore::sweep`] lets them go.
#[derive(Drop)]
pub struct SlotStore<T: Table<u64>, V: Drop> {
    // the place of each code point's value
    places: T,
    // the values at their places
    slots: Slots<V>,
    ghost now_held: { AreHeld slots (T.now places) },
    ghost next_held: { AreHeld slots (T.next places) },
}

impl<T: Table<u64>, V: Drop> Store<V> for SlotStore<T, V> {
    ghost use Rattle.point_store.specs.SlotStore.{values, held, places};

    ghost now = { values T.now };

    ghost next = { values T.next };

    ghost held = { held };

    ghost now_at = { places T.now };

    ghost next_at = { places T.next };

    fn filled(alloc: Global, value: V) -> Result<SlotStore<T, V>, Memory> {
        Ok(SlotStore {
            places: T::filled(alloc, 0)?,
            slots: Slots::new(alloc, value),
        })
    }

    fn get(&self, c: Point) -> &V {
        self.slots.get(self.places.get(c))
    }

    fn get_next(&self, c: Point) -> &V {
        self.slots.get(self.places.get_next(c))
    }

    #[tactic(auto, using(crate::proofs::SlotSteps::some_of))]
    fn place(&self, c: Point) -> u64 {
        self.places.get(c)
    }

    #[tactic(auto, using(crate::proofs::SlotSteps::some_of))]
    fn place_next(&self, c: Point) -> u64 {
        self.places.get_next(c)
    }

    #[tactic(auto, using(crate::proofs::SlotSteps::held_same, crate::proofs::SlotSteps::values_same))]
    fn hold(&mut self, value: V) -> Result<u64, Memory> {
        self.slots.hold(value)
    }

    #[tactic(auto, using(crate::proofs::SlotSteps::held_span))]
    fn prepare_held(&mut self, span: Span, place: u64) -> Result<(), Memory> {
        self.places.prepare(span, place)
    }

    fn prepare(&mut self, span: Span, value: V) -> Result<(), Memory> {
        let place = self.hold(value)?;
        self.prepare_held(span, place)
    }

    fn commit(&mut self) {
        self.places.commit();
    }

    fn discard(&mut self) {
        self.places.discard();
    }

    fn reserve(&mut self, values: usize, blocks: u32) {
        self.places.reserve(blocks);
        self.slots.reserve(values);
    }

    fn shrink_to_fit(&mut self) {
        self.places.shrink_to_fit();
        self.slots.shrink_to_fit();
    }
}

impl<T: Table<u64>, V: Drop> SlotStore<T, V> {
    ghost use Rattle.point_store.specs.SlotStore.{held_count};

    /// How many values are held beside the one that was given at first. It takes time in proportion to the places.
    pub fn count(&self) -> usize
        ensures { result ≡ held_count self.now }
    {
        self.slots.held_behind_first()
    }
}

impl<T: Table<u64> + Copied, V: Drop> SlotStore<T, V> {
    /// A copy with the same values at the same places, now and next, each of them as `copy` makes it.
    ///
    /// - `Memory`: memory ran out.
    pub fn copied<F: Fn(&V) -> Result<V, Memory>>(
        &self,
        alloc: Global,
        copy: F,
    ) -> Result<SlotStore<T, V>, Memory>
        requires callable { F.IsAlwaysCallable copy }
        requires copies { Copies (F.post copy) }
        ensures now { IfOk result
            (λ kept. ⟦<SlotStore<T, V> as Store<V>>⟧.now kept
            ≡ ⟦<SlotStore<T, V> as Store<V>>⟧.now self.now) }
        ensures next { IfOk result
            (λ kept. ⟦<SlotStore<T, V> as Store<V>>⟧.next kept
            ≡ ⟦<SlotStore<T, V> as Store<V>>⟧.next self.now) }
        ensures now_at { IfOk result
            (λ kept. ⟦<SlotStore<T, V> as Store<V>>⟧.now_at kept
            ≡ ⟦<SlotStore<T, V> as Store<V>>⟧.now_at self.now) }
        ensures next_at { IfOk result
            (λ kept. ⟦<SlotStore<T, V> as Store<V>>⟧.next_at kept
            ≡ ⟦<SlotStore<T, V> as Store<V>>⟧.next_at self.now) }
        ensures held { IfOk result
            (λ kept. ⟦<SlotStore<T, V> as Store<V>>⟧.held kept
            ≡ ⟦<SlotStore<T, V> as Store<V>>⟧.held self.now) }
    {
        Ok(SlotStore {
            places: self.places.copied(alloc)?,
            slots: self.slots.copied(alloc, copy)?,
        })
    }
}

impl<T: Stretches<u64>, V: Drop> SlotStore<T, V> {
    /// If many values were held since this was done last, lets go of those that no code point has, now or next, as far
    /// as there is memory to look for them. It takes steps in proportion to the stretches of the table and to the
    /// values. What is now and next stays.
    #[tactic(auto, using(crate::proofs::SlotSteps::held_same, crate::proofs::SlotSteps::values_same))]
    pub fn sweep(&mut self)
        ensures now { SameValues (⟦<SlotStore<T, V> as Store<V>>⟧.now self.new)
            (⟦<SlotStore<T, V> as Store<V>>⟧.now self.old) }
        ensures next { SameValues (⟦<SlotStore<T, V> as Store<V>>⟧.next self.new)
            (⟦<SlotStore<T, V> as Store<V>>⟧.next self.old) }
    {
        if self.slots.is_below_sweep_threshold() {
            return;
        }
        if let Ok(mut all) = self.slots.all_marked_unused() {
            let unused = all.as_mut_slice();
            mark_used_now(&self.places, unused);
            mark_used_next(&self.places, unused);
            self.slots.drop_unused(unused);
        }
    }

    /// The last code point of a stretch from a code point on in which all values now stand at one place.
    /// It ends at the end of a block of 256 code points, or where the place changes.
    pub fn last_of_stretch(&self, c: Point) -> Point
        ensures from { c ≤ result }
        ensures same { (k : ℕ) → c ≤ k → k ≤ result
            → ⟦<SlotStore<T, V> as Store<V>>⟧.now self.now k
            ≡ ⟦<SlotStore<T, V> as Store<V>>⟧.now self.now c }
        ensures ends { result + 1 < 1114112 → (result + 1) % 256 ≢ 0
            → ⟦<SlotStore<T, V> as Store<V>>⟧.now_at self.now (result + 1)
            ≢ ⟦<SlotStore<T, V> as Store<V>>⟧.now_at self.now c }
    {
        self.places.last_of_stretch(c)
    }

    /// The last code point of a stretch from a code point on in which all values next stand at one place. It ends at the end
    /// of a block of 256 code points, or where the place changes.
    pub fn last_of_stretch_next(&self, c: Point) -> Point
        ensures from { c ≤ result }
        ensures same { (k : ℕ) → c ≤ k → k ≤ result
            → ⟦<SlotStore<T, V> as Store<V>>⟧.next self.now k
            ≡ ⟦<SlotStore<T, V> as Store<V>>⟧.next self.now c }
        ensures ends { result + 1 < 1114112 → (result + 1) % 256 ≢ 0
            → ⟦<SlotStore<T, V> as Store<V>>⟧.next_at self.now (result + 1)
            ≢ ⟦<SlotStore<T, V> as Store<V>>⟧.next_at self.now c }
    {
        self.places.last_of_stretch_next(c)
    }
}
