//! Values at places, of which some may be let go.

ghost use Rattle.std.specs.Prelude.{◌≡◌, ℕ, ◌+◌, ◌≤◌, true, false, None, Some, is_some, length, slice_get, slice_index_or, IfOk, IfSome};
ghost use Rattle.point_store.specs.Copies.{Copies};
ghost use Rattle.point_store.specs.Slots.{held_at, held_behind, is_unused, value_at};

use std::alloc::Global;
use ucd_points::Memory;

/// The least number of values that are held before any is looked for that may be let go.
const FEW: usize = 4096;

/// Values at places: the first one at place 0, and others behind it. Places that hold no value any more are used again.
#[derive(Drop)]
pub struct Slots<V: Drop> {
    alloc: Global,
    // the value at place 0
    first: V,
    // the values at the places from 1 on; none where one was let go
    more: Vec<Option<V>>,
    // where in these one was let go
    free: Vec<usize>,
    // how many values are few
    few: usize,
}

impl<V: Drop> Slots<V> {
    /// One value, at place 0. It takes no memory.
    pub fn new(alloc: Global, value: V) -> Slots<V>
        ensures { held_at result 0 ≡ Some value }
    {
        Slots {
            alloc,
            first: value,
            more: Vec::new(alloc),
            free: Vec::new(alloc),
            few: FEW,
        }
    }

    /// A copy with the same values at the same places, each of them as `copy` makes it.
    ///
    /// - `Memory`: memory ran out.
    pub fn copied<F: Fn(&V) -> Result<V, Memory>>(
        &self,
        alloc: Global,
        copy: F,
    ) -> Result<Slots<V>, Memory>
        requires callable { F.IsAlwaysCallable copy }
        requires copies { Copies (F.post copy) }
        ensures first { IfOk result (λ slots. slots.first ≡ self.now.first) }
        ensures more { IfOk result (λ slots. slots.more.items ≡ self.now.more.items) }
    {
        let first = copy(&self.first)?;
        let more = copied_all(alloc, &self.more, copy)?;
        Ok(Slots {
            alloc,
            first,
            more,
            free: Vec::from_slice(alloc, &self.free)?,
            few: self.few,
        })
    }

    /// The value at a place; the first one if none is held.
    pub fn get(&self, place: u64) -> &V
        ensures { result.now ≡ value_at self.now place }
    {
        if place == 0 {
            return &self.first;
        }
        match self.more.get(place as usize - 1) {
            Some(Some(value)) => value,
            _ => &self.first,
        }
    }

    /// Holds a value, and answers its place. What is held stays at its place.
    ///
    /// - `Memory`: memory ran out.
    #[tactic(auto, using(crate::proofs::SlotSteps::earlier_set, crate::proofs::SlotSteps::earlier_push))]
    pub fn hold(&mut self, value: V) -> Result<u64, Memory>
        ensures earlier { (p : ℕ) → is_some (held_at self.old p) ≡ true
            → held_at self.new p ≡ held_at self.old p }
        ensures place { IfOk result (λ place. held_at self.new place ≡ Some value) }
    {
        match take_free_place(&self.more, &mut self.free) {
            Some(at) => {
                self.more[at] = Some(value);
                Ok(at as u64 + 1)
            }
            None => {
                self.more.push(Some(value))?;
                Ok(self.more.len() as u64)
            }
        }
    }

    /// Whether few values are held: fewer than twice those that the last call of `drop_unused` left, and some more.
    pub fn is_below_sweep_threshold(&self) -> bool {
        self.count() < self.few
    }

    /// A list that says of each place that it is unused.
    ///
    /// - `Memory`: memory ran out.
    pub fn all_marked_unused(&self) -> Result<Vec<bool>, Memory> {
        let unused = Vec::from_elem(self.alloc, true, self.more.len().saturating_add(1))?;
        Ok(unused)
    }

    /// Lets go of the values at unused places, except for the first one, and gives back the room behind the last one
    /// that is left.
    pub fn drop_unused(&mut self, unused: &[bool])
        ensures { (p : ℕ) → is_unused unused.now p ≡ false
            → held_at self.new p ≡ held_at self.old p }
    {
        empty_unused(&mut self.more, unused);
        drop_empty_end(&mut self.more);
        list_free(&self.more, &mut self.free);
        self.few = self.count().saturating_mul(2).saturating_add(FEW);
        self.shrink_to_fit();
    }

    /// Makes room for so many more values, as far as there is memory.
    pub fn reserve(&mut self, values: usize)
        ensures held { (p : ℕ) → held_at self.new p ≡ held_at self.old p }
        ensures values { (p : ℕ) → value_at self.new p ≡ value_at self.old p }
    {
        let _done = self.more.reserve(values);
    }

    /// Gives back room that no value takes up, as far as a smaller block of memory can be had.
    pub fn shrink_to_fit(&mut self)
        ensures held { (p : ℕ) → held_at self.new p ≡ held_at self.old p }
        ensures values { (p : ℕ) → value_at self.new p ≡ value_at self.old p }
    {
        self.more.shrink_to_fit();
        self.free.shrink_to_fit();
    }

    /// How many values are held behind the first.
    pub fn held_behind_first(&self) -> usize
        ensures { result ≡ held_behind self.now }
    {
        self.more.iter().filter(|value| value.is_some()).count()
    }

    /// About how many values are held behind the first, told at once: those at places that are not listed as free.
    fn count(&self) -> usize {
        self.more.len().saturating_sub(self.free.len())
    }
}

/// A place where no value is held, taken off the free ones.
fn take_free_place<V: Drop>(more: &[Option<V>], free: &mut Vec<usize>) -> Option<usize>
    ensures { IfSome result (λ at. slice_get more.now at ≡ Some None) }
{
    let at = free.pop()?;
    match more.get(at) {
        Some(None) => Some(at),
        _ => None,
    }
}

/// Lets go of the values at unused places, which are counted from 1 on.
fn empty_unused<V: Drop>(more: &mut [Option<V>], unused: &[bool])
    ensures { (i : ℕ) → is_unused unused.now (i + 1) ≡ false
        → slice_index_or more.new i None ≡ slice_index_or more.old i None }
{
    let mut at = 0;
    'places: while at < more.len() {
        if at + 1 < unused.len() && unused[at + 1] {
            more[at] = None;
        }
        at += 1;
    }
}

/// Drops the places behind the last value.
#[tactic(auto, using(crate::proofs::SlotSteps::same_cut))]
fn drop_empty_end<V: Drop>(more: &mut Vec<Option<V>>)
    ensures { (i : ℕ) → slice_index_or more.new.items i None
        ≡ slice_index_or more.old.items i None }
{
    let end = end_of_values(more);
    more.truncate(end);
}

/// Where the last value ends.
fn end_of_values<V: Drop>(more: &[Option<V>]) -> usize
    ensures within { result ≤ length more.now }
    ensures none { (i : ℕ) → result ≤ i → slice_index_or more.now i None ≡ None }
{
    let mut end = more.len();
    'places: while end > 0 && more[end - 1].is_none() {
        end -= 1;
    }
    end
}

/// Lists the places where no value is held, the last one first. Those that there is no memory to list are not used
/// again.
fn list_free<V: Drop>(more: &[Option<V>], free: &mut Vec<usize>) {
    free.clear();
    let mut at = more.len();
    'places: while at > 0 {
        at -= 1;
        if more[at].is_none() && free.push(at).is_err() {
            return;
        }
    }
}

/// Copies of the values at places, as `copy` makes them.
///
/// - `Memory`: memory ran out.
fn copied_all<V: Drop, F: Fn(&V) -> Result<V, Memory>>(
    alloc: Global,
    values: &[Option<V>],
    copy: F,
) -> Result<Vec<Option<V>>, Memory>
    requires callable { F.IsAlwaysCallable copy }
    requires copies { Copies (F.post copy) }
    ensures { IfOk result (λ copies. copies.items ≡ values.now) }
{
    let mut copies = Vec::with_capacity(alloc, values.len())?;
    'values: for value in values {
        let made = match value {
            Some(value) => Some(copy(value)?),
            None => None,
        };
        copies.push(made)?;
    }
    Ok(copies)
}
