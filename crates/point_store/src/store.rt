//! What a store is, whichever way it keeps its values.

ghost use Rattle.std.specs.Prelude.{◌≡◌, ℕ, true, Option, Some, is_some, OnOk, OnErr, IfOk};
ghost use Rattle.range_table.specs.Values.{SameValues, with_span};

use std::alloc::Global;
use ucd_points::{Memory, Point, Span};

/// A value of any type for each code point, twice: the values now, and the values next.
/// `prepare` changes what is next, `commit` makes it what is now, and `discard` drops it.
///
/// A store holds each value at a place. A value that is held stays at its place under every call here, so spans with one
/// value can share it, and values at one place are the same.
pub trait Store<V: Drop>: Sized + Drop {
    // the values now, and next; numbers above the last code point do not count
    ghost now: { Self → ℕ → V };

    ghost next: { Self → ℕ → V };

    // the value at a place, if one is held there
    ghost held: { Self → ℕ → Option V };

    // the place of the value of each code point now, and next
    ghost now_at: { Self → ℕ → ℕ };

    ghost next_at: { Self → ℕ → ℕ };

    /// The store whose values, now and next, are `value` throughout.
    ///
    /// - `Memory`: memory ran out.
    fn filled(alloc: Global, value: V) -> Result<Self, Memory>
        ensures now { IfOk result (λ store. SameValues (now store) (λ _. value)) }
        ensures next { IfOk result (λ store. SameValues (next store) (λ _. value)) };

    /// The value of a code point now.
    fn get(&self, c: Point) -> &V
        ensures { result.now ≡ now self.now c };

    /// The value of a code point next.
    fn get_next(&self, c: Point) -> &V
        ensures { result.now ≡ next self.now c };

    /// The place of the value of a code point now.
    fn place(&self, c: Point) -> u64
        ensures place { result ≡ now_at self.now c }
        ensures held { held self.now result ≡ Some (now self.now c) };

    /// The place of the value of a code point next.
    fn place_next(&self, c: Point) -> u64
        ensures place { result ≡ next_at self.now c }
        ensures held { held self.now result ≡ Some (next self.now c) };

    /// Holds a value, and answers its place. What is now and next stays, and what is held stays at its place.
    ///
    /// - `Memory`: memory ran out.
    fn hold(&mut self, value: V) -> Result<u64, Memory>
        ensures now { SameValues (now self.new) (now self.old) }
        ensures next { SameValues (next self.new) (next self.old) }
        ensures earlier { (p : ℕ) → is_some (held self.old p) ≡ true
            → held self.new p ≡ held self.old p }
        ensures place { IfOk result (λ place. held self.new place ≡ Some value) };

    /// Gives the points of a span the value next that is held at a place. What is now stays.
    ///
    /// - `Memory`: memory ran out. What is next stays too.
    fn prepare_held(&mut self, span: Span, place: u64) -> Result<(), Memory>
        requires { is_some (held self.old place) ≡ true }
        ensures now { SameValues (now self.new) (now self.old) }
        ensures ok { OnOk result ((value : V) → held self.old place ≡ Some value
            → SameValues (next self.new) (with_span (next self.old) span.lo span.hi value)) }
        ensures shared { OnOk result
            (SameValues (next_at self.new)
            (with_span (next_at self.old) span.lo span.hi place)) }
        ensures err { OnErr result (SameValues (next self.new) (next self.old)) }
        ensures held { (p : ℕ) → held self.new p ≡ held self.old p };

    /// Gives the points of a span a value next. What is now stays, and what is held stays at its place.
    ///
    /// - `Memory`: memory ran out. What is next stays too.
    fn prepare(&mut self, span: Span, value: V) -> Result<(), Memory>
        ensures now { SameValues (now self.new) (now self.old) }
        ensures ok { OnOk result (SameValues (next self.new)
            (with_span (next self.old) span.lo span.hi value)) }
        ensures err { OnErr result (SameValues (next self.new) (next self.old)) }
        ensures earlier { (p : ℕ) → is_some (held self.old p) ≡ true → held self.new p ≡ held self.old p };

    /// What is next becomes now, and stays next. It takes no memory.
    fn commit(&mut self)
        ensures committed { SameValues (now self.new) (next self.old) }
        ensures next { SameValues (next self.new) (next self.old) }
        ensures held { (p : ℕ) → held self.new p ≡ held self.old p };

    /// What is now becomes next: all that was prepared since the last `commit` is dropped. It takes no memory.
    fn discard(&mut self)
        ensures now { SameValues (now self.new) (now self.old) }
        ensures discarded { SameValues (next self.new) (now self.old) }
        ensures held { (p : ℕ) → held self.new p ≡ held self.old p };

    /// Makes room for so many more values, and for places that change in so many blocks of 256 code points, as far as there
    /// is memory. What is now and next stays, and what is held stays at its place.
    fn reserve(&mut self, values: usize, blocks: u32)
        ensures now { SameValues (now self.new) (now self.old) }
        ensures next { SameValues (next self.new) (next self.old) }
        ensures held { (p : ℕ) → held self.new p ≡ held self.old p };

    /// Gives back room that no value takes up, as far as a smaller block of memory can be had. What is now and next
    /// stays, and what is held stays at its place.
    fn shrink_to_fit(&mut self)
        ensures now { SameValues (now self.new) (now self.old) }
        ensures next { SameValues (next self.new) (next self.old) }
        ensures held { (p : ℕ) → held self.new p ≡ held self.old p };
}
