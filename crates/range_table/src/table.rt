//! What a table is, whichever way it keeps its values.

ghost use Rattle.std.specs.Prelude.{◌≡◌, ℕ, true, OnOk, OnErr, IfOk};
ghost use Rattle.range_table.specs.Values.{SameValues, with_span};

use std::alloc::Global;
use ucd_points::{Memory, Point, Span};

/// A value for each code point, twice: the values now, and the values next.
/// `prepare` changes what is next, `commit` makes it what is now, and `discard` drops it.
pub trait Table<V: Copy + Eq>: Sized + Drop {
    // the values now, and next; numbers above the last code point do not count
    ghost now: { Self → ℕ → V };

    ghost next: { Self → ℕ → V };

    /// The table whose values, now and next, are `value` throughout. Values of `V` that are equal by `==` must be the
    /// same value.
    ///
    /// - `Memory`: memory ran out.
    fn filled(alloc: Global, value: V) -> Result<Self, Memory>
        requires { (a b : V) → V.eq a b ≡ true → a ≡ b }
        ensures now { IfOk result (λ table. SameValues (now table) (λ _. value)) }
        ensures next { IfOk result (λ table. SameValues (next table) (λ _. value)) };

    /// The value of a code point now.
    fn get(&self, c: Point) -> V
        ensures { result ≡ now self.now c };

    /// The value of a code point next.
    fn get_next(&self, c: Point) -> V
        ensures { result ≡ next self.now c };

    /// Gives the points of a span the value next. What is now stays.
    ///
    /// - `Memory`: memory ran out. What is next stays too.
    fn prepare(&mut self, span: Span, value: V) -> Result<(), Memory>
        ensures now { SameValues (now self.new) (now self.old) }
        ensures ok { OnOk result (SameValues (next self.new)
            (with_span (next self.old) span.lo span.hi value)) }
        ensures err { OnErr result (SameValues (next self.new) (next self.old)) };

    /// What is next becomes now, and stays next. It takes no memory.
    fn commit(&mut self)
        ensures committed { SameValues (now self.new) (next self.old) }
        ensures next { SameValues (next self.new) (next self.old) };

    /// What is now becomes next: all that was prepared since the last `commit` is dropped. It takes no memory.
    fn discard(&mut self)
        ensures now { SameValues (now self.new) (now self.old) }
        ensures discarded { SameValues (next self.new) (now self.old) };

    /// Makes room for values that change in so many blocks of 256 code points, as far as there is memory. No value changes.
    fn reserve(&mut self, blocks: u32)
        ensures now { SameValues (now self.new) (now self.old) }
        ensures next { SameValues (next self.new) (next self.old) };

    /// Gives back room that no value takes up, as far as a smaller block of memory can be had. No value changes.
    fn shrink_to_fit(&mut self)
        ensures now { SameValues (now self.new) (now self.old) }
        ensures next { SameValues (next self.new) (next self.old) };
}
