//! What gives the set of a test.

ghost use Rattle.std.specs.Prelude.{◌≡◌, ℕ, Bool, IfOk};
ghost use Rattle.property_aliases.specs.declared.property.Test.{Test};
ghost use Rattle.unicodeset_eval.specs.Edges.{has};

use crate::point_set::PointSet;
use property_aliases::Test;
use std::alloc::Global;
use ucd_model::Memory;

/// The sets of tests, by some rows and by what is derived from them.
pub trait TestSets {
    // of which numbers a test holds
    ghost holds: { Self → Test → ℕ → Bool };

    /// The set of a test.
    ///
    /// - `Memory`: memory ran out.
    fn set_of(&self, alloc: Global, test: Test) -> Result<PointSet, Memory>
        ensures { IfOk result (λ set. (c : ℕ) → has set c ≡ holds self.now test c) };
}
