//! Lists of questions.

ghost use Rattle.std.specs.List.Sorted.{IsStrictlySortedBy};
ghost use Rattle.query_laws.specs.Turns.{SameQueries};

use ucd_model::{Queries, Query};

/// The questions of a list in their order, each of them once. It takes no memory.
pub fn query_set(mut asked: Vec<Query>) -> Queries
    ensures same { SameQueries result asked.items }
    ensures rising { IsStrictlySortedBy (⟦<Query as Ord>⟧.cmp) result }
{
    // most repeats stand one behind the other, and are dropped before the list is sorted
    asked.dedup();
    asked.sort_unstable();
    asked.dedup();
    Queries::from_vec(asked)
}
