//! A list of code points for each code point.

ghost use Rattle.std.specs.Prelude.{vec_len};
ghost use Rattle.range_table.specs.RunTable.{values_now, values_next};
ghost use Rattle.fact_tables.specs.Lists.{Lie};

use crate::pool_range::PoolRange;
use range_table::RunTable;
use ucd_facts::Point;

/// A list of code points for each code point, now and next; at first all are empty.
///
/// Equal stretches are kept once: the lists stand one after another in a pool, and a table has the place of each.
#[derive(Drop)]
pub struct PointLists {
    /// The place of each code point's list in the pool.
    pub places: RunTable<PoolRange>,
    /// The lists, one after another.
    pub pool: Vec<Point>,
    ghost now_lie: { Lie (vec_len pool) (values_now places) },
    ghost next_lie: { Lie (vec_len pool) (values_next places) },
}
