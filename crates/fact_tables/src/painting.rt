//! Tables that are painted span by span.

ghost use Rattle.std.specs.Prelude.{◌≡◌, ℕ, ◌+◌, ◌<◌, ◌^◌, IfOk, if◌then◌else◌};
ghost use Rattle.std.specs.List.{list_any};
ghost use Rattle.range_table.specs.Values.{SameValues};
ghost use Rattle.range_table.specs.RunTable.{values_now};
ghost use Rattle.ucd_facts.specs.Facts.{within};

use crate::points::lesser;
use range_table::{RunTable, Table};
use std::alloc::Global;
use ucd_facts::{Memory, Point, Span};

/// The table with a value at each code point that some span covers, and 0 elsewhere. The spans may stand in any order,
/// and overlap.
///
/// - `Memory`: memory ran out.
pub fn table_of_spans(
    alloc: Global,
    mut spans: Vec<Span>,
    value: u64,
) -> Result<RunTable<u64>, Memory>
    ensures { IfOk result (λ table. SameValues (values_now table)
        (λ c. if list_any (within c) spans.items then value else 0)) }
{
    // in ascending order each span costs the same
    spans.sort_by_key(|span| span.first())?;
    let mut table = RunTable::filled(alloc, 0)?;
    'spans: for span in spans.as_slice() {
        table.prepare(*span, value)?;
    }
    table.commit();
    Ok(table)
}

/// The table with the sum of the values of two tables at each code point. It takes a step for each stretch in which
/// neither table changes.
///
/// - `Memory`: memory ran out.
pub fn sum_of_tables<T: Table<u64>>(
    alloc: Global,
    a: &RunTable<u64>,
    b: &RunTable<u64>,
) -> Result<T, Memory>
    requires { (c : ℕ) → c < 1114112 → values_now a.now c + values_now b.now c < 2 ^ 64 }
    ensures { IfOk result (λ table. SameValues (T.now table)
        (λ c. values_now a.now c + values_now b.now c)) }
{
    let mut table = T::filled(alloc, 0)?;
    let mut at = 0;
    let mut near_a = 0;
    let mut near_b = 0;
    'stretches: while let Some(first) = Point::new(at) {
        let one = a.run(first, near_a);
        let other = b.run(first, near_b);
        let last = lesser(one.last, other.last);
        let span = Span {
            lo: first,
            hi: last,
        };
        table.prepare(span, one.value + other.value)?;
        near_a = one.index;
        near_b = other.index;
        at = last.number() + 1;
    }
    table.commit();
    Ok(table)
}
