//! Where the stretches of tables of both kinds end.

use crate::plain::{expect, span};
use paged_table::PagedTable;
use range_table::{RunTable, Stretches};
use std::alloc::Global;
use std::process::Abort;
use ucd_facts::{Memory, Point};

/// A span that gets 2 next, after 0041..005A got 1, and code points with the ends of their stretches, now and next.
type Ends = ((u32, u32), &'static [(u32, (u64, u64))]);

/// A stretch of pages goes over blocks of one value, up to the next page.
const PAGE_ENDS: Ends = (
    (0x0300, 0x0380),
    &[
        (0x0000, (0x0040, 0x0040)),
        (0x0041, (0x005A, 0x005A)),
        (0x005B, (0x10FF, 0x02FF)),
        (0x0123, (0x11FF, 0x02FF)),
        (0x0300, (0x13FF, 0x0380)),
        (0x0381, (0x13FF, 0x13FF)),
        (0x10_FF00, (0x10_FFFF, 0x10_FFFF)),
    ],
);

const RUN_ENDS: Ends = (
    (0x0045, 0x0045),
    &[
        (0x0000, (0x0040, 0x0040)),
        (0x0041, (0x005A, 0x0044)),
        (0x0045, (0x005A, 0x0045)),
        (0x0046, (0x005A, 0x005A)),
        (0x005B, (0x10_FFFF, 0x10_FFFF)),
    ],
);

/// Where the stretches of a code point end, now and next.
fn ends<T: Stretches<u64>>(table: &T, number: u32) -> Option<(u64, u64)> {
    let c = Point::new(number)?;
    let (now, next) = (table.last_of_stretch(c), table.last_of_stretch_next(c));
    Some((u64::from(now.number()), u64::from(next.number())))
}

fn look_at_ends<T: Stretches<u64>>(
    rt: &impl Abort,
    table: &mut T,
    wanted: Ends,
) -> Result<(), Memory> {
    let ((lo, hi), rows) = wanted;
    table.prepare(span(0x41, 0x5A), 1)?;
    table.commit();
    table.prepare(span(lo, hi), 2)?;
    for (number, expected) in rows {
        expect(rt, *number, ends(table, *number), *expected);
    }
    Ok(())
}

fn look_at<T: Stretches<u64>>(rt: &impl Abort, alloc: Global, wanted: Ends) -> Result<(), Memory> {
    let mut table = T::filled(alloc, 0)?;
    look_at_ends(rt, &mut table, wanted)
}

#[test]
fn stretches_of_pages_end_with_the_value_or_with_a_block(rt: HostRuntime) -> Result<(), Memory> {
    look_at::<PagedTable>(&rt, rt.alloc(), PAGE_ENDS)
}

#[test]
fn stretches_of_runs_reach_to_the_next_change(rt: HostRuntime) -> Result<(), Memory> {
    look_at::<RunTable<u64>>(&rt, rt.alloc(), RUN_ENDS)
}
