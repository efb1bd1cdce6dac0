//! Worked tables of runs.

use crate::plain::{expect, span};
use range_table::{RunTable, Table};
use std::process::Abort;
use ucd_facts::Memory;

type Runs = RunTable<u64>;

/// A span with its value, and how many runs there are when it is committed.
type Counted = (u32, u32, u64, u64);

const COUNTED: [Counted; 11] = [
    (0x0100, 0x01FF, 5, 3),
    (0x0041, 0x0041, 7, 5),
    (0x0000, 0x00FF, 0, 3),
    // touches an equal run, on either side, and joins two
    (0x0200, 0x02FF, 5, 3),
    (0x00F0, 0x00FF, 5, 3),
    (0x0400, 0x04FF, 5, 5),
    (0x0300, 0x03FF, 5, 3),
    // the first and the last code point, the same again, and all
    (0x0000, 0x0000, 9, 4),
    (0x10FFFF, 0x10FFFF, 9, 5),
    (0x10FFFF, 0x10FFFF, 9, 5),
    (0x0000, 0x10FFFF, 9, 1),
];

#[test]
fn runs_are_counted(rt: HostRuntime) -> Result<(), Memory> {
    let mut table: Runs = RunTable::filled(rt.alloc(), 0)?;
    count_runs(&rt, &mut table)
}

fn count_runs(rt: &impl Abort, table: &mut Runs) -> Result<(), Memory> {
    expect(rt, 0, Some((table.runs() as u64, 0)), (1, 0));
    for row in &COUNTED {
        count_after(rt, table, row)?;
    }
    Ok(())
}

fn count_after(rt: &impl Abort, table: &mut Runs, row: &Counted) -> Result<(), Memory> {
    let (lo, hi, value, runs) = *row;
    table.prepare(span(lo, hi), value)?;
    table.commit();
    expect(rt, lo, Some((table.runs() as u64, 0)), (runs, 0));
    Ok(())
}
