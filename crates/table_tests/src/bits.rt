//! Sets of small numbers that are put in and asked for from one to another.

use crate::plain::expect;
use number_sets::BitSet;
use std::process::Abort;
use ucd_facts::Memory;

fn put_numbers(set: &mut BitSet) -> Result<(), Memory> {
    set.insert_all(3, 5)?;
    set.insert_all(60, 70)?;
    set.insert_all(128, 300)
}

/// Numbers from one to another, and whether any of them is in the set: 1 if so.
const ASKED: [(u32, u32, u64); 8] = [
    (0, 2, 0),
    (0, 3, 1),
    (6, 59, 0),
    (63, 64, 1),
    (71, 127, 0),
    (71, 128, 1),
    (300, 1_114_111, 1),
    (301, 1_114_111, 0),
];

fn look_at(rt: &impl Abort, set: &BitSet) {
    for (first, last, any) in &ASKED {
        let seen = u64::from(set.has_any(*first, *last));
        expect(rt, *first, Some((seen, 0)), (*any, 0));
    }
}

#[test]
fn numbers_from_one_to_another(rt: HostRuntime) -> Result<(), Memory> {
    let mut set = BitSet::new(rt.alloc());
    put_numbers(&mut set)?;
    look_at(&rt, &set);
    Ok(())
}
