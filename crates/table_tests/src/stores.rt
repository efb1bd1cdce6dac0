//! Worked stores.

use crate::plain::{expect, span};
use paged_table::PagedTable;
use point_store::{SlotStore, Store};
use range_table::{RunTable, Stretches};
use std::alloc::Global;
use std::process::Abort;
use ucd_facts::{Memory, Point, Span};

/// A value that is not copied.
#[derive(Drop)]
struct Name {
    number: u64,
}

fn named(number: u64) -> Name {
    Name { number }
}

/// A store that lets go of values that no code point has any more.
trait Sweep: Store<Name> {
    fn sweep(&mut self);
}

impl<T: Stretches<u64>> Sweep for SlotStore<T, Name> {
    fn sweep(&mut self) {
        SlotStore::sweep(self)
    }
}

/// What is looked at on a store of its own. The functions see any store, and one of them owns it: that keeps each small.
#[derive(Clone, Copy)]
enum Look {
    Shares,
    Places,
}

fn on_runs(rt: &impl Abort, alloc: Global, look: Look) -> Result<(), Memory> {
    on_a_store::<SlotStore<RunTable<u64>, Name>>(rt, alloc, look)
}

fn on_a_store<S: Sweep>(rt: &impl Abort, alloc: Global, look: Look) -> Result<(), Memory> {
    let mut store = S::filled(alloc, named(0))?;
    look_at(rt, &mut store, look)
}

fn look_at<S: Sweep>(rt: &impl Abort, store: &mut S, look: Look) -> Result<(), Memory> {
    match look {
        Look::Shares => look_at_shares(rt, store),
        Look::Places => look_at_places(rt, store),
    }
}

/// Holds 5 at a place and gives it to two spans, the first of which then has 6 within; the place.
fn share<S: Store<Name>>(store: &mut S) -> Result<u64, Memory> {
    let place = store.hold(named(5))?;
    store.prepare_held(span(0x30, 0x39), place)?;
    store.prepare(span(0x35, 0x36), named(6))?;
    store.prepare_held(span(0x660, 0x669), place)?;
    Ok(place)
}

#[test]
fn spans_share_a_held_value(rt: HostRuntime) -> Result<(), Memory> {
    on_runs(&rt, rt.alloc(), Look::Shares)
}

/// Code points, with their values next, and whether that is the one that is held.
const SHARED: [(u32, u64, bool); 6] = [
    (0x2F, 0, false),
    (0x30, 5, true),
    (0x35, 6, false),
    (0x37, 5, true),
    (0x669, 5, true),
    (0x66A, 0, false),
];

/// The values of a code point, now and next.
fn values<S: Store<Name>>(store: &S, number: u32) -> Option<(u64, u64)> {
    let c = Point::new(number)?;
    Some((store.get(c).number, store.get_next(c).number))
}

/// Whether the value of a code point stands at a place, now and next.
fn are_at<S: Store<Name>>(store: &S, number: u32, place: u64) -> Option<(u64, u64)> {
    let c = Point::new(number)?;
    let (now, next) = (store.place(c) == place, store.place_next(c) == place);
    Some((u64::from(now), u64::from(next)))
}

fn look_at_shares<S: Store<Name>>(rt: &impl Abort, store: &mut S) -> Result<(), Memory> {
    let place = share(store)?;
    for row in &SHARED {
        look_at_share(rt, store, place, row);
    }
    Ok(())
}

fn look_at_share<S: Store<Name>>(rt: &impl Abort, store: &S, place: u64, row: &(u32, u64, bool)) {
    let (number, value, shares) = *row;
    expect(rt, number, values(store, number), (0, value));
    expect(
        rt,
        number,
        are_at(store, number, place),
        (0, u64::from(shares)),
    );
}

/// A code point gets many values, every second of which is dropped before it is committed: it has the last one, at no
/// high place, and its neighbour has the one that it had at first.
fn look_at_places<S: Sweep>(rt: &impl Abort, store: &mut S) -> Result<(), Memory> {
    store.prepare(Span::one(Point::at(0x42)), named(7))?;
    store.commit();
    take_places(store)?;
    expect(rt, 0x41, values(store, 0x41), (19_999, 19_999));
    expect(rt, 0x42, values(store, 0x42), (7, 7));
    assert!(rt; store.place(Point::at(0x41)) < 5_000);
    Ok(())
}

fn take_places<S: Sweep>(store: &mut S) -> Result<(), Memory> {
    for number in 0..20_000 {
        take_place(store, number)?;
    }
    Ok(())
}

fn take_place<S: Sweep>(store: &mut S, number: u64) -> Result<(), Memory> {
    store.prepare(Span::one(Point::at(0x41)), named(number))?;
    if number % 2 == 1 {
        store.commit();
    } else {
        store.discard();
    }
    store.sweep();
    Ok(())
}

#[test]
fn places_of_values_that_went_are_taken_again(rt: HostRuntime) -> Result<(), Memory> {
    on_runs(&rt, rt.alloc(), Look::Places)
}
