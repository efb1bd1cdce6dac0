//! Worked maps of dependants.

ghost use Rattle.std.specs.Prelude.{◌<◌};

use dependency_map::{Askers, DependencyMap, Listing};
use point_store::{SlotStore, Store};
use range_table::{RunTable, Stretches};
use std::alloc::Global;
use std::process::Abort;
use ucd_facts::{Memory, Point, Queries, Query, Span};

/// A letter, and the base and the mark that it decomposes to.
type Letter = [Point; 3];

/// A with this mark, under this number.
fn letter(c: u32, mark: u32) -> Letter
    requires letter { c < 1114112 }
    requires mark { mark < 1114112 }
{
    [Point::at(c), Point::at(0x41), Point::at(mark)]
}

fn grave() -> Letter {
    letter(0xC0, 0x300)
}

fn acute() -> Letter {
    letter(0xC1, 0x301)
}

/// What a letter asks that decomposes to a base and a mark.
fn composed(alloc: Global, letter: Letter) -> Result<Queries, Memory> {
    let [c, base, mark] = letter;
    let mut asked = Queries::new(alloc);
    asked.append(&[
        Query::Row(c),
        Query::Second(c),
        Query::Row(base),
        Query::Row(mark),
        Query::Pair(base, mark),
    ])?;
    Ok(asked)
}

/// The number of the next one that asks.
fn next_number<S: Store<Option<Queries>>>(askers: &mut Askers<'_, S>) -> Option<u32> {
    Some(askers.next()?.number())
}

/// Whether just these code points ask the question now.
fn has_askers<S: Store<Option<Queries>>>(
    map: &DependencyMap<S>,
    query: Query,
    wanted: &[u32],
) -> bool {
    let mut askers = map.askers(query);
    for number in wanted {
        if next_number(&mut askers) != Some(*number) {
            return false;
        }
    }
    askers.next().is_none()
}

fn expect<S: Store<Option<Queries>>>(
    rt: &impl Abort,
    map: &DependencyMap<S>,
    query: Query,
    wanted: &[u32],
) {
    let found = has_askers(map, query, wanted);
    assert!(rt; found, "{query:?}");
}

/// Gives a letter what it asks.
fn put<S: Store<Option<Queries>>>(
    alloc: Global,
    map: &mut DependencyMap<S>,
    letter: Letter,
) -> Result<(), Memory> {
    let asked = composed(alloc, letter)?;
    map.prepare(letter[0], &asked)
}

fn row(number: u32) -> Query
    requires { number < 1114112 }
{
    Query::Row(Point::at(number))
}

/// What is looked at on a map of its own. The functions see any map, and one of them owns it: that keeps each small.
#[derive(Clone, Copy)]
enum Look {
    Listing,
    Sweeps,
}

fn on_runs(rt: &impl Abort, alloc: Global, look: Look) -> Result<(), Memory> {
    on_a_map::<RunTable<u64>>(rt, alloc, look)
}

fn on_a_map<T: Stretches<u64>>(rt: &impl Abort, alloc: Global, look: Look) -> Result<(), Memory> {
    let mut map = map_of::<SlotStore<T, Option<Queries>>>(alloc, look)?;
    look_at(rt, alloc, &mut map, look)
}

fn map_of<S: Store<Option<Queries>>>(
    alloc: Global,
    look: Look,
) -> Result<DependencyMap<S>, Memory> {
    match look {
        Look::Listing => listed(alloc),
        _ => Ok(DependencyMap::new(alloc)),
    }
}

fn look_at<T: Stretches<u64>>(
    rt: &impl Abort,
    alloc: Global,
    map: &mut DependencyMap<SlotStore<T, Option<Queries>>>,
    look: Look,
) -> Result<(), Memory> {
    match look {
        Look::Listing => look_at_listing(rt, alloc, map),
        Look::Sweeps => sweep_letters(rt, alloc, map),
    }
}

#[test]
fn askers_after_sweeps(rt: HostRuntime) -> Result<(), Memory> {
    on_runs(&rt, rt.alloc(), Look::Sweeps)
}

/// A with grave gets another mark so often that the code points are listed anew.
fn sweep_letters<T: Stretches<u64>>(
    rt: &impl Abort,
    alloc: Global,
    map: &mut DependencyMap<SlotStore<T, Option<Queries>>>,
) -> Result<(), Memory> {
    put(alloc, map, acute())?;
    for round in 0..1_000 {
        sweep_letter(alloc, map, 0x310 + round % 8)?;
    }
    look_at_swept(rt, map);
    Ok(())
}

/// A with grave gets this mark.
fn sweep_letter<T: Stretches<u64>>(
    alloc: Global,
    map: &mut DependencyMap<SlotStore<T, Option<Queries>>>,
    mark: u32,
) -> Result<(), Memory>
    requires { mark < 1114112 }
{
    put(alloc, map, letter(0xC0, mark))?;
    map.commit();
    map.sweep();
    Ok(())
}

fn look_at_swept<S: Store<Option<Queries>>>(rt: &impl Abort, map: &DependencyMap<S>) {
    expect(rt, map, row(0x41), &[0x41, 0xC0, 0xC1]);
    expect(rt, map, row(0x301), &[0xC1, 0x301]);
    expect(rt, map, row(0x310), &[0x310]);
    expect(rt, map, row(0x317), &[0xC0, 0x317]);
}

#[test]
fn askers_of_a_listing(rt: HostRuntime) -> Result<(), Memory> {
    on_runs(&rt, rt.alloc(), Look::Listing)
}

/// The map in which A with grave is listed.
fn listed<S: Store<Option<Queries>>>(alloc: Global) -> Result<DependencyMap<S>, Memory> {
    let letter = grave();
    let mut listing: Listing<S> = Listing::new(alloc);
    list(alloc, &mut listing, letter)?;
    Ok(listing.finish())
}

fn list<S: Store<Option<Queries>>>(
    alloc: Global,
    listing: &mut Listing<S>,
    letter: Letter,
) -> Result<(), Memory> {
    let asked = composed(alloc, letter)?;
    listing.put(letter[0], &asked)
}

/// A with acute is prepared in the map that is made of the listing.
fn look_at_listing<S: Store<Option<Queries>>>(
    rt: &impl Abort,
    alloc: Global,
    map: &mut DependencyMap<S>,
) -> Result<(), Memory> {
    expect(rt, map, row(0x41), &[0x41, 0xC0]);
    put(alloc, map, acute())?;
    map.commit();
    expect(rt, map, row(0x41), &[0x41, 0xC0, 0xC1]);
    let [_, base, mark] = grave();
    expect(rt, map, Query::Pair(base, mark), &[0xC0]);
    Ok(())
}
