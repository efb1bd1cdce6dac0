//! A pool in use.

use crate::plain::expect;
use page_pool::PagePool;
use std::alloc::Global;
use std::process::Abort;
use ucd_facts::Memory;

/// What is looked at on a pool of its own. One function owns the pool for all tests: that keeps each of them small.
#[derive(Clone, Copy)]
enum Look {
    Zeros,
    Two,
    One,
}

fn on_a_pool(rt: &impl Abort, alloc: Global, look: Look) -> Result<(), Memory> {
    let mut pool = PagePool::new(alloc);
    look_at(rt, &mut pool, look)
}

fn look_at(rt: &impl Abort, pool: &mut PagePool, look: Look) -> Result<(), Memory> {
    match look {
        Look::Zeros => look_at_zeros(rt, pool),
        Look::Two => look_at_two(rt, pool),
        Look::One => look_at_one(rt, pool),
    }
}

/// All words of a new page are zeros.
fn look_at_zeros(rt: &impl Abort, pool: &mut PagePool) -> Result<(), Memory> {
    pool.reserve(1)?;
    let page = pool.take();
    for at in 0..=255 {
        assert!(rt; pool.get(page, at) == 0);
    }
    Ok(())
}

#[test]
fn a_new_page_has_zeros(rt: HostRuntime) -> Result<(), Memory> {
    on_a_pool(&rt, rt.alloc(), Look::Zeros)
}

/// Two words of two pages, of which the second is made as a copy of the first.
fn look_at_two(rt: &impl Abort, pool: &mut PagePool) -> Result<(), Memory> {
    pool.reserve(2)?;
    let (one, other) = (pool.take(), pool.take());
    pool.set(one, 65, 7);
    pool.copy(one, other);
    pool.set(one, 65, 8);
    pool.set(other, 255, u64::MAX);
    expect(
        rt,
        65,
        Some((pool.get(one, 65), pool.get(other, 65))),
        (8, 7),
    );
    expect(
        rt,
        255,
        Some((pool.get(one, 255), pool.get(other, 255))),
        (0, u64::MAX),
    );
    Ok(())
}

#[test]
fn pages_have_words_of_their_own(rt: HostRuntime) -> Result<(), Memory> {
    on_a_pool(&rt, rt.alloc(), Look::Two)
}

/// A word of a page after the pool has more room and after room is given back, and after the page is given and taken again.
fn look_at_one(rt: &impl Abort, pool: &mut PagePool) -> Result<(), Memory> {
    pool.reserve(1)?;
    let page = pool.take();
    pool.set(page, 3, 9);
    pool.reserve(5)?;
    pool.shrink_to_fit();
    let before = pool.get(page, 3);
    pool.give(page);
    let again = pool.take();
    expect(rt, 3, Some((before, pool.get(again, 3))), (9, 0));
    Ok(())
}

#[test]
fn a_page_keeps_its_words_until_it_is_given(rt: HostRuntime) -> Result<(), Memory> {
    on_a_pool(&rt, rt.alloc(), Look::One)
}
