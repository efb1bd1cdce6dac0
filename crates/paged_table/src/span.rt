//! A span is given a value next: the blocks at its ends in part, those between as a whole.

ghost use Rattle.std.specs.Prelude.{◌≡◌, ℕ, ◌+◌, ◌*◌, ◌/◌, ◌<◌, ◌≤◌, ◌⊎◌, ◌&&◌, nat_le, nat_lt, true, length, if◌then◌else◌, OnOk, OnErr};
ghost use Rattle.page_pool.specs.Pool.{spare};
ghost use Rattle.paged_table.specs.Blocks.{values, block_at};
ghost use Rattle.paged_table.specs.Layers.{IsApart, Covers, listed};
ghost use Rattle.range_table.specs.Values.{with_span};

use crate::block::Block;
use crate::layers::{WIDTH, fill_block, put_block};
use page_pool::PagePool;
use ucd_points::{Memory, Span};

/// Gives the code points of a span a value next, and lists the blocks that it touches. All room is made first.
///
/// - `Memory`: memory ran out. What is next stays.
pub fn prepare_span(
    pool: &mut PagePool,
    touched: &mut Vec<u32>,
    now: &[Block],
    next: &mut [Block],
    span: Span,
    value: u64,
) -> Result<(), Memory>
    requires apart { IsApart pool.old now.now next.old }
    requires covers { Covers touched.old.items now.now next.old }
    ensures apart { IsApart pool.new now.now next.new }
    ensures covers { Covers touched.new.items now.now next.new }
    ensures now { (c : ℕ) → values pool.new now.now c ≡ values pool.old now.now c }
    ensures ok { OnOk result ((c : ℕ)
        → values pool.new next.new c
        ≡ with_span (values pool.old next.old) span.lo span.hi value c) }
    ensures err { OnErr result ((c : ℕ) → values pool.new next.new c ≡ values pool.old next.old c) }
{
    pool.reserve(2)?;
    list_touched(
        touched,
        now,
        next,
        span.first() / WIDTH,
        span.last() / WIDTH,
    )?;
    put_span(pool, now, next, span, value);
    Ok(())
}

/// Lists the blocks from `first` to `last` as touched.
///
/// - `Memory`: memory ran out. Some of them may be listed.
fn list_touched(
    touched: &mut Vec<u32>,
    now: &[Block],
    next: &[Block],
    first: u32,
    last: u32,
) -> Result<(), Memory>
    requires covers { Covers touched.old.items now.now next.now }
    requires now { length now.now ≡ 4352 }
    requires next { length next.now ≡ 4352 }
    requires ordered { first ≤ last }
    requires last { last < 4352 }
    ensures covers { Covers touched.new.items now.now next.now }
    ensures reached { OnOk result ((b : ℕ) → first ≤ b → b ≤ last
        → listed touched.new.items b ≡ true) }
{
    for block in first..last + 1 {
        // if the two differ, the block is listed already
        if now[block as usize].is_same(next[block as usize]) {
            touched.push(block)?;
        }
    }
    Ok(())
}

/// Gives the code points of a span a value next. There is room for two pages.
fn put_span(pool: &mut PagePool, now: &[Block], next: &mut [Block], span: Span, value: u64)
    requires apart { IsApart pool.old now.now next.old }
    requires room { 2 ≤ spare pool.old }
    ensures apart { IsApart pool.new now.now next.new }
    ensures now { (c : ℕ) → values pool.new now.now c ≡ values pool.old now.now c }
    ensures next { (c : ℕ) → values pool.new next.new c
        ≡ with_span (values pool.old next.old) span.lo span.hi value c }
    ensures others { (b : ℕ) → (b < span.lo / 256) ⊎ (span.hi / 256 < b)
        → block_at next.new b ≡ block_at next.old b }
{
    let lo = span.first();
    let hi = span.last();
    let first = (lo / WIDTH) as usize;
    let last = (hi / WIDTH) as usize;
    let low = (lo % WIDTH) as u8;
    let high = (hi % WIDTH) as u8;
    if first == last {
        put_block(pool, now, next, first, low, high, value);
        return;
    }
    put_block(pool, now, next, first, low, 255, value);
    fill_blocks(pool, now, next, first + 1, last, value);
    put_block(pool, now, next, last, 0, high, value);
}

/// Gives all code points of the blocks from `from` up to `to` a value next. It needs no room.
fn fill_blocks(
    pool: &mut PagePool,
    now: &[Block],
    next: &mut [Block],
    from: usize,
    to: usize,
    value: u64,
)
    requires apart { IsApart pool.old now.now next.old }
    requires ordered { from ≤ to }
    requires to { to ≤ 4352 }
    ensures apart { IsApart pool.new now.now next.new }
    ensures now { (c : ℕ) → values pool.new now.now c ≡ values pool.old now.now c }
    ensures next { (c : ℕ) → values pool.new next.new c
        ≡ (if nat_le (from * 256) c
        && nat_lt c (to * 256) then value else values pool.old next.old c) }
    ensures others { (b : ℕ) → (b < from) ⊎ (to ≤ b) → block_at next.new b ≡ block_at next.old b }
    ensures room { spare pool.old ≤ spare pool.new }
{
    for block in from..to {
        fill_block(pool, now, next, block, value);
    }
}
