//! The blocks of all code points, now and next, over one pool.

ghost use Rattle.std.specs.Prelude.{◌≡◌, ◌≢◌, ℕ, ◌+◌, ◌*◌, ◌<◌, ◌≤◌};
ghost use Rattle.page_pool.specs.Pool.{word_of, spare};
ghost use Rattle.paged_table.specs.Blocks.{values, block_at};
ghost use Rattle.paged_table.specs.Layers.{IsApart, Covers};
ghost use Rattle.range_table.specs.Values.{with_span};

use crate::block::Block;
use crate::part::{give_back_own_page, put_part, put_whole};
use page_pool::PagePool;

/// The code points of a block.
pub const WIDTH: u32 = 256;

/// The number of blocks.
pub const BLOCKS: usize = 4352;

/// Gives the code points of a block from place `lo` to place `hi` a value next. There is room for a page.
pub fn put_block(
    pool: &mut PagePool,
    now: &[Block],
    next: &mut [Block],
    block: usize,
    lo: u8,
    hi: u8,
    value: u64,
)
    requires apart { IsApart pool.old now.now next.old }
    requires block { block < 4352 }
    requires ordered { lo ≤ hi }
    requires room { 0 < spare pool.old }
    ensures apart { IsApart pool.new now.now next.new }
    ensures now { (c : ℕ) → values pool.new now.now c ≡ values pool.old now.now c }
    ensures next { (c : ℕ) → values pool.new next.new c
        ≡ with_span (values pool.old next.old) (block * 256 + lo) (block * 256 + hi) value c }
    ensures others { (b : ℕ) → b ≢ block → block_at next.new b ≡ block_at next.old b }
    ensures room { spare pool.old ≤ spare pool.new + 1 }
{
    next[block] = put_part(pool, now[block], next[block], lo, hi, value);
}

/// Gives all code points of a block a value next. It needs no room.
pub fn fill_block(pool: &mut PagePool, now: &[Block], next: &mut [Block], block: usize, value: u64)
    requires apart { IsApart pool.old now.now next.old }
    requires block { block < 4352 }
    ensures apart { IsApart pool.new now.now next.new }
    ensures now { (c : ℕ) → values pool.new now.now c ≡ values pool.old now.now c }
    ensures next { (c : ℕ) → values pool.new next.new c
        ≡ with_span (values pool.old next.old) (block * 256) (block * 256 + 255) value c }
    ensures others { (b : ℕ) → b ≢ block → block_at next.new b ≡ block_at next.old b }
    ensures room { spare pool.old ≤ spare pool.new }
{
    next[block] = put_whole(pool, now[block], next[block], value);
}

/// Makes the blocks of `into` those of `from`. They differ in the touched blocks alone. It takes no memory.
pub fn copy_touched_blocks(pool: &mut PagePool, from: &[Block], into: &mut [Block], touched: &[u32])
    requires apart { IsApart pool.old from.now into.old }
    requires covers { Covers touched.now from.now into.old }
    ensures apart { IsApart pool.new from.now into.new }
    ensures same { (b : ℕ) → block_at into.new b ≡ block_at from.now b }
    ensures words { (p a : ℕ) → word_of pool.new p a ≡ word_of pool.old p a }
{
    for block in touched {
        let at = *block as usize;
        give_back_own_page(pool, from[at], into[at]);
        into[at] = from[at];
    }
}
