//! How far equal values reach in a paged table.

ghost use Rattle.std.specs.Prelude.{◌≡◌, ◌≢◌, ℕ, ◌+◌, ◌*◌, ◌/◌, ◌%◌, ◌<◌, ◌≤◌, true, length};
ghost use Rattle.page_pool.specs.Pool.{is_live};
ghost use Rattle.paged_table.specs.Blocks.{block_at, value_of, values, is_page};
ghost use Rattle.paged_table.specs.declared.block.Block.TheVariants.{One};

use crate::block::Block;
use crate::layers::{BLOCKS, WIDTH};
use crate::value::value_in;
use page_pool::PagePool;
use ucd_points::Point;

/// The greatest number of blocks that a stretch reaches behind the block of its code point.
const REACH: usize = 16;

/// The last code point of a stretch of equal values that begins at a code point. It ends where the value changes, or at
/// the end of a block: that of the code point, or that of one of the 16 behind it.
pub fn last_of_stretch_from(pool: &PagePool, blocks: &[Block], c: Point) -> Point
    requires count { length blocks.now ≡ 4352 }
    requires live { (b p : ℕ) → is_page p (block_at blocks.now b) ≡ true
        → is_live pool.now p ≡ true }
    ensures from { c ≤ result }
    ensures same { (k : ℕ) → c ≤ k → k ≤ result
        → values pool.now blocks.now k ≡ values pool.now blocks.now c }
    ensures ends { (result + 1) % 256 ≢ 0
        → values pool.now blocks.now (result + 1) ≢ values pool.now blocks.now c }
{
    let block = (c.number() / WIDTH) as usize;
    let at = (c.number() % WIDTH) as u8;
    let last = last_alike_in_block(pool, blocks[block], at);
    let end = if last == 255 {
        let value = value_in(pool, blocks[block], at);
        last_alike_block(blocks, block, value)
    } else {
        block
    };
    Point::new(end as u32 * WIDTH + u32::from(last)).unwrap_or(c)
}

/// The last place of a block up to which the values are those of a place.
fn last_alike_in_block(pool: &PagePool, block: Block, at: u8) -> u8
    requires { (p : ℕ) → is_page p block ≡ true → is_live pool.now p ≡ true }
    ensures from { at ≤ result }
    ensures same { (a : ℕ) → at ≤ a → a ≤ result
        → value_of pool.now block a ≡ value_of pool.now block at }
    ensures ends { result < 255 → value_of pool.now block (result + 1)
        ≢ value_of pool.now block at }
{
    if let Block::Page(page) = block {
        let value = pool.get(page, at);
        for next in at..255 {
            if pool.get(page, next + 1) != value {
                return next;
            }
        }
    }
    255
}

/// The last of the blocks behind a block, one after another, that have the value throughout, and at most 16 of them.
fn last_alike_block(blocks: &[Block], block: usize, value: u64) -> usize
    requires count { length blocks.now ≡ 4352 }
    requires block { block < 4352 }
    ensures from { block ≤ result }
    ensures bound { result < 4352 }
    ensures ones { (b : ℕ) → block < b → b ≤ result → block_at blocks.now b ≡ One value }
{
    let end = BLOCKS.min(block + 1 + REACH);
    for next in block + 1..end {
        match blocks[next] {
            Block::One(word) if word == value => {}
            _ => return next - 1,
        }
    }
    end - 1
}
