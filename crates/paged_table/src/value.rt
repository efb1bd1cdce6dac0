//! The values of a block.

ghost use Rattle.std.specs.Prelude.{◌≡◌, ℕ, true};
ghost use Rattle.page_pool.specs.Pool.{is_live};
ghost use Rattle.paged_table.specs.Blocks.{value_of, is_page};

use crate::block::Block;
use page_pool::PagePool;

/// The value at a place of a block.
pub fn value_in(pool: &PagePool, block: Block, at: u8) -> u64
    requires { (p : ℕ) → is_page p block ≡ true → is_live pool.now p ≡ true }
    ensures { result ≡ value_of pool.now block at }
{
    match block {
        Block::One(value) => value,
        Block::Page(page) => pool.get(page, at),
    }
}
