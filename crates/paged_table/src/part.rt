//! Parts of a block are given a value.

ghost use Rattle.std.specs.Prelude.{◌≡◌, ◌≢◌, ℕ, ◌+◌, ◌<◌, ◌≤◌, IsTrue, true, false};
ghost use Rattle.page_pool.specs.Pool.{is_live, word_of, spare};
ghost use Rattle.paged_table.specs.Blocks.{value_of, is_page, with_part, IsOutside};
ghost use Rattle.paged_table.specs.Puts.{Puts};

use crate::block::Block;
use page_pool::PagePool;

/// Gives the places of a block from `lo` to `hi` a value. `now` is what the block is now, and `next` what it is next:
/// the answer is what it is next then. There is room for a page.
pub fn put_part(pool: &mut PagePool, now: Block, next: Block, lo: u8, hi: u8, value: u64) -> Block
    requires ordered { lo ≤ hi }
    requires room { 0 < spare pool.old }
    requires now { (p : ℕ) → is_page p now ≡ true → is_live pool.old p ≡ true }
    requires next { (p : ℕ) → is_page p next ≡ true → is_live pool.old p ≡ true }
    ensures puts { Puts pool.old pool.new now next result lo hi value }
    ensures room { spare pool.old ≤ spare pool.new + 1 }
{
    if has_one_value_after(pool, next, lo, hi, value) {
        return put_whole(pool, now, next, value);
    }
    let page = own_page(pool, now, next);
    fill_words(pool, page, lo, hi, value);
    Block::Page(page)
}

/// Gives all places of a block a value, as `put_part` gives it to some. It needs no room.
pub fn put_whole(pool: &mut PagePool, now: Block, next: Block, value: u64) -> Block
    requires now { (p : ℕ) → is_page p now ≡ true → is_live pool.old p ≡ true }
    requires next { (p : ℕ) → is_page p next ≡ true → is_live pool.old p ≡ true }
    ensures puts { Puts pool.old pool.new now next result 0 255 value }
    ensures one { (p : ℕ) → is_page p result ≡ false }
    ensures value { (a : ℕ) → value_of pool.new result a ≡ value }
    ensures now { (p : ℕ) → is_page p now ≡ true → is_live pool.new p ≡ true }
    ensures others { (p : ℕ) → is_page p next ≡ false → is_live pool.new p ≡ is_live pool.old p }
    ensures words { (p a : ℕ) → word_of pool.new p a ≡ word_of pool.old p a }
    ensures room { spare pool.old ≤ spare pool.new }
{
    give_back_own_page(pool, now, next);
    Block::One(value)
}

/// Gives back the page of `next`, if it has one that `now` does not have.
pub fn give_back_own_page(pool: &mut PagePool, now: Block, next: Block)
    requires { (p : ℕ) → is_page p next ≡ true → is_live pool.old p ≡ true }
    ensures now { (p : ℕ) → is_page p now ≡ true → is_live pool.new p ≡ is_live pool.old p }
    ensures others { (p : ℕ) → is_page p next ≡ false → is_live pool.new p ≡ is_live pool.old p }
    ensures gone { (p : ℕ) → is_page p next ≡ true → is_page p now ≡ false
        → is_live pool.new p ≡ false }
    ensures words { (p a : ℕ) → word_of pool.new p a ≡ word_of pool.old p a }
    ensures room { spare pool.old ≤ spare pool.new }
{
    if let Block::Page(page) = next {
        if !now.has_page(page) {
            pool.give(page);
        }
    }
}

/// Whether all values of a block are equal to `value` once those from `lo` to `hi` are.
fn has_one_value_after(pool: &PagePool, block: Block, lo: u8, hi: u8, value: u64) -> bool
    requires { (p : ℕ) → is_page p block ≡ true → is_live pool.now p ≡ true }
    ensures even { IsTrue result → IsOutside (value_of pool.now block) lo hi value }
    ensures uneven { IsOutside (value_of pool.now block) lo hi value → IsTrue result }
{
    match block {
        Block::One(word) => word == value || (lo == 0 && hi == 255),
        Block::Page(page) => has_one_value_outside(pool, page, lo, hi, value),
    }
}

/// Whether all words of a page outside of `lo` to `hi` are equal to `value`.
fn has_one_value_outside(pool: &PagePool, page: u32, lo: u8, hi: u8, value: u64) -> bool
    requires { is_live pool.now page ≡ true }
    ensures even { IsTrue result → IsOutside (word_of pool.now page) lo hi value }
    ensures uneven { IsOutside (word_of pool.now page) lo hi value → IsTrue result }
{
    // usually a word beside them tells
    if lo > 0 && pool.get(page, lo - 1) != value {
        return false;
    }
    if hi < 255 && pool.get(page, hi + 1) != value {
        return false;
    }
    for at in 0..=255 {
        if (at < lo || hi < at) && pool.get(page, at) != value {
            return false;
        }
    }
    true
}

/// A page with the values of `next` that `now` does not have: that of `next` itself, or else one that is taken.
fn own_page(pool: &mut PagePool, now: Block, next: Block) -> u32
    requires room { 0 < spare pool.old }
    requires now { (p : ℕ) → is_page p now ≡ true → is_live pool.old p ≡ true }
    requires next { (p : ℕ) → is_page p next ≡ true → is_live pool.old p ≡ true }
    ensures live { is_live pool.new result ≡ true }
    ensures words { (a : ℕ) → a < 256 → word_of pool.new result a ≡ value_of pool.old next a }
    ensures now { (p : ℕ) → is_page p now ≡ true → p ≢ result }
    ensures others { (p : ℕ) → is_page p next ≡ false → is_live pool.old p ≡ true → p ≢ result }
    ensures own { (p : ℕ) → is_page p next ≡ true → is_page p now ≡ false → p ≡ result }
    ensures others_live { (p : ℕ) → p ≢ result → is_live pool.new p ≡ is_live pool.old p }
    ensures others_words { (p a : ℕ) → p ≢ result → a < 256
        → word_of pool.new p a ≡ word_of pool.old p a }
    ensures room { spare pool.old ≤ spare pool.new + 1 }
{
    match next {
        Block::Page(page) => {
            if !now.has_page(page) {
                return page;
            }
            let own = pool.take();
            pool.copy(page, own);
            own
        }
        Block::One(value) => {
            let own = pool.take();
            fill_words(pool, own, 0, 255, value);
            own
        }
    }
}

/// Sets the words of a page from `lo` to `hi`.
fn fill_words(pool: &mut PagePool, page: u32, lo: u8, hi: u8, value: u64)
    requires live { is_live pool.old page ≡ true }
    requires ordered { lo ≤ hi }
    ensures words { (a : ℕ) → a < 256
        → word_of pool.new page a ≡ with_part (word_of pool.old page) lo hi value a }
    ensures others { (p a : ℕ) → p ≢ page → a < 256 → word_of pool.new p a ≡ word_of pool.old p a }
    ensures live { (p : ℕ) → is_live pool.new p ≡ is_live pool.old p }
    ensures room { spare pool.new ≡ spare pool.old }
{
    for at in lo..=hi {
        pool.set(page, at, value);
    }
}
