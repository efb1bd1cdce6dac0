//! Tables that keep pages.

ghost use Rattle.std.specs.Prelude.{◌≡◌, ◌/◌, ℕ, false, IfOk};
ghost use Rattle.page_pool.specs.Pool.{is_live};
ghost use Rattle.paged_table.specs.Layers.{IsUnused, IsFilled};
ghost use Rattle.paged_table.specs.Pages.{ShowsPage, uneven_count, block_count};

use crate::block::Block;
use crate::layers::{BLOCKS, WIDTH, copy_touched_blocks};
use crate::next::{make_own_blocks, next_blocks};
use crate::span::prepare_span;
use crate::stretches::last_of_stretch_from;
use crate::value::value_in;
use page_pool::PagePool;
use range_table::{Stretches, Table};
use std::alloc::Global;
use std::marker::Model;
use ucd_points::{Copied, Memory, Point, Span};

/// A table of words that keeps the 256 values of a block in a page, or, if they are all equal, keeps that value once.
///
/// Looking a value up takes two reads. `prepare` takes time in proportion to the blocks that its span touches; `commit`
/// and `discard` in proportion to the blocks that were touched since the last of them.
#[derive(Drop)]
pub struct PagedTable {
    // the pages of all blocks, now and next; a page that is the same in both is one page
    pool: PagePool,
    // the blocks now
    committed: Vec<Block>,
    // the blocks next; empty if they are those now, and nothing was prepared since room was given back
    prepared: Vec<Block>,
    // the blocks that may differ
    touched: Vec<u32>,
}

impl Model for PagedTable {
    ghost use Rattle.paged_table.specs.Paged.{Paged, blocks_next};
    ghost use Rattle.paged_table.specs.Layers.{IsApart, Covers};

    ghost Value = { Paged };

    ghost view = { λ t. record { pool = t.pool; committed = t.committed.items; prepared = blocks_next t.committed.items t.prepared.items } };

    ghost invariant = { λ t. IsApart t.pool t.committed.items (blocks_next t.committed.items t.prepared.items)
        × Covers t.touched.items t.committed.items (blocks_next t.committed.items t.prepared.items) };
}

impl PagedTable {
    /// The pool of the table's pages. A page that no block has, now or next, is not live.
    pub fn pool(&self) -> &PagePool
        ensures pool { result.now ≡ self.now.pool }
        ensures unused { (p : ℕ) → IsUnused self.now.committed self.now.prepared p
            → is_live result.now p ≡ false }
    {
        &self.pool
    }

    /// The page of the block of a code point, and `None` exactly if the values now of that block are all equal.
    /// The page is live in the table's pool, and its words are those values, in order.
    pub fn page(&self, c: Point) -> Option<u32>
        ensures { ShowsPage self.now.pool (⟦<PagedTable as Table<u64>>⟧.now self.now)
            (c / 256) result }
    {
        match self.committed[(c.number() / WIDTH) as usize] {
            Block::One(_) => None,
            Block::Page(page) => Some(page),
        }
    }

    /// The number of blocks of 256 code points whose values now are not all equal.
    pub fn pages(&self) -> u32
        ensures { result ≡ uneven_count (⟦<PagedTable as Table<u64>>⟧.now self.now) block_count }
    {
        let mut pages = 0;
        for block in self.committed.as_slice() {
            match block {
                Block::One(_) => {}
                Block::Page(_) => pages += 1,
            }
        }
        pages
    }
}

impl Table<u64> for PagedTable {
    ghost use Rattle.paged_table.specs.Paged.{values_now, values_next};

    ghost now = { values_now };

    ghost next = { values_next };

    fn filled(alloc: Global, value: u64) -> Result<PagedTable, Memory> {
        let committed = filled_blocks(alloc, value)?;
        Ok(PagedTable {
            pool: PagePool::new(alloc),
            committed,
            prepared: Vec::new(alloc),
            touched: Vec::new(alloc),
        })
    }

    fn get(&self, c: Point) -> u64 {
        let block = self.committed[(c.number() / WIDTH) as usize];
        value_in(&self.pool, block, (c.number() % WIDTH) as u8)
    }

    fn get_next(&self, c: Point) -> u64 {
        let blocks = next_blocks(&self.committed, &self.prepared);
        let block = blocks[(c.number() / WIDTH) as usize];
        value_in(&self.pool, block, (c.number() % WIDTH) as u8)
    }

    fn prepare(&mut self, span: Span, value: u64) -> Result<(), Memory> {
        make_own_blocks(&self.committed, &mut self.prepared)?;
        prepare_span(
            &mut self.pool,
            &mut self.touched,
            &self.committed,
            &mut self.prepared,
            span,
            value,
        )
    }

    fn commit(&mut self) {
        if self.prepared.is_empty() {
            return;
        }
        copy_touched_blocks(
            &mut self.pool,
            &self.prepared,
            &mut self.committed,
            &self.touched,
        );
        self.touched.clear();
    }

    fn discard(&mut self) {
        if self.prepared.is_empty() {
            return;
        }
        copy_touched_blocks(
            &mut self.pool,
            &self.committed,
            &mut self.prepared,
            &self.touched,
        );
        self.touched.clear();
    }

    fn reserve(&mut self, blocks: u32) {
        // a span may need two more pages before it gives one back
        let _done = self.pool.reserve(blocks.saturating_add(2));
    }

    fn shrink_to_fit(&mut self) {
        self.pool.shrink_to_fit();
        self.touched.shrink_to_fit();
        if !self.touched.is_empty() {
            return;
        }
        // no block may differ: those next are those now
        self.prepared.clear();
        self.prepared.shrink_to_fit();
    }
}

impl Stretches<u64> for PagedTable {
    fn last_of_stretch(&self, c: Point) -> Point {
        last_of_stretch_from(&self.pool, &self.committed, c)
    }

    fn last_of_stretch_next(&self, c: Point) -> Point {
        last_of_stretch_from(&self.pool, next_blocks(&self.committed, &self.prepared), c)
    }
}

impl Copied for PagedTable {
    fn copied(&self, alloc: Global) -> Result<PagedTable, Memory> {
        let pool = self.pool.copied(alloc)?;
        let committed = Vec::from_slice(alloc, &self.committed)?;
        let prepared = Vec::from_slice(alloc, &self.prepared)?;
        let touched = Vec::from_slice(alloc, &self.touched)?;
        Ok(PagedTable {
            pool,
            committed,
            prepared,
            touched,
        })
    }
}

/// The blocks of all code points, with one value throughout.
///
/// - `Memory`: memory ran out.
fn filled_blocks(alloc: Global, value: u64) -> Result<Vec<Block>, Memory>
    ensures { IfOk result (λ blocks. IsFilled value blocks.items) }
{
    let mut blocks = Vec::with_capacity(alloc, BLOCKS)?;
    for _ in 0..BLOCKS {
        blocks.push_reserved(Block::One(value));
    }
    Ok(blocks)
}
