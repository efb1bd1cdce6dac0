//! The pool of pages.

ghost use Rattle.std.specs.Prelude.{◌≡◌, ◌≢◌, ℕ, ◌+◌, ◌*◌, ◌-◌, ◌<◌, ◌≤◌, ◌&&◌, ◌||◌, ◌==◌, true, false, not, [], ◌++◌, length, vec_len, vec_capacity, slice_index_or, slice_set, replicate, OnOk, OnErr, if◌then◌else◌};
ghost use Rattle.std.specs.List.{range_with_len};
ghost use Rattle.page_pool.specs.Pool.{Pool, is_live, word_of, spare};

use crate::block::{WORDS, clear_page, copy_page, put, read};
use crate::free::{add_free, give_free, take_free};
use std::alloc::Global;
use std::marker::Model;
use ucd_points::{Copied, Memory};

/// Pages of 256 words, in one block of memory. A page that is taken is live until it is given back.
/// Contracts see the words, and which pages are live. The block is freed with the pool.
#[derive(Drop)]
pub struct PagePool {
    // the pages, one behind the other
    words: Vec<u64>,
    // for each page whether it is live
    live: Vec<bool>,
    // the pages that are not live, so that one is found at once; it always has room for all of them
    free: Vec<u32>,
}

impl Model for PagePool {
    ghost use Rattle.std.specs.Prelude.{◌≤◌, length, vec_len, vec_capacity};
    ghost use Rattle.page_pool.specs.Pool.{Pool, IsPool};

    ghost Value = { Pool };

    ghost view = { λ p. record { words = p.words.items; live = p.live.items } };

    ghost invariant = { λ p. IsPool (record { words = p.words.items; live = p.live.items }) p.free.items × (vec_len p.live ≤ vec_capacity p.free) };
}

impl PagePool {
    /// The pool without pages. It takes no memory.
    pub fn new(alloc: Global) -> PagePool
        ensures { result ≡ record { words = []; live = [] } }
    {
        PagePool {
            words: Vec::new(alloc),
            live: Vec::new(alloc),
            free: Vec::new(alloc),
        }
    }

    /// Makes room for taking `n` pages.
    ///
    /// - `Memory`: memory ran out. The pool stays as it was.
    pub fn reserve(&mut self, n: u32) -> Result<(), Memory>
        ensures ok { OnOk result (n ≤ spare self.new) }
        ensures live { (p : ℕ) → is_live self.new p ≡ is_live self.old p }
        ensures words { (p a : ℕ) → is_live self.old p ≡ true → a < 256
            → word_of self.new p a ≡ word_of self.old p a }
        ensures err { OnErr result (self.new ≡ self.old) }
    {
        if n as usize <= self.free.len() {
            return Ok(());
        }
        let more = n as usize - self.free.len();
        let pages = self.live.len();
        if pages + more > u32::MAX as usize {
            return Err(Memory);
        }
        self.free.reserve(pages + more)?;
        self.live.reserve(more)?;
        self.words.resize(WORDS * (pages + more), 0)?;
        add_free(&mut self.live, &mut self.free, more);
        Ok(())
    }

    /// Gives back room that no page takes up, as far as a smaller block of memory can be had.
    pub fn shrink_to_fit(&mut self)
        ensures { self.new ≡ self.old }
    {
        self.words.shrink_to_fit();
        self.live.shrink_to_fit();
        self.free.shrink_to(self.live.len());
    }

    /// Takes a page that is not live. It is live then, and all its words are 0. It takes no memory.
    pub fn take(&mut self) -> u32
        requires { 0 < spare self.old }
        ensures fresh { is_live self.old result ≡ false }
        ensures live { (p : ℕ) → is_live self.new p ≡ (p == result || is_live self.old p) }
        ensures zeros { (a : ℕ) → a < 256 → word_of self.new result a ≡ 0 }
        ensures others { (p a : ℕ) → p ≢ result → a < 256
            → word_of self.new p a ≡ word_of self.old p a }
        ensures spare { spare self.new + 1 ≡ spare self.old }
    {
        let page = take_free(&mut self.live, &mut self.free);
        clear_page(self.words.as_mut_slice(), page as usize * WORDS);
        page
    }

    /// Gives a live page back. It is no longer live. It takes no memory.
    pub fn give(&mut self, page: u32)
        requires { is_live self.old page ≡ true }
        ensures live { (p : ℕ) → is_live self.new p ≡ (is_live self.old p && not (p == page)) }
        ensures words { (p a : ℕ) → word_of self.new p a ≡ word_of self.old p a }
        ensures spare { spare self.new ≡ spare self.old + 1 }
    {
        give_free(&mut self.live, &mut self.free, page);
    }

    /// The word of a live page at a place.
    pub fn get(&self, page: u32, at: u8) -> u64
        requires { is_live self.now page ≡ true }
        ensures { result ≡ word_of self.now page at }
    {
        read(self.words.as_slice(), page as usize * WORDS + at as usize)
    }

    /// Sets the word of a live page at a place. It takes no memory.
    pub fn set(&mut self, page: u32, at: u8, word: u64)
        requires { is_live self.old page ≡ true }
        ensures word { word_of self.new page at ≡ word }
        ensures elsewhere { (a : ℕ) → a < 256 → a ≢ at
            → word_of self.new page a ≡ word_of self.old page a }
        ensures others { (p a : ℕ) → p ≢ page → a < 256
            → word_of self.new p a ≡ word_of self.old p a }
        ensures live { (p : ℕ) → is_live self.new p ≡ is_live self.old p }
        ensures spare { spare self.new ≡ spare self.old }
    {
        put(
            self.words.as_mut_slice(),
            page as usize * WORDS + at as usize,
            word,
        );
    }

    /// Copies the words of a live page into another one. Each page keeps words of its own. It takes no memory.
    pub fn copy(&mut self, from: u32, to: u32)
        requires from { is_live self.old from ≡ true }
        requires to { is_live self.old to ≡ true }
        requires apart { from ≢ to }
        ensures words { (a : ℕ) → a < 256 → word_of self.new to a ≡ word_of self.old from a }
        ensures others { (p a : ℕ) → p ≢ to → a < 256
            → word_of self.new p a ≡ word_of self.old p a }
        ensures live { (p : ℕ) → is_live self.new p ≡ is_live self.old p }
        ensures spare { spare self.new ≡ spare self.old }
    {
        copy_page(
            self.words.as_mut_slice(),
            from as usize * WORDS,
            to as usize * WORDS,
        );
    }
}

impl Copied for PagePool {
    fn copied(&self, alloc: Global) -> Result<PagePool, Memory> {
        let words = Vec::from_slice(alloc, &self.words)?;
        let live = Vec::from_slice(alloc, &self.live)?;
        let mut free = Vec::with_capacity(alloc, self.live.len())?;
        free.extend_from_slice(&self.free)?;
        Ok(PagePool { words, live, free })
    }
}
