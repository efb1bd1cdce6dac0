//! Blocks of 256 values.

ghost use Rattle.std.specs.Prelude.{◌≡◌};
ghost use Rattle.paged_table.specs.Blocks.{is_page, same_block};

/// The values of 256 code points, the first of them at a multiple of 256.
#[derive(Clone, Copy)]
pub enum Block {
    /// One value throughout.
    One(u64),
    /// The words of a page.
    Page(u32),
}

impl Block {
    /// Whether the block has a page.
    pub fn has_page(self, page: u32) -> bool
        ensures { result ≡ is_page page self }
    {
        match self {
            Block::One(_) => false,
            Block::Page(own) => page == own,
        }
    }

    /// Whether two blocks have the same value, or the same page.
    pub fn is_same(self, other: Block) -> bool
        ensures { result ≡ same_block self other }
    {
        match (self, other) {
            (Block::One(value), Block::One(word)) => value == word,
            (Block::Page(page), Block::Page(own)) => page == own,
            _ => false,
        }
    }
}
