//! The laws of blocks: each function here does nothing, and its contract is a law.

ghost use Rattle.paged_table.specs.Pages.{EvenBlocksAreTold};

/// The blocks that are counted as uneven are exactly those whose 256 values are not all equal.
pub fn even_blocks_are_told()
    ensures { EvenBlocksAreTold }
{}
