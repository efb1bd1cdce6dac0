//! The blocks next, which take no memory as long as they are those now.

ghost use Rattle.std.specs.Prelude.{◌≡◌, OnOk};
ghost use Rattle.paged_table.specs.Paged.{blocks_next};

use crate::block::Block;
use ucd_points::Memory;

/// The blocks next: those of their own list, and those now if that is empty.
pub fn next_blocks<'b>(now: &'b [Block], own: &'b [Block]) -> &'b [Block]
    ensures { result.now ≡ blocks_next now.now own.now }
{
    if own.is_empty() {
        return now;
    }
    own
}

/// Gives the blocks next a list of their own, if they have none.
///
/// - `Memory`: memory ran out.
pub fn make_own_blocks(now: &[Block], own: &mut Vec<Block>) -> Result<(), Memory>
    ensures same { blocks_next now.now own.new.items ≡ blocks_next now.now own.old.items }
    ensures own { OnOk result (own.new.items ≡ blocks_next now.now own.old.items) }
{
    if own.is_empty() {
        own.extend_from_slice(now)?;
    }
    Ok(())
}
