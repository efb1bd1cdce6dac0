//! Tables that are painted with layers.

ghost use Rattle.std.specs.Prelude.{IfOk};
ghost use Rattle.layered_table.specs.Layers.{word_at};
ghost use Rattle.paged_table.specs.Paged.{values_now};
ghost use Rattle.range_table.specs.Values.{SameValues};

use paged_table::PagedTable;
use range_table::Table;
use std::alloc::Global;
use ucd_points::{Memory, Span};

/// A word for the code points of a span.
#[derive(Clone, Copy, Debug)]
pub struct Layer {
    /// The word.
    pub word: u64,
    /// The code points.
    pub span: Span,
}

/// The table with the word of the last layer that covers a code point, and the word `base` if none does.
///
/// Each layer takes time in proportion to the blocks of its span, however wide the others are, and no memory but that
/// of the table.
///
/// - `Memory`: memory ran out.
pub fn table_of_layers(alloc: Global, base: u64, layers: &[Layer]) -> Result<PagedTable, Memory>
    ensures { IfOk result (λ table. SameValues (values_now table) (word_at layers.now base)) }
{
    let mut table = PagedTable::filled(alloc, base)?;
    'layers: for layer in layers {
        table.prepare(layer.span, layer.word)?;
        // a table keeps a list of what was prepared since it was last committed
        table.commit();
    }
    Ok(table)
}
