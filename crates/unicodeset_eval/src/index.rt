//! The sets of all tests, as they are kept.

ghost use Rattle.unicodeset_eval.specs.RecordPieces.{AreCut};

use crate::record_pieces::RecordRun;
use crate::row_sets::RowSets;
use ucd_model::Records;

/// The sets of all tests by the rows of a release and what is derived from them. It is made once for a state of the
/// records: then a test takes time in proportion to the pieces of equal records, or to the rows of its value. The pieces, and the
/// sets that rows give alone, are lent to it: these stay while other rows change, and most of those while few records do.
#[derive(Drop)]
pub struct SetIndex<'b, B: Records> {
    pub(crate) bench: &'b B,
    pub(crate) pieces: &'b [RecordRun],
    pub(crate) rows: &'b RowSets,
    ghost cut: { ∥ AreCut (B.record_of bench.now) pieces.now ∥₁ },
}
