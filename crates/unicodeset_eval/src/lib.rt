//! What UnicodeSets mean: sets of code points by their edges, the sets of tests, and the members of a tree. UTS #35,
//! "Unicode Sets".
#![tactic(auto)]

mod apart;
mod asking;
mod assigned;
mod changes;
mod covering;
mod evaluation;
mod index;
mod laws;
mod layers;
mod merging;
mod numbers;
mod pieces_again;
mod point_set;
mod record_pieces;
mod release_eval;
mod renewing;
mod rising;
mod row_sets;
mod splitting;
mod stop;
mod test_sets;
mod testing;
mod unions;

pub use evaluation::eval_over;
pub use index::SetIndex;
pub use laws::{equal_members_have_equal_edges, first_fault_is_told, least_fault_is_told};
pub use point_set::PointSet;
pub use record_pieces::RecordPieces;
pub use release_eval::eval;
pub use row_sets::RowSets;
pub use stop::{EvalStop, NameRule};
pub use test_sets::TestSets;
