//! The tables of facts, now and next.

ghost use Rattle.point_store.specs.SlotStore.{values};
ghost use Rattle.fact_tables.specs.Changes.{StaysOutside};
ghost use Rattle.fact_tables.specs.Index.{Lists};
ghost use Rattle.fact_tables.specs.KeptFacts.{all_kept, Packs};

use crate::packed_mappings::PackedMappings;
use crate::pair_index::PairIndex;
use point_store::SlotStore;
use range_table::Table;
use ucd_facts::Spans;

/// The facts of all code points, now and next. The word of a code point lies in a table of type `T`, packed, and its
/// mappings in a store over such a table.
///
/// Facts are found by two look-ups, and composites in time that grows with the logarithm of their number.
#[derive(Drop)]
pub struct FactTables<T: Table<u64>> {
    // the packed words
    pub(crate) words: T,
    // what is kept beside them
    pub(crate) rests: SlotStore<T, PackedMappings>,
    // the code points whose word now or next lets them compose the two members of their mapping; others may be in it too
    pub(crate) index: PairIndex,
    // the code points outside of which next is now
    pub(crate) touched: Spans,
    ghost now_listed: { Lists index (all_kept (T.now words) (values T.now rests)) },
    ghost next_listed: { Lists index (all_kept (T.next words) (values T.next rests)) },
    ghost now_packs: { Packs (T.now words) (all_kept (T.now words) (values T.now rests)) },
    ghost next_packs: { Packs (T.next words) (all_kept (T.next words) (values T.next rests)) },
    ghost stays: { StaysOutside touched (all_kept (T.now words) (values T.now rests)) (all_kept (T.next words) (values T.next rests)) },
}
