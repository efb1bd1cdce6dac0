//! Filling, refilling and committing the facts of tables.

ghost use Rattle.std.specs.Prelude.{◌≡◌, ℕ, ◌<◌, true, IfOk, OnOk, OnErr};
ghost use Rattle.std.specs.List.{list_any};
ghost use Rattle.ucd_facts.specs.Facts.{within};
ghost use Rattle.range_table.specs.Values.{SameValues};
ghost use Rattle.fact_tables.specs.Copying.{with_spans, IsListed};
ghost use Rattle.fact_tables.specs.FactTables.{mappings_kept, tables_facts, tables_next};
ghost use Rattle.fact_tables.specs.Index.{is_listed};
ghost use Rattle.fact_tables.specs.KeptFacts.{Packs};
ghost use Rattle.fact_tables.specs.RowTables.{word_in, rest_in, made_facts};
ghost use Rattle.fact_tables.specs.Word.{packed};

use crate::copying::{copy_spans, put_spans};
use crate::data_lists::DataLists;
use crate::fact_tables::FactTables;
use crate::packed_mappings::PackedMappings;
use crate::pair_index::PairIndex;
use crate::pair_keys::PairKeys;
use crate::points::point;
use crate::row_tables::RowTables;
use crate::word::NO_ROW;
use point_store::{SlotStore, Store};
use range_table::Table;
use std::alloc::Global;
use ucd_facts::{Memory, Point, Span, Spans};

impl<T: Table<u64>> FactTables<T> {
    /// The facts of all code points in tables of rows; next they are the same. Room that no value takes up is given back
    /// at the end.
    ///
    /// - `Memory`: memory ran out.
    pub fn filled(alloc: Global, made: &RowTables) -> Result<FactTables<T>, Memory>
        requires words { Packs (word_in made.now) (made_facts made.now) }
        ensures now { IfOk result (λ tables. (c : ℕ) → c < 1114112
            → tables_facts T.now tables c ≡ made_facts made.now c) }
        ensures next { IfOk result (λ tables. (c : ℕ) → c < 1114112
            → tables_next T.now tables c ≡ made_facts made.now c) }
    {
        let mut words = T::filled(alloc, NO_ROW)?;
        let mut rests = SlotStore::filled(alloc, PackedMappings::none())?;
        let index = fill(alloc, &mut words, &mut rests, made)?;
        Ok(FactTables {
            words,
            rests,
            index,
            touched: Spans::new(alloc),
        })
    }

    /// Makes the facts next of the points of spans the same as in tables of rows. Outside of the spans those are the
    /// facts now.
    ///
    /// - `Memory`: memory ran out. What is next stays.
    pub fn refill(&mut self, alloc: Global, made: &RowTables, spans: &[Span]) -> Result<(), Memory>
        requires ready { tables_next T.now self.old ≡ tables_facts T.now self.old }
        requires words { Packs (word_in made.now) (made_facts made.now) }
        ensures now { tables_facts T.now self.new ≡ tables_facts T.now self.old }
        ensures ok { OnOk result ((c : ℕ) → c < 1114112
            → tables_next T.now self.new c
            ≡ with_spans (tables_next T.now self.old) spans.now (made_facts made.now) c) }
        ensures err { OnErr result (tables_next T.now self.new ≡ tables_next T.now self.old) }
    {
        let touched = Spans::of(alloc, spans)?;
        let done = put_spans(
            alloc,
            &mut self.words,
            &mut self.rests,
            &mut self.index,
            made,
            spans,
        );
        if done.is_err() {
            self.words.discard();
            self.rests.discard();
            return done;
        }
        self.touched = touched;
        Ok(())
    }

    /// What is next becomes now, and stays next. It takes no memory.
    pub fn commit(&mut self)
        ensures committed { tables_facts T.now self.new ≡ tables_next T.now self.old }
        ensures next { tables_next T.now self.new ≡ tables_next T.now self.old }
    {
        self.words.commit();
        self.rests.commit();
        self.touched.truncate(0);
    }

    /// What is now becomes next: what was prepared since the last `commit` is dropped. It takes no memory.
    pub fn discard(&mut self)
        ensures now { tables_facts T.now self.new ≡ tables_facts T.now self.old }
        ensures discarded { tables_next T.now self.new ≡ tables_facts T.now self.old }
    {
        self.words.discard();
        self.rests.discard();
        self.touched.truncate(0);
    }

    /// The table of the packed words: a word is the sum of 1 if a row of UnicodeData.txt covers the code point, 2
    /// if CompositionExclusions.txt does, 4 if its Word_Break is MidLetter, MidNumLet or Single_Quote, 8 times the
    /// place of its category, 256 times its class, 65,536 times the place of its kind, and 2 to the power of 24 and the
    /// place of each of its flags.
    pub fn packed(&self) -> &T
        ensures now { (c : ℕ) → c < 1114112
            → T.now result.now c ≡ packed (tables_facts T.now self.now c) }
        ensures next { (c : ℕ) → c < 1114112
            → T.next result.now c ≡ packed (tables_next T.now self.now c) }
    {
        &self.words
    }

    /// How many mappings are kept beside the words, that of each Hangul syllable among them, and those that no code point
    /// has any more until they are let go. It takes time in proportion to the places for them.
    pub fn mapping_count(&self) -> usize
        ensures { result ≡ mappings_kept self.now }
    {
        self.rests.count()
    }
}

/// Makes what is now and next the same as in tables of rows throughout, and lists their code points. Room that no value
/// takes up is given back.
///
/// - `Memory`: memory ran out.
fn fill<T: Table<u64>, S: Store<PackedMappings>>(
    alloc: Global,
    words: &mut T,
    rests: &mut S,
    from: &RowTables,
) -> Result<PairIndex, Memory>
    ensures words_now { OnOk result (SameValues (T.now words.new) (word_in from.now)) }
    ensures words_next { OnOk result (SameValues (T.next words.new) (word_in from.now)) }
    ensures rests_now { OnOk result (SameValues (S.now rests.new) (rest_in from.now)) }
    ensures rests_next { OnOk result (SameValues (S.next rests.new) (rest_in from.now)) }
    ensures listed { IfOk result (λ index. (q : ℕ) → q < 1114112
        → IsListed (is_listed index) from.now q) }
{
    make_room(words, rests, from);
    let mut keys = PairKeys::new(alloc);
    copy_spans(alloc, words, rests, &mut keys, from, &span_of_all_points())?;
    commit_and_shrink(words, rests);
    Ok(PairIndex::of(alloc, keys))
}

/// Makes room for what tables of rows give, as far as there is memory: tables that grow by and by leave holes in it.
fn make_room<T: Table<u64>, S: Store<PackedMappings>>(
    words: &mut T,
    rests: &mut S,
    from: &RowTables,
)
    ensures words_now { SameValues (T.now words.new) (T.now words.old) }
    ensures words_next { SameValues (T.next words.new) (T.next words.old) }
    ensures rests_now { SameValues (S.now rests.new) (S.now rests.old) }
    ensures rests_next { SameValues (S.next rests.new) (S.next rests.old) }
{
    words.reserve(uneven_blocks(|c| from.words.last_of_run(c)));
    rests.reserve(
        estimated_rest_count(&from.lists),
        uneven_blocks(|c| from.last_alike_lists(c)),
    );
}

/// About how many values are kept beside the words: one for each run of three kinds of mappings. There may be some more.
fn estimated_rest_count(lists: &DataLists) -> usize {
    let mappings = lists.mappings.places.runs();
    let uppers = lists.uppers.places.runs();
    let lowers = lists.lowers.places.runs();
    mappings.saturating_add(uppers).saturating_add(lowers)
}

/// In how many blocks of 256 code points values change, which stay up to the code point that is told.
fn uneven_blocks<F: Fn(Point) -> Point>(last_alike: F) -> u32
    requires { F.IsAlwaysCallable last_alike }
{
    let mut blocks = 0;
    let mut at = 0;
    'blocks: while at < Point::COUNT {
        let last = last_alike(point(at)).number();
        if last < at + 255 {
            blocks += 1;
            at += 256;
        } else {
            at = (last + 1) / 256 * 256;
        }
    }
    blocks
}

/// What is next becomes now, and stays next. Room that no value takes up is given back.
fn commit_and_shrink<T: Table<u64>, S: Store<PackedMappings>>(words: &mut T, rests: &mut S)
    ensures words_now { SameValues (T.now words.new) (T.next words.old) }
    ensures words_next { SameValues (T.next words.new) (T.next words.old) }
    ensures rests_now { SameValues (S.now rests.new) (S.next rests.old) }
    ensures rests_next { SameValues (S.next rests.new) (S.next rests.old) }
{
    words.commit();
    words.shrink_to_fit();
    rests.commit();
    rests.shrink_to_fit();
}

/// The span of all code points.
fn span_of_all_points() -> [Span; 1]
    ensures { (c : ℕ) → c < 1114112 → list_any (within c) result ≡ true }
{
    [Span {
        lo: point(0),
        hi: point(Point::COUNT - 1),
    }]
}
