//! Mappings and pairs of earlier states, which are let go.

ghost use Rattle.std.specs.Prelude.{◌≡◌, ◌+◌, ℕ, [], ◌∷◌, true, IfSome, IsTrue, OnOk};
ghost use Rattle.fact_tables.specs.FactTables.{tables_facts, tables_next};
ghost use Rattle.fact_tables.specs.Index.{GathersAll, is_candidate, is_gathered, pair_key};

use crate::fact_tables::FactTables;
use crate::now_or_next::NowOrNext;
use crate::pair_index::{PairIndex, listed_point};
use crate::pair_keys::{PairKeys, pair_base};
use range_table::{Stretches, Table};
use ucd_facts::{Memory, Point};

impl<T: Stretches<u64>> FactTables<T> {
    /// If many mappings were prepared since this was done last, lets go of those that no code point has any more, now
    /// or next, as far as there is memory to look for them. If many pairs were listed and what is next is now, it lists
    /// anew those of the facts now. What is now and next stays.
    pub fn sweep(&mut self)
        ensures now { tables_facts T.now self.new ≡ tables_facts T.now self.old }
        ensures next { tables_next T.now self.new ≡ tables_next T.now self.old }
    {
        self.rests.sweep();
        self.gather_pairs_anew();
    }
}

impl<T: Table<u64>> FactTables<T> {
    /// If the index is due and what is next is now, lists just the code points that may compose the two members of
    /// their mapping, as far as there is memory. It takes steps in proportion to the pairs that are listed.
    fn gather_pairs_anew(&mut self)
        ensures now { tables_facts T.now self.new ≡ tables_facts T.now self.old }
        ensures next { tables_next T.now self.new ≡ tables_next T.now self.old }
    {
        if !self.index.is_gathering_due() || !self.has_nothing_prepared() {
            return;
        }
        match self.candidates() {
            Some(keys) => self.index = PairIndex::of(self.index.allocator(), keys),
            None => self.index.put_off_gathering(),
        }
    }

    /// Whether no code point is touched, so that what is next is now.
    fn has_nothing_prepared(&self) -> bool
        ensures { IsTrue result → tables_next T.now self.now ≡ tables_facts T.now self.now }
    {
        self.touched.as_slice().is_empty()
    }

    /// The keys of all code points that may compose the two members of their mapping now; `None` if memory ran out.
    fn candidates(&self) -> Option<PairKeys>
        ensures { IfSome result (λ keys. GathersAll keys (tables_facts T.now self.now)) }
    {
        let mut keys = PairKeys::new(self.index.allocator());
        let mut from = 0;
        'listed: while let Some(key) = self.index.next_pair_key(from) {
            self.gather_if_candidate(&mut keys, key).ok()?;
            from = key.checked_add(1)?;
        }
        Some(keys)
    }

    /// Gathers the code point of a key, if it may compose the two members of its mapping now and they are those of the key.
    ///
    /// - `Memory`: memory ran out.
    fn gather_if_candidate(&self, keys: &mut PairKeys, key: u64) -> Result<(), Memory>
        ensures grows { (s y q : ℕ) → is_gathered keys.old s y q ≡ true
            → is_gathered keys.new s y q ≡ true }
        ensures kept { OnOk result ((s y q : ℕ)
            → is_candidate (tables_facts T.now self.now q) ≡ true
            → (tables_facts T.now self.now q).mapping ≡ s ∷ y ∷ []
            → key ≡ pair_key s y + q → is_gathered keys.new s y q ≡ true) }
    {
        let Some(q) = listed_point(key) else {
            return Ok(());
        };
        match self.candidate_members(NowOrNext::Now, q) {
            Some(two) => gather_if_keyed(keys, key, two, q),
            None => Ok(()),
        }
    }
}

/// Gathers a code point under the two members of its mapping, if this is its key.
///
/// - `Memory`: memory ran out.
fn gather_if_keyed(
    keys: &mut PairKeys,
    key: u64,
    two: (Point, Point),
    q: Point,
) -> Result<(), Memory>
    ensures grows { (s y r : ℕ) → is_gathered keys.old s y r ≡ true
        → is_gathered keys.new s y r ≡ true }
    ensures kept { OnOk result (key ≡ pair_key two.0 two.1 + q
        → is_gathered keys.new two.0 two.1 q ≡ true) }
{
    if key == pair_base(two.0, two.1) + u64::from(q.number()) {
        keys.put(two.0, two.1, q)
    } else {
        Ok(())
    }
}
