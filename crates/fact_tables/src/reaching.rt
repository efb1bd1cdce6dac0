//! What an edit reaches: the questions about facts that it answers differently, and the pairs whose composite may
//! differ.

ghost use Rattle.std.specs.Prelude.{◌≡◌, ℕ, ◌%◌, ◌≤◌, true, ◌++◌, [], ◌∷◌, IfOk, IfSome, OnOk, if◌then◌else◌};
ghost use Rattle.std.specs.Bool.{Decides};
ghost use Rattle.std.specs.List.{list_any};
ghost use Rattle.ucd_facts.specs.Facts.{within};
ghost use Rattle.ucd_facts.specs.Composites.{composes};
ghost use Rattle.fact_tables.specs.Changes.{Gathers, Grows, IsDone, IsOnlyChanged, IsSeen, IsTold, ReachesOwn, first_differs, is_reached};
ghost use Rattle.fact_tables.specs.FactTables.{facts_at, rests_at, tables_facts, tables_next, words_at};
ghost use Rattle.fact_tables.specs.Index.{is_listed};
ghost use Rattle.ucd_points.specs.Stretches.{HoldsTo};

use crate::fact_tables::FactTables;
use crate::now_or_next::NowOrNext;
use crate::pair_index::{first_member_base, listed_point};
use crate::points::{lesser, point};
use crate::reached::Reached;
use range_table::{Stretches, Table};
use std::alloc::Global;
use ucd_facts::{Memory, Point, Query, Span, same_facts};

impl<T: Stretches<u64>> FactTables<T> {
    /// What the points of spans give.
    pub(crate) fn reached(&self, alloc: Global, spans: &[Span]) -> Result<Reached, Memory>
        ensures queries { IfOk result
            (λ reached. IsOnlyChanged (tables_facts T.now self.now)
            (tables_next T.now self.now) reached.queries.items) }
        ensures done { IfOk result (λ reached. (c : ℕ) → list_any (within c) spans.now ≡ true
            → IsDone self.now.index (tables_facts T.now self.now)
            (tables_next T.now self.now) reached c) }
    {
        let mut reached = Reached {
            queries: Vec::new(alloc),
            pairs: Vec::new(alloc),
        };
        'spans: for span in spans {
            self.reach_span(&mut reached, *span)?;
        }
        Ok(reached)
    }

    /// Adds what the points of a span give, stretch by stretch.
    fn reach_span(&self, reached: &mut Reached, span: Span) -> Result<(), Memory>
        ensures queries { OnOk result
            (Gathers (tables_facts T.now self.now)
            (tables_next T.now self.now) reached.old.queries.items reached.new.queries.items) }
        ensures pairs { OnOk result (Grows reached.old.pairs.items reached.new.pairs.items) }
        ensures done { OnOk result ((c : ℕ) → span.lo ≤ c → c ≤ span.hi
            → IsDone self.now.index (tables_facts T.now self.now)
            (tables_next T.now self.now) reached.new c) }
    {
        let end = span.last();
        let mut at = span.first();
        'stretches: while at <= end {
            let last = self.reach_from(reached, point(at))?;
            at = last.number() + 1;
        }
        Ok(())
    }

    /// Adds what a code point gives, unless its facts stay. The answer is the last code point up to which all are done.
    fn reach_from(&self, reached: &mut Reached, c: Point) -> Result<Point, Memory>
        ensures queries { OnOk result
            (Gathers (tables_facts T.now self.now)
            (tables_next T.now self.now) reached.old.queries.items reached.new.queries.items) }
        ensures pairs { OnOk result (Grows reached.old.pairs.items reached.new.pairs.items) }
        ensures done { IfOk result
            (HoldsTo (λ d. IsDone self.now.index (tables_facts T.now self.now)
            (tables_next T.now self.now) reached.new d) c) }
    {
        if let Some(last) = self.last_same(c) {
            return Ok(last);
        }
        self.reach(reached, c)?;
        Ok(c)
    }

    /// A code point up to which the facts of all from `c` on are the same now and next; `None` if what is kept of `c` is
    /// not. It is found by a few look-ups, and need not be the last such code point.
    fn last_same(&self, c: Point) -> Option<Point>
        ensures { IfSome result (HoldsTo
            (λ d. tables_facts T.now self.now d ≡ tables_next T.now self.now d) c) }
    {
        let words = self.last_same_word(c)?;
        let rests = self.last_same_rest(c)?;
        let last = lesser(words, rests);
        let _last = last.number();
        Some(last)
    }

    /// A code point up to which the words of all from `c` on are the same now and next; `None` if the word of `c` is not. It
    /// is found by a few look-ups, and need not be the last such code point.
    fn last_same_word(&self, c: Point) -> Option<Point>
        ensures { IfSome result (HoldsTo
            (λ d. words_at NowOrNext.Now self.now d ≡ words_at NowOrNext.Next self.now d) c) }
    {
        let word = self.word(NowOrNext::Now, c);
        let word_next = self.word(NowOrNext::Next, c);
        if word != word_next {
            return None;
        }
        let now = self.words.last_of_stretch(c);
        let next = self.words.last_of_stretch_next(c);
        Some(lesser(now, next))
    }

    /// A code point up to which what is kept beside the words is the same now and next for all from `c` on; `None` if that
    /// of `c` is not. It is found by a few look-ups, and need not be the last such code point.
    fn last_same_rest(&self, c: Point) -> Option<Point>
        ensures { IfSome result (HoldsTo
            (λ d. rests_at NowOrNext.Now self.now d ≡ rests_at NowOrNext.Next self.now d) c) }
    {
        let rest = self.rest(NowOrNext::Now, c);
        let rest_next = self.rest(NowOrNext::Next, c);
        if !rest.is_same(rest_next) {
            return None;
        }
        let now = self.rests.last_of_stretch(c);
        let next = self.rests.last_of_stretch_next(c);
        Some(lesser(now, next))
    }
}

impl<T: Table<u64>> FactTables<T> {
    /// Adds what a code point gives: the question on its facts, the pairs that it composes, and, if its class was or
    /// becomes 0, those that it begins.
    fn reach(&self, reached: &mut Reached, c: Point) -> Result<(), Memory>
        ensures queries { OnOk result
            (Gathers (tables_facts T.now self.now)
            (tables_next T.now self.now) reached.old.queries.items reached.new.queries.items) }
        ensures pairs { OnOk result (Grows reached.old.pairs.items reached.new.pairs.items) }
        ensures seen { OnOk result
            (IsSeen self.now.index (tables_facts T.now self.now)
            (tables_next T.now self.now) reached.new c) }
    {
        self.put_row_query(&mut reached.queries, c)?;
        self.put_own_pairs(&mut reached.pairs, c)?;
        self.put_pairs_of_changed_starter(&mut reached.pairs, c)
    }

    /// Adds the question on the facts of a code point, if they differ.
    fn put_row_query(&self, queries: &mut Vec<Query>, c: Point) -> Result<(), Memory>
        ensures gathers { OnOk result
            (Gathers (tables_facts T.now self.now)
            (tables_next T.now self.now) queries.old.items queries.new.items) }
        ensures told { OnOk result
            (IsTold (tables_facts T.now self.now) (tables_next T.now self.now) queries.new.items
            (Query.Row c)) }
    {
        let same = self.has_same_facts(c);
        put_unless(queries, Query::Row(c), same)
    }

    /// Whether the facts of a code point are the same now and next.
    fn has_same_facts(&self, c: Point) -> bool
        ensures { Decides result (tables_facts T.now self.now c ≡ tables_next T.now self.now c) }
    {
        let now = self.facts_in(NowOrNext::Now, c);
        let next = self.facts_in(NowOrNext::Next, c);
        same_facts(&now, &next)
    }

    /// Adds the pairs that a code point composes, now and next.
    fn put_own_pairs(&self, pairs: &mut Vec<(Point, Point)>, q: Point) -> Result<(), Memory>
        ensures grows { OnOk result (Grows pairs.old.items pairs.new.items) }
        ensures own { OnOk result
            (ReachesOwn (tables_facts T.now self.now)
            (tables_next T.now self.now) pairs.new.items q) }
    {
        self.put_pair_composed(pairs, NowOrNext::Now, q)?;
        self.put_pair_composed(pairs, NowOrNext::Next, q)
    }

    /// Adds the members of the mapping of a code point, if it is a primary composite.
    fn put_pair_composed(
        &self,
        pairs: &mut Vec<(Point, Point)>,
        version: NowOrNext,
        q: Point,
    ) -> Result<(), Memory>
        ensures grows { OnOk result (Grows pairs.old.items pairs.new.items) }
        ensures own { OnOk result ((s y : ℕ) → composes (facts_at version self.now) s y q ≡ true
            → is_reached pairs.new.items s y ≡ true) }
    {
        if let Some(pair) = self.composite_members(version, q) {
            pairs.push(pair)?;
        }
        Ok(())
    }

    /// Adds the pairs that a code point begins, if it has class 0 either now or next, but not both times.
    fn put_pairs_of_changed_starter(
        &self,
        pairs: &mut Vec<(Point, Point)>,
        s: Point,
    ) -> Result<(), Memory>
        ensures grows { OnOk result (Grows pairs.old.items pairs.new.items) }
        ensures first { OnOk result
            (first_differs (tables_facts T.now self.now) (tables_next T.now self.now) s ≡ true
            → (y q : ℕ) → is_listed self.now.index s y q ≡ true
            → ReachesOwn (tables_facts T.now self.now)
            (tables_next T.now self.now) pairs.new.items q) }
    {
        let now = self.class_in(NowOrNext::Now, s) == 0;
        let next = self.class_in(NowOrNext::Next, s) == 0;
        if now == next {
            return Ok(());
        }
        self.put_pairs_listed_under(pairs, s)
    }

    /// Adds the pairs that are composed by a code point which is listed under a first member.
    fn put_pairs_listed_under(
        &self,
        pairs: &mut Vec<(Point, Point)>,
        s: Point,
    ) -> Result<(), Memory>
        ensures grows { OnOk result (Grows pairs.old.items pairs.new.items) }
        ensures listed { OnOk result ((y q : ℕ) → is_listed self.now.index s y q ≡ true
            → ReachesOwn (tables_facts T.now self.now)
            (tables_next T.now self.now) pairs.new.items q) }
    {
        let mut from = first_member_base(s);
        'listed: while let Some(key) = self.index.next_key_of_first(s, from) {
            self.put_pairs_of_key(pairs, key)?;
            from = key + 1;
        }
        Ok(())
    }

    /// Adds the pairs that the code point of a key composes, now and next.
    fn put_pairs_of_key(&self, pairs: &mut Vec<(Point, Point)>, key: u64) -> Result<(), Memory>
        ensures grows { OnOk result (Grows pairs.old.items pairs.new.items) }
        ensures own { OnOk result
            (ReachesOwn (tables_facts T.now self.now)
            (tables_next T.now self.now) pairs.new.items (key % 2097152)) }
    {
        match listed_point(key) {
            Some(q) => self.put_own_pairs(pairs, q),
            None => Ok(()),
        }
    }
}

/// Adds a question, unless it is answered alike.
pub fn put_unless(queries: &mut Vec<Query>, query: Query, same: bool) -> Result<(), Memory>
    ensures { OnOk result (queries.new.items
        ≡ (if same then queries.old.items else queries.old.items ++ query ∷ [])) }
{
    if !same {
        queries.push(query)?;
    }
    Ok(())
}
