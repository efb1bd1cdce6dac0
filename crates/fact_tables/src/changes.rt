//! The questions that an edit answers differently.

ghost use Rattle.std.specs.Prelude.{◌≡◌, ℕ, Bool, true, IfOk, OnOk};
ghost use Rattle.std.specs.Bool.{Decides};
ghost use Rattle.std.specs.List.{list_any};
ghost use Rattle.std.specs.List.Sorted.{IsStrictlySortedBy};
ghost use Rattle.ucd_facts.specs.Answers.{TellsChanges, is_asked};
ghost use Rattle.ucd_facts.specs.declared.query.Query.{Query as QueryValue};
ghost use Rattle.fact_tables.specs.Changes.{Gathers, IsTold, is_among, is_reached};
ghost use Rattle.fact_tables.specs.FactTables.{tables_facts, tables_next};

use crate::fact_tables::FactTables;
use crate::now_or_next::NowOrNext;
use crate::reached::Reached;
use crate::reaching::put_unless;
use range_table::{Stretches, Table};
use std::alloc::Global;
use ucd_facts::{Memory, Point, Queries, Query};

impl<T: Stretches<u64>> FactTables<T> {
    /// The questions that the facts now and next do not answer alike: which facts a code point has, which primary
    /// composite a pair has, and whether a code point is the second member of one's mapping. They ascend, each once. The
    /// Unicode Standard, section 3.11, D114.
    ///
    /// It looks at the code points that were touched when next was prepared; if there are none, it takes no time.
    ///
    /// - `Memory`: memory ran out.
    pub fn queries_changed(&self, alloc: Global) -> Result<Queries, Memory>
        ensures tells { IfOk result
            (λ queries. TellsChanges (tables_facts T.now self.now)
            (tables_next T.now self.now) queries) }
        ensures once { IfOk result (λ queries. IsStrictlySortedBy (⟦<Query as Ord>⟧.cmp) queries) }
    {
        let reached = self.reached(alloc, self.touched.as_slice())?;
        let queries = self.all_changed(alloc, reached)?;
        Ok(sorted_queries(queries))
    }
}

impl<T: Table<u64>> FactTables<T> {
    /// The questions that were found, and those on the pairs that were reached.
    fn all_changed(&self, alloc: Global, reached: Reached) -> Result<Vec<Query>, Memory>
        ensures gathers { IfOk result
            (λ queries. Gathers (tables_facts T.now self.now)
            (tables_next T.now self.now) reached.queries.items queries.items) }
        ensures pairs { IfOk result (λ queries. (s y : ℕ)
            → is_reached reached.pairs.items s y ≡ true
            → IsTold (tables_facts T.now self.now) (tables_next T.now self.now) queries.items
            (Query.Pair s y)) }
        ensures seconds { IfOk result (λ queries. (s y : ℕ)
            → is_reached reached.pairs.items s y ≡ true
            → IsTold (tables_facts T.now self.now) (tables_next T.now self.now) queries.items
            (Query.Second y)) }
    {
        let Reached { mut queries, pairs } = reached;
        self.put_composites(alloc, &mut queries, &pairs)?;
        Ok(queries)
    }

    /// Adds the questions on pairs and on their second members that are answered differently. A second member is asked
    /// about once, whatever number of pairs has it: the code points that are listed under it are gone through for each
    /// question.
    fn put_composites(
        &self,
        alloc: Global,
        queries: &mut Vec<Query>,
        pairs: &[(Point, Point)],
    ) -> Result<(), Memory>
        ensures gathers { OnOk result
            (Gathers (tables_facts T.now self.now)
            (tables_next T.now self.now) queries.old.items queries.new.items) }
        ensures pairs { OnOk result ((s y : ℕ) → is_reached pairs.now s y ≡ true
            → IsTold (tables_facts T.now self.now)
            (tables_next T.now self.now) queries.new.items (Query.Pair s y)) }
        ensures seconds { OnOk result ((s y : ℕ) → is_reached pairs.now s y ≡ true
            → IsTold (tables_facts T.now self.now)
            (tables_next T.now self.now) queries.new.items (Query.Second y)) }
    {
        self.put_pairs(queries, pairs)?;
        let seconds = seconds_of(alloc, pairs)?;
        self.put_seconds(queries, &seconds)
    }

    /// Adds the questions on pairs that are answered differently.
    fn put_pairs(&self, queries: &mut Vec<Query>, pairs: &[(Point, Point)]) -> Result<(), Memory>
        ensures gathers { OnOk result
            (Gathers (tables_facts T.now self.now)
            (tables_next T.now self.now) queries.old.items queries.new.items) }
        ensures pairs { OnOk result ((s y : ℕ) → is_reached pairs.now s y ≡ true
            → IsTold (tables_facts T.now self.now)
            (tables_next T.now self.now) queries.new.items (Query.Pair s y)) }
    {
        'pairs: for pair in pairs {
            let (s, y) = *pair;
            self.put_pair(queries, s, y)?;
        }
        Ok(())
    }

    /// Adds the questions on second members that are answered differently.
    fn put_seconds(&self, queries: &mut Vec<Query>, seconds: &[Point]) -> Result<(), Memory>
        ensures gathers { OnOk result
            (Gathers (tables_facts T.now self.now)
            (tables_next T.now self.now) queries.old.items queries.new.items) }
        ensures told { OnOk result ((y : ℕ) → is_among seconds.now y ≡ true
            → IsTold (tables_facts T.now self.now)
            (tables_next T.now self.now) queries.new.items (Query.Second y)) }
    {
        'seconds: for second in seconds {
            self.put_second(queries, *second)?;
        }
        Ok(())
    }

    /// Adds the question on a pair, if it is answered differently.
    fn put_pair(&self, queries: &mut Vec<Query>, s: Point, y: Point) -> Result<(), Memory>
        ensures gathers { OnOk result
            (Gathers (tables_facts T.now self.now)
            (tables_next T.now self.now) queries.old.items queries.new.items) }
        ensures told { OnOk result
            (IsTold (tables_facts T.now self.now) (tables_next T.now self.now) queries.new.items
            (Query.Pair s y)) }
    {
        let now = self.composite(NowOrNext::Now, s, y);
        let next = self.composite(NowOrNext::Next, s, y);
        let same = is_same_point(now, next);
        put_unless(queries, Query::Pair(s, y), same)
    }

    /// Adds the question on a second member, if it is answered differently.
    fn put_second(&self, queries: &mut Vec<Query>, y: Point) -> Result<(), Memory>
        ensures gathers { OnOk result
            (Gathers (tables_facts T.now self.now)
            (tables_next T.now self.now) queries.old.items queries.new.items) }
        ensures told { OnOk result
            (IsTold (tables_facts T.now self.now) (tables_next T.now self.now) queries.new.items
            (Query.Second y)) }
    {
        let now = self.is_second(NowOrNext::Now, y);
        let next = self.is_second(NowOrNext::Next, y);
        let same = is_same_answer(now, next);
        put_unless(queries, Query::Second(y), same)
    }
}

/// The second members of pairs, ascending, each once.
///
/// - `Memory`: memory ran out.
fn seconds_of(alloc: Global, pairs: &[(Point, Point)]) -> Result<Vec<Point>, Memory>
    ensures among { IfOk result (λ seconds. (s y : ℕ) → is_reached pairs.now s y ≡ true
        → is_among seconds.items y ≡ true) }
    ensures once { IfOk result (λ seconds. IsStrictlySortedBy
        (⟦<Point as Ord>⟧.cmp) seconds.items) }
{
    let mut seconds = Vec::new(alloc);
    'pairs: for pair in pairs {
        let (_, y) = *pair;
        seconds.push(y)?;
    }
    sort_and_dedup(&mut seconds);
    Ok(seconds)
}

/// Whether both are yes, or both no.
fn is_same_answer(a: bool, b: bool) -> bool
    ensures { Decides result (a ≡ b) }
{
    a == b
}

/// Whether both are the same code point, or none.
fn is_same_point(a: Option<Point>, b: Option<Point>) -> bool
    ensures { Decides result (a ≡ b) }
{
    match (a, b) {
        (None, None) => true,
        (Some(a), Some(b)) => a == b,
        _ => false,
    }
}

/// The questions in ascending order, each once. It takes no memory.
fn sorted_queries(mut queries: Vec<Query>) -> Queries
    ensures asked { (q : QueryValue) → is_asked result q ≡ is_asked queries.items q }
    ensures once { IsStrictlySortedBy (⟦<Query as Ord>⟧.cmp) result }
{
    sort_and_dedup(&mut queries);
    Queries::from_vec(queries)
}

/// Sorts items, and keeps each once. It takes no memory.
fn sort_and_dedup<V: Ord + Drop>(items: &mut Vec<V>)
    requires { (a b : V) → V.eq a b ≡ true → a ≡ b }
    ensures same { (p : V → Bool) → list_any p items.new.items ≡ list_any p items.old.items }
    ensures once { IsStrictlySortedBy V.cmp items.new.items }
{
    items.sort_unstable();
    items.dedup();
}
