//! What code points ask next.

ghost use Rattle.std.specs.Prelude.{◌≡◌, None, Some, IsTrue, OnOk, OnErr};
ghost use Rattle.range_table.specs.Values.{SameValues, with_span};
ghost use Rattle.dependency_map.specs.Askers.{own_queries};
ghost use Rattle.dependency_map.specs.Index.{kept_at};
ghost use Rattle.dependency_map.specs.Maps.{asked_at};

use crate::asker_index::put_asker_keys;
use crate::dependencies::DependencyMap;
use crate::relisting::FEW;
use number_sets::KeySet;
use point_store::Store;
use std::alloc::Global;
use ucd_facts::{Memory, Point, Queries, Query, Span};

impl<S: Store<Option<Queries>>> DependencyMap<S> {
    /// The map in which all code points are plain, now and next. It takes no memory.
    pub fn new(alloc: Global) -> DependencyMap<S>
        ensures now { asked_at S.now result ≡ own_queries }
        ensures next { asked_at S.next result ≡ own_queries }
    {
        DependencyMap {
            alloc,
            lists: None,
            askers: KeySet::new(alloc),
            prepared: 0,
            few: FEW,
        }
    }

    /// Gives a code point its questions next. What is now stays. If it is plain and stays so, it takes no memory.
    ///
    /// - `Memory`: memory ran out. What is next stays too.
    pub fn prepare(&mut self, c: Point, asked: &Queries) -> Result<(), Memory>
        ensures now { SameValues (asked_at S.now self.new) (asked_at S.now self.old) }
        ensures ok { OnOk result (SameValues (asked_at S.next self.new)
            (with_span (asked_at S.next self.old) c c asked.now)) }
        ensures err { OnErr result
            (SameValues (asked_at S.next self.new) (asked_at S.next self.old)) }
    {
        if is_unlisted(&self.lists, c) && are_own(asked, c) {
            return Ok(());
        }
        let copy = Queries::of(self.alloc, asked.as_slice())?;
        self.prepared = self.prepared.saturating_add(asked.len());
        put_asker_keys(&mut self.askers, c, asked)?;
        put_list(self.alloc, &mut self.lists, c, copy)
    }

    /// What is next becomes now, and stays next. It takes no memory.
    pub fn commit(&mut self)
        ensures committed { SameValues (asked_at S.now self.new) (asked_at S.next self.old) }
        ensures next { SameValues (asked_at S.next self.new) (asked_at S.next self.old) }
    {
        if let Some(lists) = &mut self.lists {
            lists.commit();
        }
    }

    /// What is now becomes next: all that was prepared since the last `commit` is dropped. It takes no memory.
    pub fn discard(&mut self)
        ensures now { SameValues (asked_at S.now self.new) (asked_at S.now self.old) }
        ensures discarded { SameValues (asked_at S.next self.new) (asked_at S.now self.old) }
    {
        if let Some(lists) = &mut self.lists {
            lists.discard();
        }
    }
}

/// Whether no questions are kept for a code point next.
fn is_unlisted<S: Store<Option<Queries>>>(lists: &Option<S>, c: Point) -> bool
    ensures { IsTrue result → kept_at S.next lists.now c ≡ None }
{
    match lists {
        Some(lists) => lists.get_next(c).is_none(),
        None => true,
    }
}

/// Whether these are the questions that a plain code point asks.
fn are_own(asked: &Queries, c: Point) -> bool
    ensures { IsTrue result → asked.now ≡ own_queries c }
{
    match asked.as_slice() {
        [Query::Row(x), Query::Second(y)] => *x == c && *y == c,
        _ => false,
    }
}

/// Gives a code point its questions next. What is kept now stays.
///
/// - `Memory`: memory ran out. What is kept next stays.
pub fn put_list<S: Store<Option<Queries>>>(
    alloc: Global,
    lists: &mut Option<S>,
    c: Point,
    asked: Queries,
) -> Result<(), Memory>
    ensures now { SameValues (kept_at S.now lists.new) (kept_at S.now lists.old) }
    ensures ok { OnOk result (SameValues (kept_at S.next lists.new)
        (with_span (kept_at S.next lists.old) c c (Some asked))) }
    ensures err { OnErr result (SameValues (kept_at S.next lists.new) (kept_at S.next lists.old)) }
{
    let mut kept = match lists.take() {
        Some(kept) => kept,
        None => S::filled(alloc, None)?,
    };
    let done = kept.prepare(Span::one(c), Some(asked));
    *lists = Some(kept);
    done
}
