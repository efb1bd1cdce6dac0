//! Copying what rows give, stretch by stretch.

ghost use Rattle.std.specs.Prelude.{◌≡◌, ℕ, ◌≤◌, true, Some, OnOk};
ghost use Rattle.std.specs.List.{list_any};
ghost use Rattle.range_table.specs.RunTable.{values_now};
ghost use Rattle.ucd_facts.specs.Facts.{within};
ghost use Rattle.range_table.specs.Values.{SameValues};
ghost use Rattle.fact_tables.specs.Copying.{with_spans, with_values, HasKeys, IsListed};
ghost use Rattle.fact_tables.specs.Index.{is_candidate_word, is_gathered, is_listed};
ghost use Rattle.fact_tables.specs.PointLists.{lists_now};
ghost use Rattle.fact_tables.specs.Rest.{no_rest};
ghost use Rattle.fact_tables.specs.RowTables.{AreBare, word_in, rest_in};

use crate::composing::is_candidate_word;
use crate::packed_mappings::PackedMappings;
use crate::pair_index::PairIndex;
use crate::pair_keys::PairKeys;
use crate::point_lists::PointLists;
use crate::points::{lesser, point};
use crate::row_tables::RowTables;
use point_store::Store;
use range_table::{RunTable, Table};
use std::alloc::Global;
use ucd_facts::{Memory, Point, Span};

/// Makes what is next in spans the same as in the tables of rows, and lists their code points.
///
/// - `Memory`: memory ran out. Nothing is then known of what is next; what was listed stays.
pub fn put_spans<T: Table<u64>, S: Store<PackedMappings>>(
    alloc: Global,
    words: &mut T,
    rests: &mut S,
    index: &mut PairIndex,
    from: &RowTables,
    spans: &[Span],
) -> Result<(), Memory>
    ensures words_now { SameValues (T.now words.new) (T.now words.old) }
    ensures rests_now { SameValues (S.now rests.new) (S.now rests.old) }
    ensures grows { (s y q : ℕ) → is_listed index.old s y q ≡ true
        → is_listed index.new s y q ≡ true }
    ensures words { OnOk result (SameValues (T.next words.new)
        (with_spans (T.next words.old) spans.now (word_in from.now))) }
    ensures rests { OnOk result (SameValues (S.next rests.new)
        (with_spans (S.next rests.old) spans.now (rest_in from.now))) }
    ensures listed { OnOk result ((q : ℕ) → list_any (within q) spans.now ≡ true
        → IsListed (is_listed index.new) from.now q) }
{
    let mut keys = PairKeys::new(alloc);
    copy_spans(alloc, words, rests, &mut keys, from, spans)?;
    index.add(&keys)
}

/// Makes what is next in spans the same as in the tables of rows, and gathers the keys of the code points that may
/// compose two members.
///
/// - `Memory`: memory ran out. Nothing is then known of what is next.
pub fn copy_spans<T: Table<u64>, S: Store<PackedMappings>>(
    alloc: Global,
    words: &mut T,
    rests: &mut S,
    keys: &mut PairKeys,
    from: &RowTables,
    spans: &[Span],
) -> Result<(), Memory>
    ensures words_now { SameValues (T.now words.new) (T.now words.old) }
    ensures rests_now { SameValues (S.now rests.new) (S.now rests.old) }
    ensures grows { (s y q : ℕ) → is_gathered keys.old s y q ≡ true
        → is_gathered keys.new s y q ≡ true }
    ensures words { OnOk result (SameValues (T.next words.new)
        (with_spans (T.next words.old) spans.now (word_in from.now))) }
    ensures rests { OnOk result (SameValues (S.next rests.new)
        (with_spans (S.next rests.old) spans.now (rest_in from.now))) }
    ensures listed { OnOk result ((q : ℕ) → list_any (within q) spans.now ≡ true
        → IsListed (is_gathered keys.new) from.now q) }
{
    'spans: for span in spans {
        gather_pairs(keys, from, *span)?;
        put_words(words, &from.words, *span)?;
        put_rests(alloc, rests, from, *span)?;
    }
    Ok(())
}

/// Makes the values of a span next those of a run table.
///
/// - `Memory`: memory ran out. Nothing is then known of what is next.
pub fn put_words<T: Table<u64>>(
    into: &mut T,
    from: &RunTable<u64>,
    span: Span,
) -> Result<(), Memory>
    ensures now { SameValues (T.now into.new) (T.now into.old) }
    ensures ok { OnOk result (SameValues (T.next into.new)
        (with_values (T.next into.old) span.lo span.hi (values_now from.now))) }
{
    let end = span.last();
    let mut at = span.first();
    let mut near = 0;
    'stretches: while at <= end {
        let first = point(at);
        let run = from.run(first, near);
        let last = lesser(run.last, point(end));
        let part = Span {
            lo: first,
            hi: last,
        };
        into.prepare(part, run.value)?;
        near = run.index;
        at = last.number() + 1;
    }
    Ok(())
}

/// Makes what is kept next beside the words of a span the same as in the tables.
///
/// - `Memory`: memory ran out. Nothing is then known of what is next.
pub fn put_rests<S: Store<PackedMappings>>(
    alloc: Global,
    into: &mut S,
    from: &RowTables,
    span: Span,
) -> Result<(), Memory>
    ensures now { SameValues (S.now into.new) (S.now into.old) }
    ensures ok { OnOk result (SameValues (S.next into.new)
        (with_values (S.next into.old) span.lo span.hi (rest_in from.now))) }
{
    let none = into.hold(PackedMappings::none())?;
    put_rests_with(alloc, into, from, span, none)
}

/// Makes what is kept next beside the words of a span the same as in the tables, given the place of the rest of code points that have none.
fn put_rests_with<S: Store<PackedMappings>>(
    alloc: Global,
    into: &mut S,
    from: &RowTables,
    span: Span,
    none: u64,
) -> Result<(), Memory>
    requires { S.held into.old none ≡ Some no_rest }
    ensures now { SameValues (S.now into.new) (S.now into.old) }
    ensures ok { OnOk result (SameValues (S.next into.new)
        (with_values (S.next into.old) span.lo span.hi (rest_in from.now))) }
{
    let end = span.last();
    let mut at = span.first();
    // code points from `at` to before `bare` have no more than a decomposition mapping
    let mut bare = at;
    let mut near = 0;
    'stretches: while at <= end {
        let first = point(at);
        if bare <= at {
            bare = from.bare_until(first);
        }
        let mapping = from.lists.mappings.run(first, near);
        let last = lesser(from.last_alike_rest(first, bare, mapping.last), point(end));
        let part = Span {
            lo: first,
            hi: last,
        };
        put_rest(alloc, into, from, part, bare, mapping.points, none)?;
        near = mapping.index;
        at = last.number() + 1;
    }
    Ok(())
}

/// Gives the points of a span what is kept of the first of them, which has this decomposition mapping.
fn put_rest<S: Store<PackedMappings>>(
    alloc: Global,
    into: &mut S,
    from: &RowTables,
    part: Span,
    bare: u32,
    mapping: &[Point],
    none: u64,
) -> Result<(), Memory>
    requires bare { AreBare from.now part.lo bare }
    requires mapping { mapping.now ≡ (rest_in from.now part.lo).mapping }
    requires held { S.held into.old none ≡ Some no_rest }
    ensures now { SameValues (S.now into.new) (S.now into.old) }
    ensures held { S.held into.new none ≡ Some no_rest }
    ensures ok { OnOk result (SameValues (S.next into.new)
        (with_values (S.next into.old) part.lo part.hi (λ _. rest_in from.now part.lo))) }
{
    match from.rest(alloc, part.lo, bare, mapping)? {
        Some(rest) => into.prepare(part, rest),
        None => into.prepare_held(part, none),
    }
}

/// Gathers the keys of the code points of a span that may compose the two members of their mapping.
///
/// - `Memory`: memory ran out.
pub fn gather_pairs(keys: &mut PairKeys, from: &RowTables, span: Span) -> Result<(), Memory>
    ensures grows { (s y q : ℕ) → is_gathered keys.old s y q ≡ true
        → is_gathered keys.new s y q ≡ true }
    ensures listed { OnOk result ((q : ℕ) → span.lo ≤ q → q ≤ span.hi
        → IsListed (is_gathered keys.new) from.now q) }
{
    let end = span.last();
    let mut at = span.first();
    let mut near = 0;
    'stretches: while at <= end {
        let first = point(at);
        let run = from.words.run(first, near);
        let last = lesser(run.last, point(end));
        let part = Span {
            lo: first,
            hi: last,
        };
        gather_part(keys, &from.lists.mappings, part, run.value)?;
        near = run.index;
        at = last.number() + 1;
    }
    Ok(())
}

/// Gathers the keys of the code points of a span that have a mapping of two members, if their word lets them compose these.
fn gather_part(
    keys: &mut PairKeys,
    mappings: &PointLists,
    part: Span,
    word: u64,
) -> Result<(), Memory>
    ensures grows { (s y q : ℕ) → is_gathered keys.old s y q ≡ true
        → is_gathered keys.new s y q ≡ true }
    ensures listed { OnOk result ((q : ℕ) → part.lo ≤ q → q ≤ part.hi
        → is_candidate_word word ≡ true
        → HasKeys (is_gathered keys.new) (lists_now mappings.now q) q) }
{
    if is_candidate_word(word) {
        gather_twos(keys, mappings, part)
    } else {
        Ok(())
    }
}

/// Gathers the keys of the code points of a span that have a mapping of two members.
fn gather_twos(keys: &mut PairKeys, mappings: &PointLists, span: Span) -> Result<(), Memory>
    ensures grows { (s y q : ℕ) → is_gathered keys.old s y q ≡ true
        → is_gathered keys.new s y q ≡ true }
    ensures listed { OnOk result ((q : ℕ) → span.lo ≤ q → q ≤ span.hi
        → HasKeys (is_gathered keys.new) (lists_now mappings.now q) q) }
{
    let end = span.last();
    let mut at = span.first();
    let mut near = 0;
    'stretches: while at <= end {
        let first = point(at);
        let run = mappings.run(first, near);
        let last = lesser(run.last, point(end));
        let part = Span {
            lo: first,
            hi: last,
        };
        gather_two(keys, run.points, part)?;
        near = run.index;
        at = last.number() + 1;
    }
    Ok(())
}

/// If this mapping has two members, gathers the keys of the points of a span, which have it.
fn gather_two(keys: &mut PairKeys, mapping: &[Point], part: Span) -> Result<(), Memory>
    ensures grows { (s y q : ℕ) → is_gathered keys.old s y q ≡ true
        → is_gathered keys.new s y q ≡ true }
    ensures listed { OnOk result ((q : ℕ) → part.lo ≤ q → q ≤ part.hi
        → HasKeys (is_gathered keys.new) mapping.now q) }
{
    match mapping {
        [s, y] => keys.put_span(*s, *y, part),
        _ => Ok(()),
    }
}
