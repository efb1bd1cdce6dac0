//! The spans of the rows of each number.

ghost use Rattle.std.specs.Prelude.{◌≡◌, ◌<◌, ◌&&◌, ◌||◌, [], ℕ, List, length, map, nat_eq, IfOk, OnOk};
ghost use Rattle.std.specs.List.{IsDistinct, list_any};
ghost use Rattle.std.specs.Str.{bytes_eq};
ghost use Rattle.ucd_facts.specs.Facts.{within};
ghost use Rattle.ucd_facts.specs.declared.row.ValueRow.{ValueRow};
ghost use Rattle.property_aliases.specs.Numbers.{AreNumbered, names_in};
ghost use Rattle.unicodeset_eval.specs.Given.{given};
ghost use Rattle.unicodeset_eval.specs.Numbers.{bucket, is_of};

use property_aliases::{FileValues, NumberedRow};
use std::alloc::Global;
use ucd_model::{ListOf, Memory, Span, Spans};

/// Empty lists of spans.
///
/// - `Memory`: memory ran out.
pub(crate) fn buckets(alloc: Global, count: usize) -> Result<Vec<Spans>, Memory>
    ensures len { IfOk result (λ buckets. length buckets.items ≡ count) }
    ensures empty { IfOk result (λ buckets. (i : ℕ) → bucket buckets.items i ≡ []) }
{
    let mut buckets = Vec::new(alloc);
    'buckets: for _ in 0..count {
        buckets.push(ListOf::new(alloc))?;
    }
    Ok(buckets)
}

/// Puts a span into the list with this number.
///
/// - `Memory`: memory ran out.
pub(crate) fn push_at(buckets: &mut Vec<Spans>, number: usize, span: Span) -> Result<(), Memory>
    ensures len { OnOk result (length buckets.new.items ≡ length buckets.old.items) }
    ensures spans { OnOk result ((i c : ℕ) → i < length buckets.old.items
        → list_any (within c) (bucket buckets.new.items i)
        ≡ (list_any (within c) (bucket buckets.old.items i)
        || (nat_eq number i && within c span))) }
{
    if number < buckets.len() {
        buckets[number].push(span)?;
    }
    Ok(())
}

/// Puts the spans of rows into the lists of their numbers.
///
/// - `Memory`: memory ran out.
fn push_rows(buckets: &mut Vec<Spans>, rows: &[NumberedRow]) -> Result<(), Memory>
    ensures len { OnOk result (length buckets.new.items ≡ length buckets.old.items) }
    ensures spans { OnOk result ((i c : ℕ) → i < length buckets.old.items
        → list_any (within c) (bucket buckets.new.items i)
        ≡ (list_any (within c) (bucket buckets.old.items i) || list_any (is_of i c) rows.now)) }
{
    'rows: for row in rows {
        push_at(buckets, row.number, row.span)?;
    }
    Ok(())
}

/// The spans of the rows of each number.
///
/// - `Memory`: memory ran out.
pub(crate) fn spans_by_number(alloc: Global, values: &FileValues) -> Result<Vec<Spans>, Memory>
    ensures distinct { OnOk result
        (IsDistinct (λ x y. bytes_eq x.items y.items) values.now.names.keys) }
    ensures len { IfOk result (λ buckets. length buckets.items ≡ length values.now.names.keys) }
    ensures spans { IfOk result (λ buckets. (rows : List ValueRow)
        → AreNumbered (names_in values.now.names) values.now.rows.items rows → (i c : ℕ)
        → list_any (within c) (bucket buckets.items i)
        ≡ given (names_in values.now.names) rows i c) }
{
    let mut buckets = buckets(alloc, values.count())?;
    push_rows(&mut buckets, values.rows())?;
    Ok(buckets)
}

/// The spans of the rows.
///
/// - `Memory`: memory ran out.
pub(crate) fn row_spans(alloc: Global, rows: &[NumberedRow]) -> Result<Vec<Span>, Memory>
    ensures { IfOk result (λ spans. spans.items ≡ map (λ r. r.span) rows.now) }
{
    let mut spans = Vec::new(alloc);
    'rows: for row in rows {
        spans.push(row.span)?;
    }
    Ok(spans)
}
