//! The sets of code points to which rows give values.

ghost use Rattle.std.specs.Prelude.{◌≡◌, ◌<◌, ℕ, List, false, nat_eq, not, ◌&&◌, ◌||◌, length, IfOk, OnOk};
ghost use Rattle.std.specs.List.{IsDistinct, list_any};
ghost use Rattle.std.specs.Str.{bytes_eq};
ghost use Rattle.ucd_facts.specs.Facts.{within};
ghost use Rattle.ucd_facts.specs.Values.{value_at};
ghost use Rattle.ucd_facts.specs.declared.row.Row.{Row};
ghost use Rattle.ucd_facts.specs.declared.row.ValueRow.{ValueRow};
ghost use Rattle.property_aliases.specs.Numbers.{AreNumbered, AreNumbersOf, AreValues, names_in};
ghost use Rattle.property_aliases.specs.Sources.{listed_names, numbered};
ghost use Rattle.release_rows.specs.Releases.{rows_now};
ghost use Rattle.release_rows.specs.ValuesApart.{AreValuesApart};
ghost use Rattle.unicodeset_eval.specs.Edges.{has};
ghost use Rattle.unicodeset_eval.specs.Found.{AreRowSets, has_at};
ghost use Rattle.unicodeset_eval.specs.Given.{given};
ghost use Rattle.unicodeset_eval.specs.LayeredRows.{is_other};
ghost use Rattle.unicodeset_eval.specs.Numbers.{bucket};
ghost use Rattle.unicodeset_eval.specs.Tests.{is_listed, is_numbered};
ghost use Rattle.unicodeset_eval.specs.ValueRows.{covers};

use crate::apart::rows_are_apart;
use crate::layers::{has_value_beside_default, layered_spans};
use crate::numbers::{row_spans, spans_by_number};
use crate::point_set::PointSet;
use crate::unions::union_of;
use property_aliases::{FileValues, NumberedRow, ValueNumbers};
use release_rows::Release;
use std::alloc::Global;
use ucd_model::{Memory, SourceFile, Spans};
use unicodeset_parser::Join;

/// The sets of code points to which rows give values, by the numbers of the values.
#[derive(Drop)]
pub struct RowSets {
    pub(crate) scripts: Vec<PointSet>,
    pub(crate) breaks: Vec<PointSet>,
    pub(crate) listed: Vec<PointSet>,
}

/// The union of each list of spans.
///
/// - `Memory`: memory ran out.
fn unions(alloc: Global, buckets: &[Spans]) -> Result<Vec<PointSet>, Memory>
    ensures len { IfOk result (λ sets. length sets.items ≡ length buckets.now) }
    ensures has { IfOk result (λ sets. (i c : ℕ)
        → has_at sets.items i c ≡ list_any (within c) (bucket buckets.now i)) }
{
    let mut sets = Vec::new(alloc);
    'buckets: for spans in buckets {
        sets.push(union_of(alloc, spans.as_slice())?)?;
    }
    Ok(sets)
}

/// The sets of the values of rows, by their numbers.
///
/// - `Memory`: memory ran out.
fn sets_by_number(alloc: Global, values: &FileValues) -> Result<Vec<PointSet>, Memory>
    ensures distinct { OnOk result
        (IsDistinct (λ x y. bytes_eq x.items y.items) values.now.names.keys) }
    ensures len { IfOk result (λ sets. length sets.items ≡ length values.now.names.keys) }
    ensures has { IfOk result (λ sets. (rows : List ValueRow)
        → AreNumbered (names_in values.now.names) values.now.rows.items rows → (i c : ℕ)
        → has_at sets.items i c ≡ given (names_in values.now.names) rows i c) }
{
    let buckets = spans_by_number(alloc, values)?;
    let sets = unions(alloc, buckets.as_slice())?;
    Ok(sets)
}

/// The numbers that no row covers.
///
/// - `Memory`: memory ran out.
fn uncovered(alloc: Global, rows: &[NumberedRow]) -> Result<PointSet, Memory>
    ensures { IfOk result (λ set. (names : List (List ℕ)) (given : List ValueRow)
        → AreNumbered names rows.now given → (c : ℕ)
        → has set c ≡ not (list_any (covers c) given)) }
{
    let spans = row_spans(alloc, rows)?;
    let covered = union_of(alloc, spans.as_slice())?;
    let set = covered.complement();
    Ok(set)
}

/// Puts more into the set with this number.
///
/// - `Memory`: memory ran out.
fn add_at(
    alloc: Global,
    sets: &mut Vec<PointSet>,
    number: usize,
    more: &PointSet,
) -> Result<(), Memory>
    requires { number < length sets.old.items }
    ensures { OnOk result ((i c : ℕ)
        → has_at sets.new.items i c
        ≡ (has_at sets.old.items i c || (nat_eq number i && has more.now c))) }
{
    let joined = PointSet::joined(alloc, Join::Union, &sets[number], more)?;
    sets[number] = joined;
    Ok(())
}

/// The sets of the values of a file whose missing rows give the default alone: number 0, the default, also has what no
/// row covers.
///
/// - `Memory`: memory ran out.
fn unlayered_sets(alloc: Global, values: &FileValues) -> Result<Vec<PointSet>, Memory>
    requires some { 0 < length values.now.names.keys }
    requires missing { list_any is_other values.now.missing.items ≡ false }
    ensures { IfOk result (λ sets. (default : List ℕ) (rows : List Row)
        → AreValues values.now (numbered default rows) rows → AreValuesApart rows → (i c : ℕ)
        → has_at sets.items i c
        ≡ is_numbered (numbered default rows) i (value_at rows default c)) }
{
    let mut sets = sets_by_number(alloc, values)?;
    let rest = uncovered(alloc, values.rows())?;
    add_at(alloc, &mut sets, 0, &rest)?;
    Ok(sets)
}

/// The sets of the values of a file whose missing rows may give any values.
///
/// - `Memory`: memory ran out.
fn layered_sets(alloc: Global, values: &FileValues) -> Result<Vec<PointSet>, Memory>
    ensures { IfOk result (λ sets. (default : List ℕ) (rows : List Row)
        → AreValues values.now (numbered default rows) rows → AreValuesApart rows → (i c : ℕ)
        → c < 1114112 → has_at sets.items i c
        ≡ is_numbered (numbered default rows) i (value_at rows default c)) }
{
    let buckets = layered_spans(alloc, values)?;
    let sets = unions(alloc, buckets.as_slice())?;
    Ok(sets)
}

/// The sets of the values of a file, of which number 0 is the default.
///
/// - `Memory`: memory ran out.
pub(crate) fn sets_behind_default(
    alloc: Global,
    values: &FileValues,
) -> Result<Vec<PointSet>, Memory>
    requires some { 0 < length values.now.names.keys }
    ensures { IfOk result (λ sets. (default : List ℕ) (rows : List Row)
        → AreValues values.now (numbered default rows) rows → AreValuesApart rows → (i c : ℕ)
        → c < 1114112 → has_at sets.items i c
        ≡ is_numbered (numbered default rows) i (value_at rows default c)) }
{
    if has_value_beside_default(values.missing()) {
        let sets = layered_sets(alloc, values)?;
        return Ok(sets);
    }
    // usually they give the default, and nothing needs to be painted
    let sets = unlayered_sets(alloc, values)?;
    Ok(sets)
}

/// The sets of the values of PropList.txt.
///
/// - `Memory`: memory ran out.
pub(crate) fn listed_sets(alloc: Global, values: &FileValues) -> Result<Vec<PointSet>, Memory>
    ensures { IfOk result (λ sets. (rows : List Row) → AreValues values.now (listed_names rows) rows
        → (i c : ℕ) → has_at sets.items i c ≡ is_listed rows i c) }
{
    let sets = sets_by_number(alloc, values)?;
    Ok(sets)
}

impl RowSets {
    /// The sets by the rows of a release now, which have these numbers.
    ///
    /// - `Memory`: memory ran out.
    pub fn of(alloc: Global, release: &Release, numbers: &ValueNumbers) -> Result<RowSets, Memory>
        requires { AreNumbersOf numbers.now (rows_now release.now) }
        ensures { IfOk result (λ sets. AreRowSets sets (rows_now release.now)) }
    {
        rows_are_apart(release, SourceFile::Scripts);
        rows_are_apart(release, SourceFile::WordBreakProperty);
        let scripts = sets_behind_default(alloc, numbers.scripts())?;
        let breaks = sets_behind_default(alloc, numbers.word_breaks())?;
        let listed = listed_sets(alloc, numbers.listed())?;
        Ok(RowSets {
            scripts,
            breaks,
            listed,
        })
    }
}
