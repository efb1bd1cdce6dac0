//! The sets of a file again, after an edit.

ghost use Rattle.std.specs.Prelude.{◌≡◌, ◌<◌, ℕ, List, false, length, IfOk};
ghost use Rattle.ucd_facts.specs.Values.{value_at};
ghost use Rattle.ucd_facts.specs.declared.row.Row.{Row};
ghost use Rattle.property_aliases.specs.Numbers.{AreNumbersOf, AreValues};
ghost use Rattle.property_aliases.specs.Sources.{listed_names, numbered};
ghost use Rattle.release_rows.specs.Releases.{rows_now};
ghost use Rattle.release_rows.specs.ValuesApart.{AreValuesApart};
ghost use Rattle.unicodeset_eval.specs.Found.{AreRowSets, AreSetsBut, has_at};
ghost use Rattle.unicodeset_eval.specs.Tests.{is_listed, is_numbered};

use crate::apart::rows_are_apart;
use crate::point_set::PointSet;
use crate::row_sets::{RowSets, listed_sets, sets_behind_default};
use property_aliases::{Edited, FileValues, ValueNumbers};
use release_rows::Release;
use std::alloc::Global;
use ucd_model::{Memory, SourceFile};

/// The sets of the values of a file, of which number 0 is the default. Those that are kept stay unless the file was edited.
///
/// - `Memory`: memory ran out.
fn renewed_sets_behind_default(
    alloc: Global,
    values: &FileValues,
    edited: bool,
    kept: Vec<PointSet>,
) -> Result<Vec<PointSet>, Memory>
    requires some { 0 < length values.now.names.keys }
    ensures { IfOk result (λ sets. (default : List ℕ) (rows : List Row)
        → AreValues values.now (numbered default rows) rows → AreValuesApart rows
        → (edited ≡ false → (i c : ℕ) → c < 1114112
        → has_at kept.items i c
        ≡ is_numbered (numbered default rows) i (value_at rows default c)) → (i c : ℕ)
        → c < 1114112 → has_at sets.items i c
        ≡ is_numbered (numbered default rows) i (value_at rows default c)) }
{
    if !edited {
        return Ok(kept);
    }
    let sets = sets_behind_default(alloc, values)?;
    Ok(sets)
}

/// The sets of the values of PropList.txt. Those that are kept stay unless it was edited.
///
/// - `Memory`: memory ran out.
fn renewed_listed_sets(
    alloc: Global,
    values: &FileValues,
    edited: bool,
    kept: Vec<PointSet>,
) -> Result<Vec<PointSet>, Memory>
    ensures { IfOk result (λ sets. (rows : List Row) → AreValues values.now (listed_names rows) rows
        → (edited ≡ false → (i c : ℕ) → has_at kept.items i c ≡ is_listed rows i c)
        → (i c : ℕ) → has_at sets.items i c ≡ is_listed rows i c) }
{
    if !edited {
        return Ok(kept);
    }
    let sets = listed_sets(alloc, values)?;
    Ok(sets)
}

impl RowSets {
    /// The sets by the rows of a release now, which have these numbers, if these are the sets by rows of which only the edited
    /// files have others. Only the sets of edited files are made.
    ///
    /// - `Memory`: memory ran out.
    pub fn renewed(
        self,
        alloc: Global,
        release: &Release,
        numbers: &ValueNumbers,
        edited: Edited,
    ) -> Result<RowSets, Memory>
        requires numbers { AreNumbersOf numbers.now (rows_now release.now) }
        requires sets { AreSetsBut self edited (rows_now release.now) }
        ensures { IfOk result (λ sets. AreRowSets sets (rows_now release.now)) }
    {
        rows_are_apart(release, SourceFile::Scripts);
        rows_are_apart(release, SourceFile::WordBreakProperty);
        let RowSets {
            scripts,
            breaks,
            listed,
        } = self;
        let scripts = renewed_sets_behind_default(
            alloc,
            numbers.scripts(),
            edited.scripts,
            scripts,
        )?;
        let breaks = renewed_sets_behind_default(
            alloc,
            numbers.word_breaks(),
            edited.breaks,
            breaks,
        )?;
        let listed = renewed_listed_sets(alloc, numbers.listed(), edited.listed, listed)?;
        Ok(RowSets {
            scripts,
            breaks,
            listed,
        })
    }
}
