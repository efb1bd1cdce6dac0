//! The values of a file again, after an edit.

ghost use Rattle.std.specs.Prelude.{◌≡◌, ◌<◌, false, length, map, IfOk, OnOk, IsTrue};
ghost use Rattle.std.specs.Option.{IfSome};
ghost use Rattle.property_aliases.specs.Numbers.{AreValues, names_in};
ghost use Rattle.property_aliases.specs.Sources.{listed_names, numbered};
ghost use Rattle.release_rows.specs.Releases.{rows_now};

use crate::file_values::{FileValues, values_behind_default, values_of};
use release_rows::Release;
use std::alloc::Global;
use ucd_facts::{Memory, SourceFile};

/// What is left of two lists behind their first names, if both have one and it is the same.
fn behind_same_first<'a>(
    first: &'a [Vec<u8>],
    second: &'a [Vec<u8>],
) -> Option<(&'a [Vec<u8>], &'a [Vec<u8>])>
    ensures same { IfSome result (λ left. map (λ k. k.items) left.0.now
        ≡ map (λ k. k.items) left.1.now
        → map (λ k. k.items) first.now ≡ map (λ k. k.items) second.now) }
    ensures shorter { IfSome result (λ left. length left.0.now < length first.now) }
{
    let (a, behind_a) = first.split_first()?;
    let (b, behind_b) = second.split_first()?;
    if a.as_slice() == b.as_slice() {
        Some((behind_a, behind_b))
    } else {
        None
    }
}

/// Whether two lists of names are the same.
fn are_same(first: &[Vec<u8>], second: &[Vec<u8>]) -> bool
    ensures { IsTrue result → map (λ k. k.items) first.now ≡ map (λ k. k.items) second.now }
{
    let mut left = first;
    let mut right = second;
    'names: while let Some((behind_left, behind_right)) = behind_same_first(left, right) {
        left = behind_left;
        right = behind_right;
    }
    left.is_empty() && right.is_empty()
}

/// Makes the values of a file those of its rows now, by their numbers, unless it was not edited. It answers whether they have the
/// names that they had.
///
/// - `Memory`: memory ran out. They stay.
pub(crate) fn renew_values_and_compare(
    alloc: Global,
    release: &Release,
    file: SourceFile,
    edited: bool,
    kept: &mut FileValues,
) -> Result<bool, Memory>
    ensures values { OnOk result ((edited ≡ false
        → AreValues kept.old (listed_names (rows_now release.now file))
        (rows_now release.now file))
        → AreValues kept.new (listed_names (rows_now release.now file))
        (rows_now release.now file)) }
    ensures same { IfOk result (λ same. IsTrue same
        → names_in kept.new.names ≡ names_in kept.old.names) }
{
    if !edited {
        return Ok(true);
    }
    let values = values_of(alloc, release, file)?;
    Ok(replace_values_and_compare(kept, values))
}

/// Makes the values of a file those of its rows now, numbered behind a default, unless it was not edited. It answers whether
/// they have the names that they had.
///
/// - `Memory`: memory ran out. They stay.
pub(crate) fn renew_defaulted_and_compare(
    alloc: Global,
    default: &[u8],
    release: &Release,
    file: SourceFile,
    edited: bool,
    kept: &mut FileValues,
) -> Result<bool, Memory>
    ensures values { OnOk result ((edited ≡ false
        → AreValues kept.old (numbered default.now (rows_now release.now file))
        (rows_now release.now file))
        → AreValues kept.new (numbered default.now (rows_now release.now file))
        (rows_now release.now file)) }
    ensures same { IfOk result (λ same. IsTrue same
        → names_in kept.new.names ≡ names_in kept.old.names) }
{
    if !edited {
        return Ok(true);
    }
    let values = values_behind_default(alloc, default, release, file)?;
    Ok(replace_values_and_compare(kept, values))
}

/// Puts values in the place of those that were kept, and answers whether they have the same names.
fn replace_values_and_compare(kept: &mut FileValues, values: FileValues) -> bool
    ensures put { kept.new ≡ values }
    ensures same { IsTrue result → names_in kept.new.names ≡ names_in kept.old.names }
{
    let same = are_same(values.names.as_slice(), kept.names.as_slice());
    *kept = values;
    same
}
