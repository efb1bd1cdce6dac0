//! P02: the names of code points.

ghost use Rattle.std.specs.Prelude.{◌≡◌, ◌++◌, ◌-◌, ◌<◌, ◌≤◌, [], cond, filter, map, OnOk};
ghost use Rattle.std.specs.List.{range_with_len};
ghost use Rattle.std.specs.Option.{option_copied};
ghost use Rattle.ucd_points.specs.Limits.{point_count};
ghost use Rattle.stability_policies.specs.NamedRows.{AreAbove, BeginsAt, end_at, left_behind, name_at, name_here, named, row_name};
ghost use Rattle.stability_policies.specs.Policies.{differ};
ghost use Rattle.stability_policies.specs.Reports.{breaks_of};
ghost use Rattle.stability_policies.specs.declared.breaks.Break.TheVariants.{At};
ghost use Rattle.stability_policies.specs.declared.policy.Policy.TheVariants.{P02};

use crate::breaks::Breaks;
use crate::differing::put_differing;
use crate::named_row::{NamedRow, data_rows};
use crate::point_breaks::put_all;
use crate::policy::Policy;
use release_rows::{Release, RowText};
use std::alloc::Global;
use ucd_model::{Memory, Point};

/// Puts the breaks of P02, by code point: assigned in both, with different names.
///
/// - `Memory`: memory ran out.
pub fn put_renamed(
    alloc: Global,
    old: &Release,
    new: &Release,
    into: &mut Breaks,
) -> Result<(), Memory>
    ensures { OnOk result (into.new ≡ into.old ++ breaks_of P02 old.now new.now) }
{
    let before = data_rows(alloc, old)?;
    let after = data_rows(alloc, new)?;
    put_renamed_among_rows(alloc, &before, &after, into)
}

/// Puts the breaks of P02 by the rows of UnicodeData.txt of two releases. Rows that stand in both are not read.
///
/// - `Memory`: memory ran out.
fn put_renamed_among_rows(
    alloc: Global,
    old: &[RowText<'_>],
    new: &[RowText<'_>],
    into: &mut Breaks,
) -> Result<(), Memory>
    requires old { AreAbove 0 (named old.now) }
    requires new { AreAbove 0 (named new.now) }
    ensures { OnOk result (into.new ≡ into.old
        ++ map (At P02) (filter
        (λ c. differ (name_at (named old.now) c) (name_at (named new.now) c))
        (range_with_len 0 point_count))) }
{
    let mut before = Vec::new(alloc);
    let mut after = Vec::new(alloc);
    put_differing(alloc, old, new, &mut before, &mut after)?;
    put_renamed_among_names(before.as_slice(), after.as_slice(), into)
}

/// Puts the breaks of P02 between the names of two releases. Each stretch with one name in both is looked at once.
///
/// - `Memory`: memory ran out.
fn put_renamed_among_names(
    before: &[NamedRow],
    after: &[NamedRow],
    into: &mut Breaks,
) -> Result<(), Memory>
    requires before { AreAbove 0 before.now }
    requires after { AreAbove 0 after.now }
    ensures { OnOk result (into.new ≡ into.old
        ++ map (At P02) (filter (λ c. differ (name_at before.now c) (name_at after.now c))
        (range_with_len 0 point_count))) }
{
    let mut olds = before;
    let mut news = after;
    let mut number = 0;
    'stretches: while number < Point::COUNT {
        let end = end_of_one_name(olds, number).min(end_of_one_name(news, number));
        put_if_renamed(olds, news, number, end, into)?;
        olds = rows_from(olds, end);
        news = rows_from(news, end);
        number = end;
    }
    Ok(())
}

/// Puts the breaks by the code points from `number` to before `end`, if the names of the first one differ.
///
/// - `Memory`: memory ran out.
fn put_if_renamed(
    old: &[NamedRow],
    new: &[NamedRow],
    number: u32,
    end: u32,
    into: &mut Breaks,
) -> Result<(), Memory>
    requires { end ≤ 1114112 }
    ensures { OnOk result (into.new ≡ into.old
        ++ map (At P02) (cond (differ (name_here number old.now) (name_here number new.now))
        (range_with_len number (end - number)) [])) }
{
    if is_renamed(old, new, number) {
        put_all(Policy::P02, number, end, into)?;
    }
    Ok(())
}

/// Whether the names of a code point are there in both, and differ.
fn is_renamed(old: &[NamedRow], new: &[NamedRow], number: u32) -> bool
    ensures { result ≡ differ (name_here number old.now) (name_here number new.now) }
{
    match (
        first_row_if_begun(old, number),
        first_row_if_begun(new, number),
    ) {
        (Some(a), Some(b)) => a.name.as_slice() != b.name.as_slice(),
        _ => false,
    }
}

/// The first row, if it covers a code point or ends before it.
fn first_row_if_begun(rows: &[NamedRow], number: u32) -> Option<&NamedRow>
    ensures { row_name (option_copied result) ≡ name_here number rows.now }
{
    match rows {
        [row, ..] if row.span.first() <= number => Some(row),
        _ => None,
    }
}

/// One past the last code point up to which all from `number` on have one name.
fn end_of_one_name(rows: &[NamedRow], number: u32) -> u32
    requires below { number < 1114112 }
    requires begins { BeginsAt number rows.now }
    ensures end { result ≡ end_at number rows.now }
    ensures from { number < result }
    ensures within { result ≤ 1114112 }
{
    match rows {
        [row, ..] if row.span.first() <= number => row.span.last() + 1,
        [row, ..] => row.span.first(),
        [] => Point::COUNT,
    }
}

/// The rows without the first one, if it ends before `number`.
fn rows_from(rows: &[NamedRow], number: u32) -> &[NamedRow]
    ensures { result.now ≡ left_behind number rows.now }
{
    match rows {
        [row, rest @ ..] if row.span.last() < number => rest,
        _ => rows,
    }
}
