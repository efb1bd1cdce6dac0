//! The rows of UnicodeData.txt of two releases that do not stand in both.

ghost use Rattle.std.specs.Prelude.{◌≡◌, ◌++◌, IfOk, OnOk};
ghost use Rattle.stability_policies.specs.NamedRows.{AreAbove, AreLeft, KeepsStep, Takes, begins_first, named, news, olds};

use crate::named_row::{NamedRow, push_named, put_names};
use release_rows::RowText;
use source_rows::RowRef;
use std::alloc::Global;
use ucd_model::Memory;

/// Which of two rows are taken: the first in what is left of the old release, and the first in what is left of the new
/// one.
#[derive(Clone, Copy)]
pub enum Step {
    /// Both: they are the same row.
    Same,
    /// The one of the old release.
    Old,
    /// The one of the new release.
    New,
}

impl Step {
    /// How many rows of the old release it takes.
    fn old_rows_taken(self) -> usize
        ensures { result ≡ olds self }
    {
        match self {
            Step::Same | Step::Old => 1,
            Step::New => 0,
        }
    }

    /// How many rows of the new release it takes.
    fn new_rows_taken(self) -> usize
        ensures { result ≡ news self }
    {
        match self {
            Step::Same | Step::New => 1,
            Step::Old => 0,
        }
    }
}

/// Puts the names of the rows of both releases, except for rows that stand in both in the same bytes: only the others
/// are read. Both files ascend.
///
/// - `Memory`: memory ran out.
pub fn put_differing(
    alloc: Global,
    old: &[RowText<'_>],
    new: &[RowText<'_>],
    before: &mut Vec<NamedRow>,
    after: &mut Vec<NamedRow>,
) -> Result<(), Memory>
    requires old { AreAbove 0 (before.old.items ++ named old.now) }
    requires new { AreAbove 0 (after.old.items ++ named new.now) }
    ensures { OnOk result (AreLeft (before.old.items ++ named old.now)
        (after.old.items ++ named new.now) before.new.items after.new.items) }
{
    let mut at_old = 0;
    let mut at_new = 0;
    'rows: while at_old < old.len() && at_new < new.len() {
        let step = take_same_or_first(alloc, &old[at_old], &new[at_new], before, after)?;
        at_old += step.old_rows_taken();
        at_new += step.new_rows_taken();
    }
    put_names(alloc, &old[at_old..], before)?;
    put_names(alloc, &new[at_new..], after)?;
    Ok(())
}

/// Takes a row of the old release and one of the new, if they are the same, and else the one that begins before the other,
/// and puts its name.
///
/// - `Memory`: memory ran out.
fn take_same_or_first(
    alloc: Global,
    old: &RowText<'_>,
    new: &RowText<'_>,
    before: &mut Vec<NamedRow>,
    after: &mut Vec<NamedRow>,
) -> Result<Step, Memory>
    ensures taken { IfOk result (λ step. Takes old.now new.now step before.old.items
        before.new.items after.old.items after.new.items) }
    ensures in_step { IfOk result (KeepsStep old.now new.now) }
{
    if old.is_same_text(new) {
        return Ok(Step::Same);
    }
    if begins_first(old, new) {
        push_named(alloc, old, before)?;
        return Ok(Step::Old);
    }
    push_named(alloc, new, after)?;
    Ok(Step::New)
}

/// Whether the first of two rows begins before the second, or at the same code point. It keeps the two files in step,
/// so that rows that stand in both meet.
fn begins_first(row: &RowText<'_>, other: &RowText<'_>) -> bool
    ensures { result ≡ begins_first row.now other.now }
{
    let RowRef::Unit(first) = row.row() else {
        return true;
    };
    let RowRef::Unit(second) = other.row() else {
        return true;
    };
    first.span.first() <= second.span.first()
}
