//! Steps of a bracket set, put together.

ghost use Rattle.std.specs.Prelude.{◌≡◌, ◌+◌, ◌≤◌, ℕ, Bool, count_ones, length, IfOk, OnOk};
ghost use Rattle.unicodeset_eval.specs.Changes.{all_changed, changed, gathered};
ghost use Rattle.unicodeset_eval.specs.Edges.{has, holds};

use crate::point_set::PointSet;
use std::alloc::Global;
use ucd_model::Memory;
use unicodeset_parser::Join;

/// What steps do to the members so far. Two changes, one after the other, are one change again, so that steps can be
/// put together before it is known what stands before them.
#[derive(Drop)]
pub(crate) struct Change {
    /// The numbers that stay in, if they were in.
    keep: PointSet,
    /// The numbers that are in behind, whether they were in or not.
    add: PointSet,
}

impl Change {
    /// What one step does. It takes no memory.
    pub(crate) fn of(alloc: Global, join: Join, set: PointSet) -> Change
        ensures { (c : ℕ) (b : Bool) → changed c b result ≡ holds join b (has set c) }
    {
        let none = PointSet::empty(alloc);
        match join {
            Join::Union => Change {
                keep: none.complement(),
                add: set,
            },
            Join::Meet => Change {
                keep: set,
                add: none,
            },
            Join::Minus => Change {
                keep: set.complement(),
                add: none,
            },
        }
    }

    /// What two changes do, the second behind the first.
    ///
    /// - `Memory`: memory ran out.
    fn then(alloc: Global, first: &Change, second: &Change) -> Result<Change, Memory>
        ensures { IfOk result (λ change. (c : ℕ) (b : Bool)
            → changed c b change ≡ changed c (changed c b first.now) second.now) }
    {
        let keep = PointSet::joined(alloc, Join::Meet, &first.keep, &second.keep)?;
        let add = members_after_change(alloc, &first.add, second)?;
        Ok(Change { keep, add })
    }
}

/// The members behind a change.
///
/// - `Memory`: memory ran out.
fn members_after_change(alloc: Global, set: &PointSet, change: &Change) -> Result<PointSet, Memory>
    ensures { IfOk result (λ after. (c : ℕ) → has after c ≡ changed c (has set.now c) change.now) }
{
    let stays = PointSet::joined(alloc, Join::Meet, set, &change.keep)?;
    PointSet::joined(alloc, Join::Union, &stays, &change.add)
}

/// Puts the last two changes together.
///
/// - `Memory`: memory ran out.
fn join_last(alloc: Global, changes: &mut Vec<Change>) -> Result<(), Memory>
    ensures same { OnOk result ((c : ℕ) (b : Bool)
        → all_changed c b changes.new.items ≡ all_changed c b changes.old.items) }
    ensures fewer { OnOk result (2 ≤ length changes.old.items
        → length changes.new.items + 1 ≡ length changes.old.items) }
{
    if let Some(second) = changes.pop() {
        match changes.pop() {
            Some(first) => changes.push(Change::then(alloc, &first, &second)?)?,
            None => changes.push(second)?,
        }
    }
    Ok(())
}

/// Puts a change behind others, of which so many were put there before.
///
/// Changes of equally many steps are put together, as one is carried when numbers are counted in binary. So an edge is
/// looked at once for each digit of the number of steps, in whatever order they come: as many changes are kept as the number
/// of steps has binary digits 1.
///
/// - `Memory`: memory ran out.
pub(crate) fn push_change(
    alloc: Global,
    changes: &mut Vec<Change>,
    change: Change,
    before: usize,
) -> Result<(), Memory>
    ensures behind { OnOk result ((c : ℕ) (b : Bool)
        → all_changed c b changes.new.items
        ≡ changed c (all_changed c b changes.old.items) change) }
    ensures carried { OnOk result (length changes.old.items ≡ count_ones before
        → length changes.new.items ≡ count_ones (before + 1)) }
{
    changes.push(change)?;
    let mut digits = before;
    'carries: while digits % 2 == 1 {
        join_last(alloc, changes)?;
        digits /= 2;
    }
    Ok(())
}

/// The members behind changes that begin with no members.
///
/// - `Memory`: memory ran out.
pub(crate) fn members_of_changes(alloc: Global, changes: &[Change]) -> Result<PointSet, Memory>
    ensures { IfOk result (λ set. (c : ℕ) → has set c ≡ gathered changes.now c) }
{
    let mut set = PointSet::empty(alloc);
    'changes: for change in changes {
        set = members_after_change(alloc, &set, change)?;
    }
    Ok(set)
}
