//! Changes put in the place of others.

ghost use Rattle.std.specs.Prelude.{◌≡◌, ◌≤◌, ◌<◌, ◌+◌, ◌++◌, vec_len, vec_capacity, OnOk, OnErr, None, Some, if◌then◌else◌};
ghost use Rattle.std.specs.Option.{option_to_list};
ghost use Rattle.range_table.specs.Edit.{edited};

use crate::change::Change;
use ucd_points::Memory;

/// What is to be done to a layout to give a span a value: some changes go, and up to two come in their place.
#[derive(Clone, Copy)]
pub struct Edit<V> {
    /// The first value of the layout afterwards.
    pub first: V,
    /// The index of the first change that goes.
    pub from: usize,
    /// The index behind the last change that goes; `from` if none goes.
    pub behind: usize,
    /// The change at the beginning of the span, if there is to be one.
    pub begins: Option<Change<V>>,
    /// The change behind the end of the span, if there is to be one.
    pub ends: Option<Change<V>>,
}

/// What has to stand at `start` for values that are `before` up to there and `value` from there on; `None` if they
/// are equal.
pub fn change_to<V: Copy + Eq>(before: V, start: u32, value: V) -> Option<Change<V>>
    ensures { result ≡ (if V.eq before value then None else Some
        (record { start = start; value = value })) }
{
    if before == value {
        None
    } else {
        Some(Change { start, value })
    }
}

/// Edits the changes. All memory is taken first.
///
/// - `Memory`: memory ran out. The changes stay as they were.
pub fn splice<V: Copy>(changes: &mut Vec<Change<V>>, edit: &Edit<V>) -> Result<(), Memory>
    requires ordered { edit.now.from ≤ edit.now.behind }
    requires within { edit.now.behind ≤ vec_len changes.old }
    ensures ok { OnOk result (changes.new.items ≡ edited edit.now changes.old.items) }
    ensures err { OnErr result (changes.new.items ≡ changes.old.items) }
{
    if edit.behind == changes.len() {
        return splice_at_end(changes, edit);
    }
    let rest = Vec::from_slice(*changes.allocator(), &changes[edit.behind..])?;
    changes.reserve(2)?;
    changes.truncate(edit.from);
    push_some(changes, edit.begins);
    push_some(changes, edit.ends);
    changes.extend_from_slice(rest.as_slice())?;
    Ok(())
}

/// Edits the changes, if no change stays behind the edit. All memory is taken first.
///
/// - `Memory`: memory ran out. The changes stay as they were.
fn splice_at_end<V: Copy>(changes: &mut Vec<Change<V>>, edit: &Edit<V>) -> Result<(), Memory>
    requires ordered { edit.now.from ≤ edit.now.behind }
    requires within { edit.now.behind ≡ vec_len changes.old }
    ensures ok { OnOk result (changes.new.items ≡ edited edit.now changes.old.items) }
    ensures err { OnErr result (changes.new.items ≡ changes.old.items) }
{
    changes.reserve(2)?;
    changes.truncate(edit.from);
    push_some(changes, edit.begins);
    push_some(changes, edit.ends);
    Ok(())
}

/// Puts the change, if there is one, at the end.
fn push_some<V: Copy>(changes: &mut Vec<Change<V>>, change: Option<Change<V>>)
    requires { vec_len changes.old < vec_capacity changes.old }
    ensures items { changes.new.items ≡ changes.old.items ++ option_to_list change }
    ensures len { vec_len changes.new ≤ vec_len changes.old + 1 }
    ensures capacity { vec_capacity changes.new ≡ vec_capacity changes.old }
{
    if let Some(change) = change {
        changes.push_reserved(change);
    }
}
