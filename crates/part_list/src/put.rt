//! What an edit puts into a list, and a copy of entries with that in it.

ghost use Rattle.std.specs.Prelude.{◌≡◌, ◌+◌, ◌≤◌, [], ◌∷◌, ◌++◌, length, IfOk, OnOk};
ghost use Rattle.std.specs.Option.{option_to_list};
ghost use Rattle.part_list.specs.Parts.{spliced};
ghost use Rattle.part_list.specs.Puts.{put_entries};

use crate::entry::Entry;
use std::alloc::Global;
use ucd_points::{ListOf, Memory};

/// No entry, one, or two, one behind the other.
#[derive(Clone, Copy)]
pub struct Put<T> {
    /// The first entry.
    pub first: Option<Entry<T>>,
    /// The one behind it.
    pub second: Option<Entry<T>>,
}

impl<T: Copy> Put<T> {
    /// No entry.
    pub fn none() -> Put<T>
        ensures { put_entries result ≡ [] }
    {
        Put {
            first: None,
            second: None,
        }
    }

    /// One entry.
    pub fn one(entry: Entry<T>) -> Put<T>
        ensures { put_entries result ≡ entry ∷ [] }
    {
        Put {
            first: Some(entry),
            second: None,
        }
    }

    /// Two entries.
    pub fn two(first: Entry<T>, second: Entry<T>) -> Put<T>
        ensures { put_entries result ≡ first ∷ second ∷ [] }
    {
        Put {
            first: Some(first),
            second: Some(second),
        }
    }
}

/// Puts an entry, if there is one, at the end.
///
/// - `Memory`: memory ran out.
fn push_some<T: Copy>(entries: &mut Vec<Entry<T>>, entry: Option<Entry<T>>) -> Result<(), Memory>
    ensures { OnOk result (entries.new.items ≡ entries.old.items ++ option_to_list entry) }
{
    if let Some(entry) = entry {
        entries.push(entry)?;
    }
    Ok(())
}

/// A copy of entries, with others in the place of the `removed` ones from `at` on.
///
/// - `Memory`: memory ran out.
pub fn spliced<T: Copy>(
    alloc: Global,
    old: &[Entry<T>],
    at: usize,
    removed: usize,
    put: Put<T>,
) -> Result<ListOf<Entry<T>>, Memory>
    requires { at + removed ≤ length old.now }
    ensures { IfOk result (λ new. new ≡ spliced old.now at removed (put_entries put)) }
{
    let mut new = Vec::with_capacity(alloc, old.len().saturating_add(2))?;
    new.extend_from_slice(&old[..at])?;
    push_some(&mut new, put.first)?;
    push_some(&mut new, put.second)?;
    new.extend_from_slice(&old[at + removed..])?;
    Ok(ListOf::from_vec(new))
}
