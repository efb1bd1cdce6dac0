//! The last revision that touched each row.

ghost use Rattle.std.specs.Prelude.{◌≡◌, map, max, nat_lt, None, Some, IsSome, OnOk, if◌then◌else◌};
ghost use Rattle.std.specs.List.{All, fold, list_any, position};
ghost use Rattle.bench_editors.specs.Rows.{row_of};
ghost use Rattle.bench_editors.specs.RowKeys.{KeyParts, found_in, key_parts, last_in, row_parts, same_parts};

use crate::row_key::{RowKey, key_of_op};
use release_rows::Op;
use source_rows::Key;
use std::alloc::Global;
use std::collections::BTreeMap;
use ucd_model::{Memory, SourceFile};

/// A map from rows to revisions. A row that no revision touched has none, or 0.
#[derive(Drop)]
pub struct RowRevisions {
    last: BTreeMap<RowKey, u32>,
}

impl RowRevisions {
    /// The map with no row. It takes no memory.
    pub fn new(alloc: Global) -> RowRevisions
        ensures { (parts : KeyParts) → found_in result parts ≡ None }
    {
        RowRevisions {
            last: BTreeMap::new(alloc),
        }
    }

    /// The last revision that touched a row; 0 if none did.
    pub fn last(&self, key: &RowKey) -> u32
        ensures { result ≡ last_in self.now (key_parts key.now) }
    {
        self.last.get(key).copied().unwrap_or(0)
    }

    /// The last revision that touched the row of a file with this key; 0 if none did. It takes no memory, and time in
    /// proportion to the number of rows.
    pub fn last_of(&self, file: SourceFile, key: &Key) -> u32
        ensures { result ≡ last_in self.now (row_parts (record { file = file; key = key.now })) }
    {
        'rows: for (row, last) in &self.last {
            if row.is_key_of(file, key) {
                return *last;
            }
        }
        0
    }

    /// The place of the first row that a revision after `base` touched.
    pub fn first_touched_after(&self, keys: &[RowKey], base: u32) -> Option<usize>
        ensures { result ≡ position
            (λ key. nat_lt base (last_in self.now (key_parts key))) keys.now }
    {
        keys.iter().position(|key| base < self.last(key))
    }

    /// The last revision that touched any of the rows; 0 if none did.
    pub fn greatest(&self, keys: &[RowKey]) -> u32
        ensures { result ≡ fold (λ n key. max n (last_in self.now (key_parts key))) 0 keys.now }
    {
        keys.iter()
            .fold(0, |greatest, key| greatest.max(self.last(key)))
    }

    /// Gives a row an entry with 0, unless it has one.
    ///
    /// - `Memory`: memory ran out.
    ///
    /// After either each row has the revision that it had.
    fn make_entry(&mut self, key: RowKey) -> Result<(), Memory>
        ensures same { (parts : KeyParts) → last_in self.new parts ≡ last_in self.old parts }
        ensures kept { (parts : KeyParts) → IsSome (found_in self.old parts)
            → IsSome (found_in self.new parts) }
        ensures there { OnOk result (IsSome (found_in self.new (key_parts key))) }
    {
        if !self.last.contains_key(&key) {
            self.last.insert(key, 0)?;
        }
        Ok(())
    }

    /// Gives the rows of the operations entries with 0, unless they have some.
    ///
    /// - `Memory`: memory ran out.
    ///
    /// After either each row has the revision that it had.
    pub fn make_entries(&mut self, alloc: Global, group: &[Op]) -> Result<(), Memory>
        ensures same { (parts : KeyParts) → last_in self.new parts ≡ last_in self.old parts }
        ensures there { OnOk result
            (All (λ op. IsSome (found_in self.new (row_parts (row_of op)))) group.now) }
    {
        'operations: for op in group {
            self.make_entry(key_of_op(alloc, op)?)?;
        }
        Ok(())
    }

    /// Puts the revision of a row that has an entry. It takes no memory.
    fn put(&mut self, key: &RowKey, revision: u32)
        requires { IsSome (found_in self.old (key_parts key.now)) }
        ensures { (parts : KeyParts)
            → found_in self.new parts
            ≡ (if same_parts parts (key_parts key.now) then Some revision
            else found_in self.old parts) }
    {
        if let Some(last) = self.last.get_mut(key) {
            *last = revision;
        }
    }

    /// Puts the revision of rows that have entries. It takes no memory.
    pub fn put_all(&mut self, keys: &[RowKey], revision: u32)
        requires { All (λ key. IsSome (found_in self.old (key_parts key))) keys.now }
        ensures { (parts : KeyParts)
            → last_in self.new parts
            ≡ (if list_any (λ key. same_parts parts (key_parts key)) keys.now then revision
            else last_in self.old parts) }
    {
        'keys: for key in keys {
            self.put(key, revision);
        }
    }
}
