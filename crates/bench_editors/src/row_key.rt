//! What a row is found by among the rows of all files.

ghost use Rattle.std.specs.Prelude.{◌≡◌, map, IfOk};
ghost use Rattle.source_rows.specs.Keys.{same_texts};
ghost use Rattle.bench_editors.specs.Rows.{row_of};
ghost use Rattle.bench_editors.specs.RowKeys.{key_parts, row_parts, same_parts, start_of};

use release_rows::Op;
use source_rows::{Key, row_key};
use std::alloc::Global;
use ucd_model::{Memory, Point, SourceFile, Text};

/// A file and a key of its rows, in an order that tells any two of them apart.
#[derive(PartialEq, Eq, PartialOrd, Ord, Drop)]
pub struct RowKey {
    /// The place of the file among the source files, from 0.
    pub file: u8,
    /// One more than the first code point of the row; 0 for a row of names.
    pub start: u32,
    /// The names in the key, in order.
    pub names: Vec<Vec<u8>>,
}

impl RowKey {
    /// Whether it is that of a row of the file and the key.
    pub fn is_key_of(&self, file: SourceFile, key: &Key) -> bool
        ensures { result ≡ same_parts (row_parts (record { file = file; key = key.now }))
            (key_parts self.now) }
    {
        file.place() == self.file as usize
            && code_plus_one(key.code) == self.start
            && are_same(key.names.as_slice(), self.names.as_slice())
    }
}

/// Whether the names are the same, one by one.
fn are_same(names: &[Text], others: &[Vec<u8>]) -> bool
    ensures { result ≡ same_texts names.now (map (λ name. name.items) others.now) }
{
    if names.len() != others.len() {
        return false;
    }
    'names: for (at, name) in names.iter().enumerate() {
        if name.as_slice() != others[at].as_slice() {
            return false;
        }
    }
    true
}

/// One more than the code point; 0 if there is none.
fn code_plus_one(code: Option<Point>) -> u32
    ensures { result ≡ start_of code }
{
    match code {
        Some(c) => c.number() + 1,
        None => 0,
    }
}

/// The names again, one by one.
///
/// - `Memory`: memory ran out.
fn copied_names(alloc: Global, names: &[Text]) -> Result<Vec<Vec<u8>>, Memory>
    ensures { IfOk result (λ copy. map (λ name. name.items) copy.items ≡ names.now) }
{
    let mut copy = Vec::new(alloc);
    'names: for name in names {
        copy.push(Vec::from_slice(alloc, name.as_slice())?)?;
    }
    Ok(copy)
}

/// A file and a key.
///
/// - `Memory`: memory ran out.
fn row_key_of(alloc: Global, file: SourceFile, key: &Key) -> Result<RowKey, Memory>
    ensures { IfOk result (λ found. key_parts found
        ≡ row_parts (record { file = file; key = key.now })) }
{
    let names = copied_names(alloc, key.names.as_slice())?;
    Ok(RowKey {
        file: file.place() as u8,
        start: code_plus_one(key.code),
        names,
    })
}

/// The file and the key of the row that an operation touches.
///
/// - `Memory`: memory ran out.
pub fn key_of_op(alloc: Global, op: &Op) -> Result<RowKey, Memory>
    ensures { IfOk result (λ found. key_parts found ≡ row_parts (row_of op.now)) }
{
    match op {
        Op::Add { file, row, .. } | Op::Change { file, row, .. } => {
            row_key_of(alloc, *file, &row_key(alloc, *file, row)?)
        }
        Op::Withdraw { file, key } => row_key_of(alloc, *file, key),
    }
}

/// Those of all operations of a group, in order.
///
/// - `Memory`: memory ran out.
pub fn keys_of_ops(alloc: Global, group: &[Op]) -> Result<Vec<RowKey>, Memory>
    ensures { IfOk result (λ keys. map key_parts keys.items
        ≡ map (λ op. row_parts (row_of op)) group.now) }
{
    let mut keys = Vec::new(alloc);
    'operations: for op in group {
        keys.push(key_of_op(alloc, op)?)?;
    }
    Ok(keys)
}
