//! Undoes splices.

ghost use Rattle.std.specs.Prelude.{◌≡◌, ◌+◌, ◌≤◌, ◌++◌, drop, length, map, take, IfOk, OnOk};
ghost use Rattle.std.specs.List.{All};
ghost use Rattle.part_list.specs.Parts.{spliced};
ghost use Rattle.ucd_points.specs.SourceFiles.{source_files};
ghost use Rattle.release_rows.specs.Patches.{back, patch_spans, undone, IsDefined, Stands};
ghost use Rattle.release_rows.specs.Releases.{files_now, files_next, items_at};
ghost use Rattle.release_rows.specs.StoredItems.{stored_at, IsStored};

use crate::file_text::FileText;
use crate::nine_files::NineFiles;
use crate::splice::Splice;
use crate::stored_item::StoredItem;
use part_list::Entry;
use std::alloc::Global;
use ucd_facts::{Memory, Spans};

/// Takes so many items next out, from a place on.
///
/// - `Memory`: memory ran out. What is next may be anything then.
fn take_out_all(items: &mut FileText, at: usize, count: usize) -> Result<(), Memory>
    requires { at + count ≤ length items.old.next }
    ensures file { items.new.file ≡ items.old.file }
    ensures now { items.new.now ≡ items.old.now }
    ensures next { OnOk result (items.new.next ≡ take at items.old.next
        ++ drop (at + count) items.old.next) }
{
    let mut left = count;
    'items: while left > 0 {
        items.take_out(at)?;
        left -= 1;
    }
    Ok(())
}

/// Puts copies of items of another text in at a place, next.
///
/// - `Memory`: memory ran out, or the text would have 2^32 bytes or more. What is next may be anything then.
fn put_all(
    items: &mut FileText,
    at: usize,
    from: &[u8],
    entries: &[Entry<StoredItem>],
) -> Result<(), Memory>
    requires stored { All (IsStored items.old.file from.now) entries.now }
    requires within { at ≤ length items.old.next }
    ensures file { items.new.file ≡ items.old.file }
    ensures now { items.new.now ≡ items.old.now }
    ensures next { OnOk result (items.new.next ≡ take at items.old.next
        ++ map (stored_at items.old.file from.now) entries.now ++ drop at items.old.next) }
{
    let mut left = entries.len();
    'items: while left > 0 {
        left -= 1;
        items.put_copy(at, from, &entries[left])?;
    }
    Ok(())
}

/// Puts the earlier items of a splice in the place of the later ones, next.
///
/// - `Memory`: memory ran out, or the text would have 2^32 bytes or more. What is next may be anything then.
fn undo_in(items: &mut FileText, splice: &Splice) -> Result<(), Memory>
    requires file { splice.now.file ≡ items.old.file }
    requires stands { Stands splice.now items.old.next }
    ensures file { items.new.file ≡ items.old.file }
    ensures now { items.new.now ≡ items.old.now }
    ensures next { OnOk result (items.new.next
        ≡ spliced items.old.next splice.now.at (length splice.now.later) splice.now.earlier) }
{
    take_out_all(items, splice.at(), splice.later_len())?;
    let (text, entries) = splice.earlier();
    put_all(items, splice.at(), text, entries)
}

/// Undoes a splice in what is next in its file.
///
/// - `Memory`: memory ran out, or the text of the file would have 2^32 bytes or more. What is next may be anything then.
fn undo(files: &mut NineFiles, splice: &Splice) -> Result<(), Memory>
    requires files { map (λ lists. lists.file) files.old ≡ source_files }
    requires stands { Stands splice.now (items_at (files_next files.old) splice.now.file) }
    ensures files { map (λ lists. lists.file) files.new ≡ source_files }
    ensures now { files_now files.new ≡ files_now files.old }
    ensures next { OnOk result (files_next files.new ≡ undone splice.now (files_next files.old)) }
{
    undo_in(&mut files[splice.file().place()], splice)
}

/// Undoes splices in what is next, one after the other, and answers what code points their rows speak of.
///
/// - `Memory`: memory ran out, or the text of a file would have 2^32 bytes or more. What is next may be anything then.
pub fn undo_all(files: &mut NineFiles, alloc: Global, patch: &[Splice]) -> Result<Spans, Memory>
    requires files { map (λ lists. lists.file) files.old ≡ source_files }
    requires defined { IsDefined patch.now (files_next files.old) }
    ensures files { map (λ lists. lists.file) files.new ≡ source_files }
    ensures now { files_now files.new ≡ files_now files.old }
    ensures next { OnOk result (files_next files.new ≡ back patch.now (files_next files.old)) }
    ensures spans { IfOk result (λ spans. spans ≡ patch_spans patch.now) }
{
    let mut spans = Spans::new(alloc);
    let mut done = 0;
    'splices: while done < patch.len() {
        undo(files, &patch[done])?;
        patch[done].put_spans(alloc, &mut spans)?;
        done += 1;
    }
    Ok(spans)
}
