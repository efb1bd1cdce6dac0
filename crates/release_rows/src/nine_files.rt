//! The items of the nine source files.

ghost use Rattle.std.specs.Prelude.{◌≡◌, map, slice_set, IfOk};
ghost use Rattle.ucd_points.specs.SourceFiles.{file_place, source_files};
ghost use Rattle.release_rows.specs.Operations.{AnswersOp, IsOp, op_file, op_or_rule, touched};
ghost use Rattle.release_rows.specs.Releases.{AllAreKept, committed, discarded, items_at, files_now, files_next, no_items};

use crate::file_text::FileText;
use crate::laws::{operations_keep_cuts, operations_keep_order, operations_keep_rows};
use crate::operation::{Op, OpStop};
use std::alloc::Global;
use ucd_facts::{Copied, Memory, SourceFile, Spans};

/// The items of each source file, at its place in the order in which the files are read.
pub type NineFiles = [FileText; 9];

/// No items in any file. It takes no memory.
pub fn no_items(alloc: Global) -> NineFiles
    ensures files { map (λ lists. lists.file) result ≡ source_files }
    ensures now { files_now result ≡ no_items }
    ensures next { files_next result ≡ no_items }
{
    [
        FileText::empty(alloc, SourceFile::UnicodeData),
        FileText::empty(alloc, SourceFile::PropList),
        FileText::empty(alloc, SourceFile::Scripts),
        FileText::empty(alloc, SourceFile::WordBreakProperty),
        FileText::empty(alloc, SourceFile::CompositionExclusions),
        FileText::empty(alloc, SourceFile::CaseFolding),
        FileText::empty(alloc, SourceFile::SpecialCasing),
        FileText::empty(alloc, SourceFile::PropertyAliases),
        FileText::empty(alloc, SourceFile::PropertyValueAliases),
    ]
}

/// A copy of each file, with the same items, now and next.
///
/// - `Memory`: memory ran out.
pub fn copied_files(alloc: Global, files: &NineFiles) -> Result<NineFiles, Memory>
    ensures { IfOk result (λ copies. copies ≡ files.now) }
{
    let mut copies = no_items(alloc);
    let mut at = 0;
    'files: while at < 9 {
        copies[at] = files[at].copied(alloc)?;
        at += 1;
    }
    Ok(copies)
}

/// The items of a file.
pub fn items_at(files: &NineFiles, file: SourceFile) -> &FileText
    ensures now { result.now.now ≡ items_at (files_now files.now) file }
    ensures next { result.now.next ≡ items_at (files_next files.now) file }
{
    &files[file.place()]
}

/// Gives a file other items.
pub fn put(files: &mut NineFiles, file: SourceFile, items: FileText)
    ensures { files.new ≡ slice_set files.old (file_place file) items }
{
    files[file.place()] = items;
}

/// Carries out an operation on what is next in its file, and answers the code points that it touches.
///
/// - `Key(rule)`: the rule that it breaks.
/// - `Memory`: memory ran out, or the text of the file would have 2^32 bytes or more.
///
/// After either what is next is as it was.
pub fn prepare_in(files: &mut NineFiles, alloc: Global, op: &Op) -> Result<Spans, OpStop>
    requires op { IsOp op.now }
    requires files { map (λ lists. lists.file) files.old ≡ source_files }
    requires kept { AllAreKept (files_next files.old) }
    ensures files { map (λ lists. lists.file) files.new ≡ source_files }
    ensures now { files_now files.new ≡ files_now files.old }
    ensures answer { AnswersOp result (op_or_rule (files_next files.old) op.now)
        (touched (items_at (files_next files.old) (op_file op.now)) op.now)
        (files_next files.old) (files_next files.new) }
    ensures kept { AllAreKept (files_next files.new) }
{
    operations_keep_rows();
    operations_keep_order();
    operations_keep_cuts();
    files[op.file().place()].prepare(alloc, op)
}

/// Makes what is next what is now in each file. It takes no memory.
pub fn commit_all(files: &mut NineFiles)
    ensures { files.new ≡ map committed files.old }
{
    let mut at = 0;
    'files: while at < 9 {
        files[at].commit();
        at += 1;
    }
}

/// Makes what is now what is next in each file. It takes no memory.
pub fn discard_all(files: &mut NineFiles)
    ensures { files.new ≡ map discarded files.old }
{
    let mut at = 0;
    'files: while at < 9 {
        files[at].discard();
        at += 1;
    }
}
