//! Which code points are assigned.

ghost use Rattle.release_rows.specs.Releases.{rows_now};
ghost use Rattle.unicodeset_eval.specs.Assigned.{AssignedHaveCategories};

use release_rows::Release;
use source_rows::{possible_rows_are_readable, rows_are_read};
use ucd_model::SourceFile;

/// A row of UnicodeData.txt covers a code point exactly if its category is not Cn.
pub(crate) fn assigned_have_categories(release: &Release)
    ensures { AssignedHaveCategories (rows_now release.now) }
{
    rows_are_read();
    possible_rows_are_readable();
    let _rows = release.rows(SourceFile::UnicodeData);
}
