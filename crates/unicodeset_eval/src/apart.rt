//! Rows that share no code point.

ghost use Rattle.std.specs.Prelude.{◌≡◌, true};
ghost use Rattle.release_rows.specs.Releases.{rows_now};
ghost use Rattle.release_rows.specs.ValuesApart.{AreValuesApart};
ghost use Rattle.ucd_points.specs.MissingLines.{takes_missing};

use release_rows::Release;
use ucd_model::SourceFile;

/// No two rows of Scripts.txt but missing rows cover one code point, nor two of WordBreakProperty.txt.
pub(crate) fn rows_are_apart(release: &Release, file: SourceFile)
    requires { takes_missing file ≡ true }
    ensures { AreValuesApart (rows_now release.now file) }
{
    let _rows = release.rows(file);
}
