//! Sets of values if missing rows give other values than the default.

ghost use Rattle.std.specs.Prelude.{◌≡◌, [], IfOk};
ghost use Rattle.release_rows.specs.Releases.{items_now};
ghost use Rattle.ucd_points.specs.declared.files.SourceFile.TheVariants.{UnicodeData};

use crate::answers::{AnswerRow, texts_are_answered};
use release_rows::Release;
use std::alloc::Global;
use std::test::Fail;
use ucd_model::SourceFile;

/// Scripts.txt has a missing row over another and a row over both, WordBreakProperty.txt two missing rows that overlap.
fn release(alloc: Global) -> Result<Release, Fail>
    ensures { IfOk result (λ release. items_now release UnicodeData ≡ []) }
{
    let mut release = Release::empty(alloc);
    release.load_file(
        SourceFile::Scripts,
        b"# @missing: 0000..10FFFF; Unknown\n# @missing: 0400..04FF; Cyrillic\n0400 ; Latin\n",
    )?;
    release.load_file(
        SourceFile::WordBreakProperty,
        b"# @missing: 0041..0043; MidLetter\n# @missing: 0043..0044; MidNum\n0041 ; ALetter\n# @missing: 0044; Other\n",
    )?;
    Ok(release)
}

/// Texts with their answers: of the missing rows that cover a code point the last one counts, and none does if another row
/// covers it. The values of missing rows have names too.
const ANSWERS: [AnswerRow; 8] = [
    (b"\\p{sc=Cyrillic}", &[(0x401, 0x4FF)]),
    (b"\\p{sc=Unknown}", &[(0, 0x3FF), (0x500, 0x10_FFFF)]),
    (b"\\p{sc=Latin}", &[(0x400, 0x400)]),
    (b"\\p{WB=Other}", &[(0, 0x40), (0x44, 0x10_FFFF)]),
    (b"\\p{WB=MidLetter}", &[(0x42, 0x42)]),
    (b"\\p{WB=ALetter}", &[(0x41, 0x41)]),
    (b"\\p{WB=MidNum}", &[(0x43, 0x43)]),
    (
        b"[\\p{WB=MidLetter}\\p{sc=Latin}]",
        &[(0x42, 0x42), (0x400, 0x400)],
    ),
];

#[test]
fn last_missing_row_counts(rt: HostRuntime) -> Result<(), Fail> {
    let release = release(rt.alloc())?;
    texts_are_answered(&rt, rt.alloc(), &release, &ANSWERS)
}
