//! Operations on the rows of a release.

ghost use Rattle.std.specs.Prelude.{◌≡◌, IfOk};
ghost use Rattle.release_rows.specs.Operations.{IsOp};

use crate::files::release_of;
use release_rows::{KeyRule, Op, OpStop, Release};
use source_rows::{RowStop, read_key, read_row};
use std::alloc::Global;
use std::test::Fail;
use ucd_facts::{Memory, SourceFile, Text};

/// An operation, as a script writes it.
#[derive(Clone, Copy)]
pub enum Edit<'a> {
    /// The row of these bytes is added.
    Add(&'a [u8]),
    /// The row of these bytes takes the place of the one that has its key.
    Change(&'a [u8]),
    /// The row that has this key is taken out.
    Withdraw(&'a [u8]),
}

/// The operation on the file.
fn op_of(alloc: Global, file: SourceFile, edit: &Edit<'_>) -> Result<Op, RowStop>
    ensures { IfOk result (λ op. IsOp op) }
{
    match edit {
        Edit::Add(text) => {
            let bytes = Text::of(alloc, text)?;
            let row = read_row(alloc, file, text)?;
            Ok(Op::Add { file, row, bytes })
        }
        Edit::Change(text) => {
            let bytes = Text::of(alloc, text)?;
            let row = read_row(alloc, file, text)?;
            Ok(Op::Change { file, row, bytes })
        }
        Edit::Withdraw(text) => {
            let key = read_key(alloc, file, text)?;
            Ok(Op::Withdraw { file, key })
        }
    }
}

/// An edit, and what it is answered.
pub type Case<'a> = (Edit<'a>, Result<(), OpStop>);

/// Whether an edit of a file is answered so. A call lets the operation go: its many parts would else fill this function's
/// proof.
fn is_answered(
    alloc: Global,
    release: &mut Release,
    file: SourceFile,
    case: &Case<'_>,
) -> Result<bool, RowStop> {
    let op = op_of(alloc, file, &case.0)?;
    let answered = is_prepared_so(release, &op, &case.1);
    drop(op);
    Ok(answered)
}

/// Whether an operation is answered so.
fn is_prepared_so(release: &mut Release, op: &Op, expected: &Result<(), OpStop>) -> bool
    requires { IsOp op.now }
{
    match release.prepare(op) {
        Ok(_) => expected.is_ok(),
        Err(stop) => *expected == Err(stop),
    }
}

fn are_answered(
    alloc: Global,
    release: &mut Release,
    file: SourceFile,
    cases: &[Case<'_>],
) -> Result<bool, RowStop> {
    for case in cases {
        if !is_answered(alloc, release, file, case)? {
            return Ok(false);
        }
    }
    Ok(true)
}

/// Whether edits of a file are answered so, one after the other, and leave these bytes once they are committed.
pub fn leaves(
    alloc: Global,
    file: SourceFile,
    bytes: &[u8],
    cases: &[Case<'_>],
    expected: &[u8],
) -> Result<bool, Fail> {
    let mut release = release_of(alloc, file, bytes)?;
    leaves_over(alloc, &mut release, file, cases, expected)
}

fn leaves_over(
    alloc: Global,
    release: &mut Release,
    file: SourceFile,
    cases: &[Case<'_>],
    expected: &[u8],
) -> Result<bool, Fail> {
    if !are_answered(alloc, release, file, cases)? {
        return Ok(false);
    }
    release.commit();
    Ok(release.text(alloc, file)?.as_slice() == expected)
}

const PLACES: [Case<'static>; 5] = [
    (Edit::Add(b"0042 ; Latin"), Ok(())),
    (Edit::Add(b"0062 ; Latin"), Ok(())),
    (Edit::Add(b"0019 ; Common"), Ok(())),
    (Edit::Add(b"0370 ; Greek"), Ok(())),
    (Edit::Withdraw(b"0061"), Ok(())),
];

/// A new group goes behind all rows, and its next rows to it.
const PROPERTIES: [Case<'static>; 4] = [
    (Edit::Add(b"sc ; Grek ; Greek"), Ok(())),
    (Edit::Add(b"WB ; LE ; ALetter"), Ok(())),
    (Edit::Add(b"gc ; Ll ; Lowercase_Letter"), Ok(())),
    (Edit::Add(b"WB ; EX ; ExtendNumLet"), Ok(())),
];

/// Conditions are one key if their words are, at one code point.
const CONDITIONS: [Case<'static>; 5] = [
    (
        Edit::Add(b"0069; 0069; 0049; 0049;  lt Soft_Dotted ;"),
        Err(OpStop::Key(KeyRule::K1)),
    ),
    (
        Edit::Add(b"0049; 0069; 0049; 0049; lt Soft_Dotted;"),
        Ok(()),
    ),
    (Edit::Add(b"0069; 0069; 0049; 0049; lt;"), Ok(())),
    (
        Edit::Add(b"0069; 0069; 0049; 0049;\tlt ;"),
        Err(OpStop::Key(KeyRule::K1)),
    ),
    (Edit::Add(b"0069; 0069; 0049; 0049;"), Ok(())),
];

/// A file, its bytes, edits of it, and the bytes then.
type Edited = (
    SourceFile,
    &'static [u8],
    &'static [Case<'static>],
    &'static [u8],
);

const EDITED: [Edited; 3] = [
    (
        SourceFile::Scripts,
        b"0041 ; Latin\n0061 ; Latin\n\n0020 ; Common\n0031 ; Common\n",
        &PLACES,
        b"0041 ; Latin\n0042 ; Latin\n0062 ; Latin\n\n0019 ; Common\n0020 ; Common\n0031 ; Common\n0370 ; Greek\n",
    ),
    (
        SourceFile::PropertyValueAliases,
        b"gc ; Lu ; Uppercase_Letter\nsc ; Latn ; Latin\n# end\n",
        &PROPERTIES,
        b"gc ; Ll ; Lowercase_Letter\ngc ; Lu ; Uppercase_Letter\nsc ; Grek ; Greek\nsc ; Latn ; Latin\n# end\nWB ; EX ; ExtendNumLet\nWB ; LE ; ALetter\n",
    ),
    (
        SourceFile::SpecialCasing,
        b"0069; 0069; 0049; 0049; lt\t Soft_Dotted;\n",
        &CONDITIONS,
        b"0049; 0069; 0049; 0049; lt Soft_Dotted;\n0069; 0069; 0049; 0049;\n0069; 0069; 0049; 0049; lt;\n0069; 0069; 0049; 0049; lt\t Soft_Dotted;\n",
    ),
];

#[test]
fn places_and_groups(rt: HostRuntime) -> Result<(), Fail> {
    for (file, bytes, cases, expected) in &EDITED {
        assert!(rt; leaves(rt.alloc(), *file, bytes, cases, expected)?);
    }
    Ok(())
}
