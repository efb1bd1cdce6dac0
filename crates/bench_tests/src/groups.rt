//! Groups of operations on benches over releases of a few lines.

ghost use Rattle.std.specs.Prelude.{◌≡◌, IfOk};
ghost use Rattle.std.specs.List.{All};
ghost use Rattle.release_rows.specs.Operations.{IsOp};

use edit_session::Bench;
use release_rows::{Op, Ops, Release};
use source_rows::{read_key, read_row};
use std::alloc::Global;
use std::marker::Brand;
use std::sync::ledger::{Blank, Ledger};
use std::test::Fail;
use ucd_model::{ListOf, Point, SourceFile, Steps};

/// A letter with a mark, and its parts.
pub const GRAVE: &[u8] =
    b"0041;LATIN CAPITAL LETTER A;Lu;0;L;;;;;N;;;;;\n00C0;LATIN CAPITAL LETTER A WITH GRAVE;Lu;0;L;0041 0300;;;;N;;;;;\n0300;COMBINING GRAVE ACCENT;Mn;230;NSM;;;;;N;;;;;\n";

/// An operation, as a script writes it.
#[derive(Clone, Copy)]
pub enum Edit {
    /// The row of these bytes is added.
    Add(SourceFile, &'static [u8]),
    /// The row that has this key is taken out.
    Withdraw(SourceFile, &'static [u8]),
}

/// The row of these bytes, as an operation that adds it.
fn added(alloc: Global, file: SourceFile, bytes: &[u8]) -> Result<Op, Fail>
    ensures { IfOk result IsOp }
{
    let row = read_row(alloc, file, bytes)?;
    let bytes = ListOf::from_vec(Vec::from_slice(alloc, bytes)?);
    Ok(Op::Add { file, row, bytes })
}

/// An edit as an operation.
fn op_of(alloc: Global, edit: Edit) -> Result<Op, Fail>
    ensures { IfOk result IsOp }
{
    match edit {
        Edit::Add(file, bytes) => added(alloc, file, bytes),
        Edit::Withdraw(file, bytes) => {
            let key = read_key(alloc, file, bytes)?;
            Ok(Op::Withdraw { file, key })
        }
    }
}

/// The edits of a group as operations.
pub fn group_of(alloc: Global, edits: &[Edit]) -> Result<Ops, Fail>
    ensures { IfOk result (All IsOp) }
{
    let mut ops = Ops::new(alloc);
    'edits: for edit in edits {
        ops.push(op_of(alloc, *edit)?)?;
    }
    Ok(ops)
}

/// Whether the code points have these numbers.
fn have_numbers(points: &[Point], numbers: &[u32]) -> bool {
    points
        .iter()
        .map(|c| c.number())
        .eq(numbers.iter().copied())
}

/// Whether a bench carries a group out, and just the records of these code points differ.
fn is_answered<L: Ledger>(
    alloc: Global,
    bench: &mut Bench,
    edits: &[Edit],
    changed: &[u32],
    steps: &mut Steps<L>,
) -> Result<bool, Fail> {
    let group = group_of(alloc, edits)?;
    if group.len() > 4096 {
        return Ok(false);
    }
    Ok(match bench.apply(alloc, group.as_slice(), steps) {
        Ok(accepted) => have_numbers(accepted.changed.as_slice(), changed),
        Err(_) => false,
    })
}

/// Whether a bench answers the groups so, one after the other.
fn each_answered<L: Ledger>(
    alloc: Global,
    bench: &mut Bench,
    groups: &[(&[Edit], &[u32])],
    steps: &mut Steps<L>,
) -> Result<bool, Fail> {
    for (edits, changed) in groups {
        if !is_answered(alloc, bench, edits, changed, steps)? {
            return Ok(false);
        }
    }
    Ok(true)
}

/// Whether a bench over a release carries the groups out, one after the other, and just the records of the code points that
/// stand beside each group differ. A call lets the bench go, so that this function stays small.
fn all_answered<L: Ledger>(
    alloc: Global,
    release: Release,
    groups: &[(&[Edit], &[u32])],
    blank: Blank,
) -> Result<bool, Fail>
    requires nothing_prepared { release.prepared ≡ release.current }
    requires name { blank.name ≡ L.name }
    requires parts { blank.parts ≡ L.parts }
    requires some { blank.parts ≡ 1 }
{
    let mut steps = Steps::<L>::new(blank);
    let Ok(mut bench) = Bench::open(alloc, release, &mut steps) else {
        return Ok(false);
    };
    let answered = each_answered(alloc, &mut bench, groups, &mut steps);
    drop(bench);
    answered
}

/// Whether a bench over these lines of UnicodeData.txt, with all other files empty, answers the groups so.
fn answers(alloc: Global, lines: &[u8], groups: &[(&[Edit], &[u32])]) -> Result<bool, Fail> {
    answers_over(alloc, lines, b"", groups)
}

/// Whether a bench over these lines of UnicodeData.txt and CaseFolding.txt, with all other files empty, answers the groups so.
fn answers_over(
    alloc: Global,
    lines: &[u8],
    foldings: &[u8],
    groups: &[(&[Edit], &[u32])],
) -> Result<bool, Fail> {
    let mut release = Release::empty(alloc);
    release.load_file(SourceFile::UnicodeData, lines)?;
    release.load_file(SourceFile::CaseFolding, foldings)?;
    all_answered::<Brand>(alloc, release, groups, Blank::new(1))
}

/// Letters, of which one has a mark, and a ligature that has its parts in its compatibility mapping.
const LIGATURE: &[u8] =
    b"0041;LATIN CAPITAL LETTER A;Lu;0;L;;;;;N;;;;;\n00C0;LATIN CAPITAL LETTER A WITH GRAVE;Lu;0;L;0041 0300;;;;N;;;;;\n00E0;X;Ll;0;L;;;;;N;;;;;\n0300;COMBINING GRAVE ACCENT;Mn;230;NSM;;;;;N;;;;;\nFB00;Y;Lo;0;L;<compat> 0041 0300;;;;N;;;;;\n";

/// The letter that a letter with a mark is folded to is not shown.
const HIDDEN: Edit = Edit::Add(
    SourceFile::PropList,
    b"00E0 ; Other_Default_Ignorable_Code_Point",
);

// the ligature mentions neither the letter with the mark nor what that is folded to
#[test]
fn dependants_stand_behind_composites_and_foldings(rt: HostRuntime) -> Result<(), Fail> {
    let folded_first: [(&[Edit], &[u32]); 2] = [
        (&[HIDDEN], &[0x00C0, 0x00E0, 0xFB00]),
        (
            &[Edit::Withdraw(SourceFile::CaseFolding, b"00C0; C")],
            &[0x00C0, 0xFB00],
        ),
    ];
    assert!(rt; answers_over(rt.alloc(), LIGATURE, b"00C0; C; 00E0\n", &folded_first)?);
    let composed_first: [(&[Edit], &[u32]); 3] = [
        (
            &[Edit::Add(SourceFile::CaseFolding, b"00C0; C; 00E0")],
            &[0x00C0, 0xFB00],
        ),
        (&[HIDDEN], &[0x00C0, 0x00E0, 0xFB00]),
        (
            &[Edit::Add(SourceFile::CompositionExclusions, b"00C0")],
            &[0x00C0, 0x0300, 0xFB00],
        ),
    ];
    assert!(rt; answers(rt.alloc(), LIGATURE, &composed_first)?);
    Ok(())
}
