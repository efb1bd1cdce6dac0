//! Missing rows of WordBreakProperty.txt: they give a value to the code points that no other row covers.

use code_facts::{FactTables, FromRelease};
use range_table::RunTable;
use release_rows::Release;
use std::alloc::Global;
use std::process::Abort;
use std::test::Fail;
use ucd_facts::{FactView, Point, SourceFile};

type Tables = FactTables<RunTable<u64>>;

/// Whether code points stand in the middle of a word.
type Expected = &'static [(u32, bool)];

/// The tables of the facts that these lines give.
fn tables_of(alloc: Global, lines: &[u8]) -> Result<Box<Tables>, Fail> {
    let mut release = Release::empty(alloc);
    release.load_file(SourceFile::WordBreakProperty, lines)?;
    let tables = FactTables::of(alloc, &release);
    drop(release);
    Ok(Box::new(alloc, tables?)?)
}

/// Whether tables show so of code points.
fn show(tables: &Tables, expected: Expected) -> bool {
    expected.iter().all(|(number, is_mid_word)| match Point::new(*number) {
        Some(c) => tables.facts(c).mid_word == *is_mid_word,
        None => false,
    })
}

/// Looks at the facts that these lines give.
fn look_at(
    rt: &impl Abort,
    alloc: Global,
    lines: &'static [u8],
    expected: Expected,
) -> Result<(), Fail> {
    let tables = tables_of(alloc, lines)?;
    assert!(rt; show(&tables, expected));
    Ok(())
}

/// Lines, and what they say of code points.
const CASES: [(&[u8], Expected); 4] = [
    // a missing row gives a value
    (
        b"# @missing: 0041; MidLetter\n",
        &[(0x40, false), (0x41, true), (0x42, false)],
    ),
    // the default of the real files is no such value
    (
        b"# @missing: 0000..10FFFF; Other\n0027          ; Single_Quote # Po       APOSTROPHE\n",
        &[(0x26, false), (0x27, true), (0x0010_FFFF, false)],
    ),
    // other rows hide missing rows
    (
        b"003A ; MidLetter\n# @missing: 0041..0043; MidLetter\n# @missing: 003A; Other\n0042 ; ALetter\n",
        &[(0x3A, true), (0x41, true), (0x42, false), (0x43, true)],
    ),
    // the last missing row counts
    (
        b"# @missing: 0041..0044; MidLetter\n# @missing: 0042..0043; Other\n# @missing: 0043; MidNumLet\n",
        &[(0x41, true), (0x42, false), (0x43, true), (0x44, true)],
    ),
];

#[test]
fn missing_rows_give_values(rt: HostRuntime) -> Result<(), Fail> {
    for (lines, expected) in &CASES {
        look_at(&rt, rt.alloc(), lines, expected)?;
    }
    Ok(())
}
