//! How many code points depend on a group. No group raises the counter of steps by more: that is a clause of `Bench::apply`.

ghost use Rattle.std.specs.Prelude.{◌≡◌};

use code_facts::{FactTables, FromRelease};
use point_queries::{Derived, derive_point};
use range_table::RunTable;
use release_rows::Release;
use std::alloc::Global;
use std::marker::Brand;
use std::sync::ledger::{Blank, Ledger};
use std::test::Fail;
use ucd_model::{FactView, FormStop, Point, Query, SourceFile, Steps, same_facts};

/// A letter, a mark, and a ligature that has both in its compatibility mapping.
const DATA: &[u8] =
    b"0061;LATIN SMALL LETTER A;Ll;0;L;;;;;N;;;;;\n0300;COMBINING GRAVE ACCENT;Mn;230;NSM;;;;;N;;;;;\nFB00;X;Lo;0;L;<compat> 0061 0300;;;;N;;;;;\n";

/// A letter, a mark, their composite, and a ligature that has the letter and the mark in its compatibility mapping.
const WITH_COMPOSITE: &[u8] =
    b"0061;LATIN SMALL LETTER A;Ll;0;L;;;;;N;;;;;\n00E0;LATIN SMALL LETTER A WITH GRAVE;Ll;0;L;0061 0300;;;;N;;;;;\n0300;COMBINING GRAVE ACCENT;Mn;230;NSM;;;;;N;;;;;\nFB00;X;Lo;0;L;<compat> 0061 0300;;;;N;;;;;\n";

/// Behind the code points that are asked: no row stands behind them.
const END: u32 = 0x1_0000;

/// The facts of rows.
type Tables = FactTables<RunTable<u64>>;

/// The facts of lines of UnicodeData.txt and CaseFolding.txt; the other files are empty.
fn tables(alloc: Global, data: &[u8], foldings: &[u8]) -> Result<Box<Tables>, Fail> {
    let mut release = Release::empty(alloc);
    release.load_file(SourceFile::UnicodeData, data)?;
    release.load_file(SourceFile::CaseFolding, foldings)?;
    let made = FactTables::of(alloc, &release)?;
    Ok(Box::new(alloc, made)?)
}

/// Whether a question has the same answer over both facts.
fn is_answered_alike(old: &Tables, new: &Tables, query: Query) -> bool {
    match query {
        Query::Row(c) => same_facts(&old.facts(c), &new.facts(c)),
        Query::Pair(s, y) => old.pair(s, y) == new.pair(s, y),
        Query::Second(y) => old.second(y) == new.second(y),
    }
}

/// Whether the derivation of a code point asks a question that has another answer afterwards.
fn depends<L: Ledger>(
    alloc: Global,
    old: &Tables,
    new: &Tables,
    c: Point,
    steps: &mut Steps<L>,
) -> Result<bool, FormStop> {
    let Derived { value: _, asked } = derive_point(alloc, old, c, steps)?;
    Ok(
        asked
            .as_slice()
            .iter()
            .any(|query| !is_answered_alike(old, new, *query)),
    )
}

/// Whether just these code points depend on the change, counted on a ledger.
fn counted<L: Ledger>(
    alloc: Global,
    old: &Tables,
    new: &Tables,
    expected: &[u32],
    blank: Blank,
) -> Result<bool, FormStop>
    requires name { blank.name ≡ L.name }
    requires parts { blank.parts ≡ L.parts }
    requires some { blank.parts ≡ 1 }
{
    let mut steps = Steps::<L>::new(blank);
    for number in 0..END {
        let c = Point::at(number);
        if depends(alloc, old, new, c, &mut steps)? != expected.contains(&number) {
            return Ok(false);
        }
    }
    Ok(true)
}

/// Whether just these code points depend on the change from rows to others.
fn have_dependants(
    alloc: Global,
    old: (&[u8], &[u8]),
    new: (&[u8], &[u8]),
    expected: &[u32],
) -> Result<bool, Fail> {
    let before = tables(alloc, old.0, old.1)?;
    let after = tables(alloc, new.0, new.1)?;
    Ok(counted::<Brand>(alloc, &before, &after, expected, Blank::new(1))?)
}

#[test]
fn some_code_points_depend_on_a_composite_and_on_its_folding(rt: HostRuntime) -> Result<(), Fail> {
    let composed = [0x00E0, 0x0300, 0xFB00];
    assert!(rt; have_dependants(rt.alloc(), (DATA, b""), (WITH_COMPOSITE, b""), &composed)?);
    let folding = b"00E0; C; 0061\n";
    let folded = [0x00E0, 0xFB00];
    assert!(rt;
        have_dependants(
            rt.alloc(),
            (WITH_COMPOSITE, b""),
            (WITH_COMPOSITE, folding),
            &folded
        )?
    );
    Ok(())
}
