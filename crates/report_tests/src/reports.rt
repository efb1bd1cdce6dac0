//! Reports over releases of a few lines.

ghost use Rattle.std.specs.Prelude.{◌≡◌, IfOk};
ghost use Rattle.std.specs.List.{list_all};
ghost use Rattle.edit_session.specs.Benches.{bench_facts};
ghost use Rattle.stability_policies.specs.Reports.{report};

use crate::samples::{Lines, bench_over, data, point};
use edit_session::Bench;
use stability_policies::{
    Breaks, Forms, Policy, common_caseless, common_forms, lists, report, report_text,
};
use std::alloc::Global;
use std::test::Fail;
use ucd_model::{FactView, Memory, Point, Points};

/// A letter with a mark and its parts, and the same with one mark more.
pub const GRAVE: &[u8] =
    b"0061;LATIN SMALL LETTER A;Ll;0;L;;;;;N;;;;;\n00E0;LATIN SMALL LETTER A WITH GRAVE;Ll;0;L;0061 0300;;;;N;;;;;\n0300;COMBINING GRAVE ACCENT;Mn;230;NSM;;;;;N;;;;;\n";

const MORE: &[u8] =
    b"0061;LATIN SMALL LETTER A;Ll;0;L;;;;;N;;;;;\n00E0;LATIN SMALL LETTER A WITH GRAVE;Ll;0;L;0061 0300;;;;N;;;;;\n0300;COMBINING GRAVE ACCENT;Mn;230;NSM;;;;;N;;;;;\n0301;COMBINING ACUTE ACCENT;Mn;230;NSM;;;;;N;;;;;\n";

/// A range and a letter, and the same with other names.
const RANGE: &[u8] =
    b"01A2;LATIN CAPITAL LETTER OI;Lu;0;L;;;;;N;;;;;\n3400;<CJK Ideograph Extension A, First>;Lo;0;L;;;;;N;;;;;\n3403;<CJK Ideograph Extension A, Last>;Lo;0;L;;;;;N;;;;;\n";

const RENAMED: &[u8] =
    b"01A2;LATIN CAPITAL LETTER GHA;Lu;0;L;;;;;N;;;;;\n3400;<CJK Ideograph Extension A, First>;Lo;0;L;;;;;N;;;;;\n3401;<CJK Ideograph Extension A, Last>;Lo;0;L;;;;;N;;;;;\n3402;<CJK Ideograph, First>;Lo;0;L;;;;;N;;;;;\n3404;<CJK Ideograph, Last>;Lo;0;L;;;;;N;;;;;\n";

/// Names of properties and values, and the same with names moved and lost.
const PROPERTIES: &[u8] =
    b"# names\nAlpha ; Alphabetic\nWSpace ; White_Space ; space\nDash ; Dash\n";

const LESS: &[u8] = b"Dash ; Dash\nWSpace ; White_Space\nAlpha ; Alphabetic ; A\n";

const VALUES: &[u8] = b"sc ; Latn ; Latin\ngc ; Lu ; Uppercase_Letter\n";

const MOVED: &[u8] = b"scx ; sc ; Latn ; Latin\ngc ; Lu ; Uppercase_Letter\n";

/// A bench over a release with these lines, on the heap.
pub fn boxed(alloc: Global, lines: &Lines) -> Result<Box<Bench>, Fail> {
    let bench = bench_over(alloc, lines)?;
    Ok(Box::new(alloc, bench)?)
}

/// The report of two benches.
fn report_of(alloc: Global, old: &Bench, new: &Bench) -> Result<Breaks, Memory>
    ensures { IfOk result (λ breaks. breaks ≡ report old.now new.now) }
{
    let old_rows = old.release();
    let new_rows = new.release();
    report(alloc, old, old_rows, new, new_rows)
}

/// What is looked at in two releases. One function owns their benches for all tests, and calls let these go: so each stays
/// small.
#[derive(Clone, Copy)]
enum Look {
    /// Whether their report is this text.
    Text(&'static [u8]),
    /// Whether they have the forms of a list in common, and its folding.
    Forms,
}

fn on_benches(alloc: Global, old: &Lines, new: &Lines, look: Look) -> Result<bool, Fail> {
    let old = boxed(alloc, old)?;
    let new = boxed(alloc, new)?;
    let looked = look_at(alloc, &old, &new, look);
    drop(new);
    drop(old);
    Ok(looked?)
}

fn look_at(alloc: Global, old: &Bench, new: &Bench, look: Look) -> Result<bool, Memory> {
    match look {
        Look::Text(expected) => reports(alloc, old, new, expected),
        Look::Forms => have_in_common(alloc, old, new),
    }
}

fn reports(alloc: Global, old: &Bench, new: &Bench, expected: &[u8]) -> Result<bool, Memory> {
    let breaks = report_of(alloc, old, new)?;
    let text = report_text(alloc, &breaks)?;
    Ok(text.as_slice() == expected)
}

/// Whether all of these code points are assigned.
fn are_assigned(bench: &Bench, points: &[Point]) -> bool
    ensures { result ≡ list_all (λ c. (bench_facts bench.now c).assigned) points.now }
{
    points.iter().all(|c| bench.is_assigned(*c))
}

/// The forms that a list has in both, and its folding under NFKC; `None` if a break of one of their policies is listed,
/// or if a code point is not assigned.
fn in_common(
    alloc: Global,
    old: &Bench,
    new: &Bench,
    s: &[Point],
) -> Result<Option<(Forms, Points)>, Memory> {
    let old_rows = old.release();
    let new_rows = new.release();
    let breaks = report(alloc, old, old_rows, new, new_rows)?;
    if lists(&breaks, Policy::P01)
        || lists(&breaks, Policy::P03)
        || lists(&breaks, Policy::P04)
        || lists(&breaks, Policy::P05)
        || lists(&breaks, Policy::P10)
        || !are_assigned(old, s)
    {
        return Ok(None);
    }
    let forms = common_forms(alloc, old, old_rows, new, new_rows, &breaks, s)?;
    let folding = common_caseless(alloc, old, old_rows, new, new_rows, &breaks, s)?;
    Ok(Some((forms, folding)))
}

fn have_in_common(alloc: Global, old: &Bench, new: &Bench) -> Result<bool, Memory> {
    let held = [point(0xE0), point(0x61), point(0x300)];
    let kept = match in_common(alloc, old, new, &held)? {
        Some((forms, folding)) => are_kept(&forms, &folding),
        None => false,
    };
    Ok(kept && in_common(alloc, old, new, &[point(0x301)])?.is_none())
}

fn are_kept(forms: &Forms, folding: &Points) -> bool {
    let letter = point(0x61);
    let grave = point(0x300);
    let composed = point(0xE0);
    forms.nfd.as_slice() == [letter, grave, letter, grave].as_slice()
        && forms.nfc.as_slice() == [composed, composed].as_slice()
        && folding.as_slice() == [composed, composed].as_slice()
}

#[test]
fn names_and_labels_are_compared(rt: HostRuntime) -> Result<(), Fail> {
    let breaks = Look::Text(b"P02 01A2\nP02 3402\nP02 3403\n# total 3\n");
    assert!(rt; on_benches(rt.alloc(), &data(RANGE), &data(RENAMED), breaks)?);
    Ok(())
}

#[test]
fn names_of_properties_and_values_are_compared(rt: HostRuntime) -> Result<(), Fail> {
    let old = Lines {
        data: b"",
        properties: PROPERTIES,
        values: VALUES,
    };
    let new = Lines {
        data: b"",
        properties: LESS,
        values: MOVED,
    };
    let breaks = Look::Text(
        b"P17 PropertyAliases.txt 3\nP17 PropertyValueAliases.txt 1\n# total 2\n",
    );
    assert!(rt; on_benches(rt.alloc(), &old, &new, breaks)?);
    Ok(())
}

#[test]
fn forms_and_foldings_stay(rt: HostRuntime) -> Result<(), Fail> {
    assert!(rt; on_benches(rt.alloc(), &data(GRAVE), &data(MORE), Look::Forms)?);
    Ok(())
}
