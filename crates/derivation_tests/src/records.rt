//! Records of code points of Unicode 15.0.0, over a list of facts.

ghost use Rattle.std.specs.Prelude.{◌≡◌};

use crate::facts::{COMPAT, FoldedRow, PLAIN, listed_folded, point};
use identifier_closure::{derive_record, id_continue, id_start};
use std::alloc::Global;
use std::marker::Brand;
use std::sync::ledger::{Blank, Ledger};
use ucd_model::{Category, Core, CoreSet, FactView, FormStop, Memory, Point, Record, Steps};

/// LATIN CAPITAL LETTER A and SMALL LETTER A, and THAI CHARACTER SARA AM with its parts.
const ROWS: [FoldedRow<'static>; 5] = [
    (0x0041, Category::Lu, 0, PLAIN, &[], &[0x0061]),
    (0x0061, Category::Ll, 0, PLAIN, &[], &[]),
    (0x0E32, Category::Lo, 0, PLAIN, &[], &[]),
    (0x0E4D, Category::Mn, 0, PLAIN, &[], &[]),
    (0x0E33, Category::Lo, 0, COMPAT, &[0x0E4D, 0x0E32], &[]),
];

/// The record of a code point, counted on a ledger.
fn counted<W: FactView, L: Ledger>(
    alloc: Global,
    view: &W,
    c: Point,
    blank: Blank,
) -> Result<Record, FormStop>
    requires name { blank.name ≡ L.name }
    requires parts { blank.parts ≡ L.parts }
    requires some { blank.parts ≡ 1 }
{
    let mut steps = Steps::<L>::new(blank);
    derive_record(alloc, view, c, &mut steps)
}

/// The record of a code point.
pub fn record<W: FactView>(alloc: Global, view: &W, c: Point) -> Result<Record, FormStop> {
    counted::<W, Brand>(alloc, view, c, Blank::new(1))
}

/// The core properties of a code point, if it has a record.
fn core<W: FactView>(alloc: Global, view: &W, c: Point) -> Option<CoreSet> {
    match record(alloc, view, c) {
        Ok(found) => Some(found.core),
        Err(_) => None,
    }
}

fn is_capital(core: CoreSet) -> bool {
    core.has(Core::Uppercase)
        && core.has(Core::XidStart)
        && core.has(Core::ChangesWhenCasefolded)
        && !core.has(Core::ChangesWhenLowercased)
}

fn is_vowel(core: CoreSet) -> bool {
    core.has(Core::IdStart) && core.has(Core::XidContinue) && !core.has(Core::XidStart)
}

fn cores_are_derived<W: FactView>(alloc: Global, view: &W) -> bool {
    match (
        core(alloc, view, point(0x0041)),
        core(alloc, view, point(0x0E33)),
    ) {
        (Some(capital), Some(vowel)) => is_capital(capital) && is_vowel(vowel),
        _ => false,
    }
}

fn cores_of_rows_are_derived(alloc: Global) -> bool {
    match listed_folded(alloc, &ROWS) {
        Ok(list) => cores_are_derived(alloc, &list),
        Err(Memory) => false,
    }
}

#[test]
fn core_properties_are_derived(rt: HostRuntime) {
    assert!(rt; cores_of_rows_are_derived(rt.alloc()));
}

/// Whether a vowel begins an identifier, and a mark only goes on with one.
fn goes_on<W: FactView>(view: &W, vowel: Point, mark: Point) -> bool {
    id_start(view, vowel)
        && id_continue(view, vowel)
        && !id_start(view, mark)
        && id_continue(view, mark)
}

fn marks_of_rows_go_on(alloc: Global) -> bool {
    match listed_folded(alloc, &ROWS) {
        Ok(list) => goes_on(&list, point(0x0E33), point(0x0E4D)),
        Err(Memory) => false,
    }
}

#[test]
fn marks_go_on_with_identifiers(rt: HostRuntime) {
    assert!(rt; marks_of_rows_go_on(rt.alloc()));
}
