//! What a release misses of NormalizationTest.txt.

ghost use Rattle.std.specs.Prelude.{◌≡◌, ◌++◌, IfOk, OnOk};
ghost use Rattle.std.specs.List.{flat_map};
ghost use Rattle.number_sets.specs.Keys.{has};
ghost use Rattle.norm_conformance.specs.Misses.{line_misses, misses, missed_forms, misses_at, point_miss, unlisted_misses};
ghost use Rattle.norm_conformance.specs.ValidFacts.{AreOfValidRows};

use crate::case::{Case, Cases};
use crate::case_check::put_misses_of_case;
use crate::form_check::{Expected, check_forms_of_list, put_unless};
use crate::listed::{is_among, listed_points};
use crate::miss::{Miss, Misses};
use number_sets::KeySet;
use std::alloc::Global;
use ucd_model::{FactView, Form, Kind, Memory, Point, point_count};

/// The invariants of NormalizationTest.txt that a release misses: those of each case, by line, then by form in the order NFD,
/// NFC, NFKD and NFKC, then by column; and after them, if the file has a part 1, those of each assigned code point that part 1
/// does not list, by code point, then by form. The head of that file, "CONFORMANCE".
///
/// - `Memory`: memory ran out.
pub fn misses<W: FactView>(alloc: Global, view: &W, cases: &Cases) -> Result<Misses, Memory>
    requires valid { AreOfValidRows (W.facts_of view.now) }
    ensures { IfOk result (λ found. found ≡ misses (W.facts_of view.now) cases.now) }
{
    let mut found = Misses::new(alloc);
    put_misses_of_cases(alloc, view, cases.list.as_slice(), &mut found)?;
    if cases.part_one {
        let listed = listed_points(alloc, cases.list.as_slice())?;
        put_misses_of_unlisted_points(alloc, view, &listed, &mut found)?;
    }
    Ok(found)
}

/// Puts what is missed of each case.
///
/// - `Memory`: memory ran out.
fn put_misses_of_cases<W: FactView>(
    alloc: Global,
    view: &W,
    cases: &[Case],
    found: &mut Misses,
) -> Result<(), Memory>
    requires { AreOfValidRows (W.facts_of view.now) }
    ensures { OnOk result (found.new ≡ found.old
        ++ flat_map (line_misses (W.facts_of view.now)) cases.now) }
{
    'cases: for case in cases {
        put_misses_of_case(alloc, view, case, found)?;
    }
    Ok(())
}

/// Puts what is missed of each assigned code point that is not listed.
///
/// - `Memory`: memory ran out.
fn put_misses_of_unlisted_points<W: FactView>(
    alloc: Global,
    view: &W,
    listed: &KeySet,
    found: &mut Misses,
) -> Result<(), Memory>
    requires { AreOfValidRows (W.facts_of view.now) }
    ensures { OnOk result (found.new ≡ found.old
        ++ unlisted_misses (W.facts_of view.now) (has listed.now)) }
{
    let count = point_count();
    'points: for number in 0..count {
        put_misses_if_unlisted(alloc, view, listed, Point::at(number), found)?;
    }
    Ok(())
}

/// Puts what is missed of a code point, if it is assigned and not listed. A code point without a mapping is each of its
/// forms.
///
/// - `Memory`: memory ran out.
fn put_misses_if_unlisted<W: FactView>(
    alloc: Global,
    view: &W,
    listed: &KeySet,
    c: Point,
    found: &mut Misses,
) -> Result<(), Memory>
    requires { AreOfValidRows (W.facts_of view.now) }
    ensures { OnOk result (found.new ≡ found.old
        ++ misses_at (W.facts_of view.now) (has listed.now) c) }
{
    if !view.is_assigned(c) || matches!(view.kind(c), Kind::Plain) || is_among(listed, c) {
        return Ok(());
    }
    put_misses_of_forms(alloc, view, c, found)
}

/// Puts the forms of a code point that are not itself.
///
/// - `Memory`: memory ran out.
fn put_misses_of_forms<W: FactView>(
    alloc: Global,
    view: &W,
    c: Point,
    found: &mut Misses,
) -> Result<(), Memory>
    requires { AreOfValidRows (W.facts_of view.now) }
    ensures { OnOk result (found.new ≡ found.old ++ missed_forms (W.facts_of view.now) c) }
{
    let itself = [c];
    let expected = Expected {
        nfd: &itself,
        nfc: &itself,
        nfkd: &itself,
        nfkc: &itself,
    };
    let check = check_forms_of_list(alloc, view, &itself, expected)?;
    put_unless(
        check.is_as_expected(Form::Nfd),
        point_miss(c, Form::Nfd),
        found,
    )?;
    put_unless(
        check.is_as_expected(Form::Nfc),
        point_miss(c, Form::Nfc),
        found,
    )?;
    put_unless(
        check.is_as_expected(Form::Nfkd),
        point_miss(c, Form::Nfkd),
        found,
    )?;
    put_unless(
        check.is_as_expected(Form::Nfkc),
        point_miss(c, Form::Nfkc),
        found,
    )?;
    Ok(())
}

/// A form of a code point that is missed.
fn point_miss(point: Point, form: Form) -> Miss
    ensures { result ≡ point_miss point form }
{
    Miss::Point { point, form }
}
