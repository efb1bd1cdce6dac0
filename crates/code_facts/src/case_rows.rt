//! The images that rows give, gathered under their code points.

ghost use Rattle.std.specs.Prelude.{◌≡◌, ℕ, ◌==◌, None, Some, List, [], false, IfOk, OnOk, if◌then◌else◌};
ghost use Rattle.std.specs.Box.{box_value};
ghost use Rattle.source_rows.specs.RowRefs.{row_in};
ghost use Rattle.fact_tables.specs.CaseImages.{cases_at};
ghost use Rattle.code_facts.specs.CaseImages.{KeepsImages, all_images, with_casings, with_foldings, with_image};
ghost use Rattle.code_facts.specs.Found.{first_some, image_of_row};
ghost use Rattle.code_facts.specs.RowLists.{sources_of};
ghost use Rattle.ucd_facts.specs.declared.row.Row.{Row};

use crate::case::Case;
use crate::row_lists::RowLists;
use fact_tables::{CaseImages, Cases, GivenPoints};
use release_rows::RowText;
use source_rows::{Mapping, RowRef};
use std::alloc::Global;
use std::collections::BTreeMap;
use ucd_facts::{FoldStatus, Memory, Point};

/// The images that these rows give. The Unicode Standard, section 5.18.
///
/// - `Memory`: memory ran out.
pub fn case_images(alloc: Global, rows: &RowLists<'_>) -> Result<CaseImages, Memory>
    ensures { IfOk result (λ images. KeepsImages images (sources_of rows.now)) }
{
    let foldings = foldings_of(alloc, &rows.case_folding)?;
    let images = casings_over(alloc, foldings, &rows.special_casing)?;
    Ok(CaseImages { images })
}

/// The foldings of the statuses C, F and S that rows give. If several rows give a code point one, the first counts. Each
/// row is read once.
///
/// - `Memory`: memory ran out.
fn foldings_of(alloc: Global, rows: &[RowText<'_>]) -> Result<BTreeMap<Point, Box<Cases>>, Memory>
    ensures { IfOk result (λ images. (c : ℕ) → cases_at images c ≡ all_images rows.now [] c) }
{
    let mut images = BTreeMap::new(alloc);
    'rows: for text in rows {
        put_foldings(alloc, &mut images, &text.row())?;
    }
    Ok(images)
}

/// These foldings, and beside them the casings without conditions that rows give, likewise.
///
/// - `Memory`: memory ran out.
fn casings_over(
    alloc: Global,
    foldings: BTreeMap<Point, Box<Cases>>,
    rows: &[RowText<'_>],
) -> Result<BTreeMap<Point, Box<Cases>>, Memory>
    ensures { (given : List Row) → ((c : ℕ) → cases_at foldings c ≡ all_images given [] c)
        → IfOk result (λ images. (c : ℕ) → cases_at images c ≡ all_images given rows.now c) }
{
    let mut images = foldings;
    'rows: for text in rows {
        put_casings(alloc, &mut images, &text.row())?;
    }
    Ok(images)
}

/// Gives the code point of a row the foldings that it has not yet.
fn put_foldings(
    alloc: Global,
    images: &mut BTreeMap<Point, Box<Cases>>,
    row: &RowRef<'_>,
) -> Result<(), Memory>
    ensures { OnOk result ((c : ℕ)
        → cases_at images.new c ≡ with_foldings c (row_in row.now) (cases_at images.old c)) }
{
    put_row_image(alloc, images, row, Case::Fold(FoldStatus::C))?;
    put_row_image(alloc, images, row, Case::Fold(FoldStatus::F))?;
    put_row_image(alloc, images, row, Case::Fold(FoldStatus::S))
}

/// Gives the code point of a row the casings that it has not yet.
fn put_casings(
    alloc: Global,
    images: &mut BTreeMap<Point, Box<Cases>>,
    row: &RowRef<'_>,
) -> Result<(), Memory>
    ensures { OnOk result ((c : ℕ)
        → cases_at images.new c ≡ with_casings c (row_in row.now) (cases_at images.old c)) }
{
    put_row_image(alloc, images, row, Case::Lower)?;
    put_row_image(alloc, images, row, Case::Title)?;
    put_row_image(alloc, images, row, Case::Upper)
}

/// Gives the code point of a row its image of a case, unless it has one.
#[tactic(auto, using(crate::proofs::CaseLemmas::nothing_more))]
fn put_row_image(
    alloc: Global,
    images: &mut BTreeMap<Point, Box<Cases>>,
    row: &RowRef<'_>,
    case: Case,
) -> Result<(), Memory>
    ensures { OnOk result ((c : ℕ)
        → cases_at images.new c
        ≡ with_image case (cases_at images.old c) (image_of_row case c (row_in row.now))) }
{
    match case.image(row) {
        Some((code, mapping)) => put_copy(alloc, images, code, case, mapping),
        None => Ok(()),
    }
}

/// Gives a code point a copy of an image, unless it has one of this case.
fn put_copy(
    alloc: Global,
    images: &mut BTreeMap<Point, Box<Cases>>,
    code: Point,
    case: Case,
    mapping: Mapping<'_>,
) -> Result<(), Memory>
    ensures { OnOk result ((c : ℕ)
        → cases_at images.new c
        ≡ with_image case (cases_at images.old c)
        (if code == c then Some mapping.entry else None)) }
{
    let image = points_of(alloc, mapping)?;
    put_image(alloc, images, code, case, image)
}

/// Copies of the points of a mapping.
///
/// - `Memory`: memory ran out.
fn points_of(alloc: Global, mapping: Mapping<'_>) -> Result<GivenPoints, Memory>
    ensures { IfOk result (λ given. given ≡ Some mapping.entry) }
{
    let points = mapping.copied(alloc)?;
    GivenPoints::of(alloc, points.as_slice())
}

/// Gives a code point an image, unless it has one of this case.
fn put_image(
    alloc: Global,
    images: &mut BTreeMap<Point, Box<Cases>>,
    code: Point,
    case: Case,
    image: GivenPoints,
) -> Result<(), Memory>
    ensures { OnOk result ((c : ℕ)
        → cases_at images.new c
        ≡ with_image case (cases_at images.old c) (if code == c then image else None)) }
{
    let mut cases = take_cases(alloc, images, code)?;
    put(&mut cases, case, image);
    set_cases(images, code, cases)?;
    Ok(())
}

/// Puts an image in the place of its case, unless there is one. The foldings of status T have no place.
fn put(cases: &mut Cases, case: Case, image: GivenPoints)
    ensures { cases.new ≡ with_image case cases.old image }
{
    match case {
        Case::Fold(FoldStatus::C) => put_points_if_none(&mut cases.common, image),
        Case::Fold(FoldStatus::F) => put_points_if_none(&mut cases.full, image),
        Case::Fold(FoldStatus::S) => put_points_if_none(&mut cases.simple, image),
        Case::Fold(FoldStatus::T) => {}
        Case::Lower => put_points_if_none(&mut cases.lower, image),
        Case::Title => put_points_if_none(&mut cases.title, image),
        Case::Upper => put_points_if_none(&mut cases.upper, image),
    }
}

/// Puts points in a place, unless some are given there.
fn put_points_if_none(place: &mut GivenPoints, points: GivenPoints)
    ensures { place.new ≡ first_some place.old points }
{
    if place.points().is_none() {
        *place = points;
    }
}

/// Takes the images of a code point out.
fn take_cases(
    alloc: Global,
    images: &mut BTreeMap<Point, Box<Cases>>,
    code: Point,
) -> Result<Box<Cases>, Memory>
    ensures taken { IfOk result (λ cases. box_value cases ≡ cases_at images.old code) }
    ensures others { (c : ℕ) → (code == c) ≡ false → cases_at images.new c ≡ cases_at images.old c }
{
    if let Some(cases) = images.remove(&code) {
        return Ok(cases);
    }
    let none = Box::new(alloc, Cases::none())?;
    Ok(none)
}

/// Gives a code point these images in place of its own.
fn set_cases(
    images: &mut BTreeMap<Point, Box<Cases>>,
    code: Point,
    cases: Box<Cases>,
) -> Result<(), Memory>
    ensures { OnOk result ((c : ℕ)
        → cases_at images.new c
        ≡ (if code == c then box_value cases else cases_at images.old c)) }
{
    images.insert(code, cases)?;
    Ok(())
}
