//! Telling the records of code points.

ghost use Rattle.std.specs.Prelude.{◌≡◌, ◌++◌, map, IfOk, OnOk, option_to_list};
ghost use Rattle.std.specs.List.{flat_map};
ghost use Rattle.record_lines.specs.declared.point_text.PointText.{PointText as Told};
ghost use Rattle.run_endings.specs.Planning.{HasPlan};
ghost use Rattle.ucdshop_look_core.specs.Points.{named_point, points_in};
ghost use Rattle.ucdshop_look_core.specs.Shown.{record_told, show_ending};

use crate::points::named_point;
use edit_session::Bench;
use record_lines::{PointText, put_record, put_rows};
use run_endings::Plan;
use std::alloc::Global;
use ucd_model::{Memory, Point, Records, Text};

/// What `show` tells of the code points that these words name, in the release of a bench. One pass over the rows serves all of them.
///
/// - `Memory`: memory ran out.
pub fn shown_plan(alloc: Global, bench: &Bench, words: &[Text]) -> Result<Plan, Memory>
    ensures { IfOk result (HasPlan (show_ending (points_in words.now) bench.now.current)) }
{
    let mut told = records_told(alloc, bench, words)?;
    put_rows(alloc, bench.release(), told.as_mut_slice())?;
    let summary = joined_texts(alloc, told)?;
    Ok(Plan {
        outputs: Vec::new(alloc),
        summary,
        done: false,
    })
}

/// The records of the code points that words name.
///
/// - `Memory`: memory ran out.
fn records_told(alloc: Global, bench: &Bench, words: &[Text]) -> Result<Vec<PointText>, Memory>
    ensures { IfOk result (λ told. told.items
        ≡ map (record_told bench.now.current) (points_in words.now)) }
{
    let mut told = Vec::new(alloc);
    'words: for word in words {
        put_named_record(alloc, bench, word.as_slice(), &mut told)?;
    }
    Ok(told)
}

/// Puts the record of the code point that a word names, if it names one.
///
/// - `Memory`: memory ran out.
fn put_named_record(
    alloc: Global,
    bench: &Bench,
    word: &[u8],
    told: &mut Vec<PointText>,
) -> Result<(), Memory>
    ensures { OnOk result (told.new.items ≡ told.old.items
        ++ map (record_told bench.now.current) (option_to_list (named_point word.now))) }
{
    if let Some(point) = named_point(word) {
        told.push(record_told(alloc, bench, point)?)?;
    }
    Ok(())
}

/// The record of a code point.
///
/// - `Memory`: memory ran out.
fn record_told(alloc: Global, bench: &Bench, point: Point) -> Result<PointText, Memory>
    ensures { IfOk result (λ told. told ≡ record_told bench.now.current point) }
{
    let mut text = Text::new(alloc);
    put_record(alloc, point, bench.record(point), &mut text)?;
    Ok(PointText { point, text })
}

/// All that is printed, in order. The first text becomes the whole; each other one is let go once it is put.
///
/// - `Memory`: memory ran out.
fn joined_texts(alloc: Global, told: Vec<PointText>) -> Result<Text, Memory>
    ensures { IfOk result (λ text. text ≡ flat_map (λ (one : Told). one.text) told.items) }
{
    let mut left = told.into_iter();
    let Some(first) = left.next() else {
        return Ok(Text::new(alloc));
    };
    let mut text = first.text;
    'told: for one in left {
        text.append(one.text.as_slice())?;
    }
    Ok(text)
}
