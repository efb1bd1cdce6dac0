//! Lists ages: the section of DerivedAge.txt, and its total.

ghost use Rattle.std.specs.Prelude.{◌≡◌, ◌++◌, codes, OnOk};
ghost use Rattle.range_table.specs.RunTable.{values_now};
ghost use Rattle.ucd_points.specs.Limits.{point_count};
ghost use Rattle.ucd_model.specs.DerivedText.{section_text};
ghost use Rattle.ucd_model.specs.Labels.{labelled};
ghost use Rattle.age_chain.specs.Ages.{age_label, age_of, ages_of};

use label_runs::{LabelText, OpenSection};
use point_stretches::{count_passing, stretches_by};
use range_table::{RunTable, Table};
use std::alloc::Global;
use ucd_model::{Memory, Text};

/// Puts the section `Age`: a line for each maximal span of one age. Code points without an age are not listed.
/// UAX #44, section 5.14.
///
/// - `Memory`: memory ran out. A part of the section may then stand at the end of the text.
pub fn put_ages(alloc: Global, ages: &RunTable<u8>, text: &mut Text) -> Result<(), Memory>
    ensures { OnOk result (text.new ≡ text.old
        ++ section_text (codes "Age") point_count
        (λ c. age_label (ages_of (values_now ages.now) c))) }
{
    let mut section = OpenSection::begin(alloc, b"Age", text)?;
    let mut label = LabelText::none(alloc);
    'runs: for span in stretches_by(|c| ages.last_of_run(c)) {
        set_age(alloc, ages.get(span.lo), &mut label)?;
        section.go_on(&mut label, span.last() + 1, text)?;
    }
    section.end(alloc, text)
}

/// The number of code points that have an age.
pub fn count_aged(ages: &RunTable<u8>) -> u32
    ensures { result ≡ labelled point_count (λ c. age_label (ages_of (values_now ages.now) c)) }
{
    count_passing(|c| ages.last_of_run(c), |c| ages.get(c) != 0)
}

/// Makes it the label of an age, which is listed in decimal; 0 stands for none.
///
/// - `Memory`: memory ran out. Nothing is then known of the label.
fn set_age(alloc: Global, age: u8, label: &mut LabelText) -> Result<(), Memory>
    ensures { OnOk result (label.new ≡ age_label (age_of age)) }
{
    if age == 0 {
        label.clear();
        return Ok(());
    }
    let digits = age.to_string(alloc)?;
    label.set_value(digits.as_bytes())
}
