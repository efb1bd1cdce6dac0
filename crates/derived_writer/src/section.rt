//! The text of a section.

ghost use Rattle.std.specs.Prelude.{◌≡◌, ◌++◌, OnOk};
ghost use Rattle.ucd_points.specs.Limits.{point_count};
ghost use Rattle.ucd_model.specs.DerivedFiles.{section_of};
ghost use Rattle.ucd_model.specs.Cuts.{IsCut};
ghost use Rattle.derived_writer.specs.Listings.{listing_section};
ghost use Rattle.derived_writer.specs.Shown.{AreShown};

use crate::listing::Listing;
use label_runs::{LabelText, OpenSection};
use std::alloc::Global;
use ucd_model::{Memory, Record, Records, Span, Text};

/// Puts a section at the end of a text: `# NAME`, a line for each maximal span of one value, `# total N` with the
/// number of code points listed, and an empty line. The records are those of the pieces of the bench. A label is made once for
/// pieces of equal value that follow one another.
///
/// - `Memory`: memory ran out. A part of the section may then stand at the end of the text.
pub fn put_section<B: Records>(
    alloc: Global,
    bench: &B,
    pieces: &[Span],
    records: &[&Record],
    listing: Listing,
    text: &mut Text,
) -> Result<(), Memory>
    requires cut { IsCut (B.record_of bench.now) 0 point_count pieces.now }
    requires records { AreShown (B.record_of bench.now) pieces.now records.now }
    ensures { OnOk result (text.new ≡ text.old
        ++ section_of point_count (B.record_of bench.now) (listing_section listing)) }
{
    let mut section = OpenSection::begin(alloc, listing.name(), text)?;
    let mut label = LabelText::none(alloc);
    let mut at = 0;
    'runs: while at < pieces.len() {
        let end = listing.end_of_same(records, at);
        listing.set_label(alloc, records[at], &mut label)?;
        section.go_on(&mut label, pieces[end - 1].last() + 1, text)?;
        at = end;
    }
    section.end(alloc, text)
}
