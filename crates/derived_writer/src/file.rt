//! The text of a derived file.

ghost use Rattle.std.specs.Prelude.{◌≡◌, IfOk};
ghost use Rattle.ucd_points.specs.Limits.{point_count};
ghost use Rattle.ucd_model.specs.DerivedFiles.{derived_text};
ghost use Rattle.ucd_model.specs.Cuts.{IsCut};
ghost use Rattle.derived_writer.specs.Shown.{AreShown};

use crate::listing::file_listings;
use crate::section::put_section;
use std::alloc::Global;
use ucd_model::{DerivedFile, Memory, Record, Records, Span, Text, equal_record_spans};

/// The text of a derived file: its sections in order, each with `# NAME`, a line for each maximal span of equal value
/// other than the default, ascending, `# total N` with the number of code points listed, and an empty line.
/// UAX #44, section 5.3.
///
/// - `Memory`: memory ran out.
pub fn file_text<B: Records>(alloc: Global, bench: &B, file: DerivedFile) -> Result<Text, Memory>
    ensures { IfOk result (λ text. text ≡ derived_text point_count file (B.record_of bench.now)) }
{
    let pieces = equal_record_spans(alloc, bench)?;
    text_over(alloc, bench, pieces.as_slice(), file)
}

/// The text of a derived file, over the pieces of equal records that [`equal_record_spans`] gives: if several files are
/// written, the records are compared with one another once. UAX #44, section 5.3.
///
/// - `Memory`: memory ran out.
#[tactic(auto, unfolding(ucd_model::specs::DerivedFiles::derived_text))]
pub fn text_over<B: Records>(
    alloc: Global,
    bench: &B,
    pieces: &[Span],
    file: DerivedFile,
) -> Result<Text, Memory>
    requires { IsCut (B.record_of bench.now) 0 point_count pieces.now }
    ensures { IfOk result (λ text. text ≡ derived_text point_count file (B.record_of bench.now)) }
{
    let records = records_of(alloc, bench, pieces)?;
    let mut text = Text::new(alloc);
    'sections: for listing in file_listings(file) {
        put_section(alloc, bench, pieces, &records, *listing, &mut text)?;
    }
    Ok(text)
}

/// The record of the first code point of each piece: each is looked up once for all sections.
///
/// - `Memory`: memory ran out.
fn records_of<'a, B: Records>(
    alloc: Global,
    bench: &'a B,
    pieces: &[Span],
) -> Result<Vec<&'a Record>, Memory>
    ensures { IfOk result (λ records. AreShown (B.record_of bench.now) pieces.now records.items) }
{
    let mut records = Vec::new(alloc);
    'pieces: for piece in pieces {
        records.push(bench.record(piece.lo))?;
    }
    Ok(records)
}
