//! Whole files over a few records. The lines are those of Unicode 15.0.0 for these code points, but for their totals
//! and for points that the sample leaves out.

ghost use Rattle.ucd_points.specs.Limits.{point_count};
ghost use Rattle.ucd_model.specs.Cuts.{IsCut};

use crate::sample::Sample;
use crate::sample_text::{Forms, Mapped, Marks, Normal, has_text, put_mapped, put_marks};
use derived_writer::text_over;
use std::alloc::Global;
use ucd_model::{Category, DerivedFile, Kind, Memory, Records, Span, Tag, equal_record_spans};

/// The normalisation properties of `A` and `B`, of DIAERESIS and SOFT HYPHEN, of five combining marks, of two that are
/// excluded from composition, and of the spaces from EN QUAD to HAIR SPACE; a sample of no other point.
const NORMALIZATION_TEXT: &[u8] =
    b"# Full_Composition_Exclusion\n0340..0341 ; Full_Composition_Exclusion\n2000..2001 ; Full_Composition_Exclusion\n# total 4\n\n\
      # NFD_QC\n0340..0341 ; NFD_QC ; N\n2000..2001 ; NFD_QC ; N\n# total 4\n\n\
      # NFC_QC\n0300..0304 ; NFC_QC ; M\n0340..0341 ; NFC_QC ; N\n2000..2001 ; NFC_QC ; N\n# total 9\n\n\
      # NFKD_QC\n00A8 ; NFKD_QC ; N\n0340..0341 ; NFKD_QC ; N\n2000..200A ; NFKD_QC ; N\n# total 14\n\n\
      # NFKC_QC\n00A8 ; NFKC_QC ; N\n0300..0304 ; NFKC_QC ; M\n0340..0341 ; NFKC_QC ; N\n2000..200A ; NFKC_QC ; N\n# total 19\n\n\
      # NFKC_CF\n0041 ; NFKC_CF ; 0061\n0042 ; NFKC_CF ; 0062\n00A8 ; NFKC_CF ; 0020 0308\n00AD ; NFKC_CF ;\n0340 ; NFKC_CF ; 0300\n0341 ; NFKC_CF ; 0301\n2000..200A ; NFKC_CF ; 0020\n# total 17\n\n\
      # NFKC_SCF\n0041 ; NFKC_SCF ; 0061\n0042 ; NFKC_SCF ; 0062\n00A8 ; NFKC_SCF ; 0020 0308\n00AD ; NFKC_SCF ;\n0340 ; NFKC_SCF ; 0300\n0341 ; NFKC_SCF ; 0301\n2000..200A ; NFKC_SCF ; 0020\n# total 17\n\n\
      # Changes_When_NFKC_Casefolded\n0041..0042 ; Changes_When_NFKC_Casefolded\n00A8 ; Changes_When_NFKC_Casefolded\n00AD ; Changes_When_NFKC_Casefolded\n0340..0341 ; Changes_When_NFKC_Casefolded\n2000..200A ; Changes_When_NFKC_Casefolded\n# total 17\n\n";

/// Neighbours with different mappings are two spans, and with one mapping one span, though the records differ.
const NORMAL: [Normal; 9] = [
    (0x0041, 0x0041, Category::Lu, Some(&[0x0061]), Forms::All),
    (0x0042, 0x0042, Category::Lu, Some(&[0x0062]), Forms::All),
    (
        0x00A8,
        0x00A8,
        Category::Sk,
        Some(&[0x0020, 0x0308]),
        Forms::Canonical,
    ),
    (0x00AD, 0x00AD, Category::Cf, Some(&[]), Forms::All),
    (0x0300, 0x0304, Category::Mn, None, Forms::Mark),
    (
        0x0340,
        0x0340,
        Category::Mn,
        Some(&[0x0300]),
        Forms::Excluded,
    ),
    (
        0x0341,
        0x0341,
        Category::Mn,
        Some(&[0x0301]),
        Forms::Excluded,
    ),
    (
        0x2000,
        0x2001,
        Category::Zs,
        Some(&[0x0020]),
        Forms::Excluded,
    ),
    (
        0x2002,
        0x200A,
        Category::Zs,
        Some(&[0x0020]),
        Forms::Canonical,
    ),
];

fn normalization_is_written(alloc: Global) -> bool {
    has_text(
        alloc,
        &NORMAL,
        DerivedFile::NormalizationProps,
        NORMALIZATION_TEXT,
    )
}

#[test]
fn all_normalization_properties(rt: HostRuntime) {
    assert!(rt; normalization_is_written(rt.alloc()));
}

/// Files with their texts, over a few spans and marks. Records of one category that follow one another are one span.
const OVER_PIECES: [(DerivedFile, &[u8]); 3] = [
    (
        DerivedFile::CombiningClass,
        b"# Canonical_Combining_Class\n0300..0314 ; 230\n0315 ; 232\n0316..0319 ; 220\n0334..0338 ; 1\n10A0D ; 220\n# total 32\n\n",
    ),
    (
        DerivedFile::DecompositionType,
        b"# Decomposition_Type\n00A0 ; noBreak\n00C0..00C5 ; canonical\nAC00..D7A3 ; canonical\nFF10..FF19 ; wide\nFF66..FF6F ; narrow\n# total 11199\n\n",
    ),
    (
        DerivedFile::GeneralCategory,
        b"# General_Category\n0041..005A ; Lu\n00A0 ; Zs\n00C0..00C5 ; Lu\n0300..0319 ; Mn\n0334..0338 ; Mn\n\
          AC00..D7A3 ; Lo\nFF10..FF19 ; Nd\nFF66..FF6F ; Lo\n10A0D ; Mn\n# total 11257\n\n",
    ),
];

const MAPPED: [Mapped; 6] = [
    (0x0041, 0x005A, Category::Lu, Kind::Plain),
    (0x00A0, 0x00A0, Category::Zs, Kind::Compat(Tag::NoBreak)),
    (0x00C0, 0x00C5, Category::Lu, Kind::Canonical),
    (0xAC00, 0xD7A3, Category::Lo, Kind::Canonical),
    (0xFF10, 0xFF19, Category::Nd, Kind::Compat(Tag::Wide)),
    (0xFF66, 0xFF6F, Category::Lo, Kind::Compat(Tag::Narrow)),
];

const MARKS: [Marks; 5] = [
    (0x0300, 0x0314, 230),
    (0x0315, 0x0315, 232),
    (0x0316, 0x0319, 220),
    (0x0334, 0x0338, 1),
    (0x10A0D, 0x10A0D, 220),
];

fn put_spans(bench: &mut Sample) -> Result<(), Memory> {
    put_mapped(bench, &MAPPED)?;
    put_marks(bench, &MARKS)
}

fn sample(alloc: Global) -> Result<Sample, Memory> {
    let mut bench = Sample::new(alloc);
    put_spans(&mut bench)?;
    Ok(bench)
}

fn pieces_are_written(alloc: Global) -> bool {
    match sample(alloc) {
        Ok(bench) => are_over_pieces(alloc, &bench),
        Err(Memory) => false,
    }
}

fn are_over_pieces<B: Records>(alloc: Global, bench: &B) -> bool {
    match equal_record_spans(alloc, bench) {
        Ok(pieces) => are_over(alloc, bench, pieces.as_slice()),
        Err(Memory) => false,
    }
}

fn are_over<B: Records>(alloc: Global, bench: &B, pieces: &[Span]) -> bool
    requires { IsCut (B.record_of bench.now) 0 point_count pieces.now }
{
    for (file, wanted) in &OVER_PIECES {
        if !is_over(alloc, bench, pieces, *file, wanted) {
            return false;
        }
    }
    true
}

fn is_over<B: Records>(
    alloc: Global,
    bench: &B,
    pieces: &[Span],
    file: DerivedFile,
    wanted: &[u8],
) -> bool
    requires { IsCut (B.record_of bench.now) 0 point_count pieces.now }
{
    match text_over(alloc, bench, pieces, file) {
        Ok(text) => text.as_slice() == wanted,
        Err(Memory) => false,
    }
}

#[test]
fn files_over_the_same_pieces(rt: HostRuntime) {
    assert!(rt; pieces_are_written(rt.alloc()));
}
