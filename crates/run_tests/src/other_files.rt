//! The derived files beside that of core properties.

use crate::runs::{GRAVE, shelf_of, status_of};
use shelf_io::MemoryShelf;
use std::alloc::Global;
use std::test::Fail;
use ucd_model::Memory;
use ucdshop_core::Status;

/// The other derived files of a shelf after `derive d o`, in their order.
pub const OTHER_PATHS: [&[u8]; 4] = [
    b"o/DerivedNormalizationProps.txt",
    b"o/extracted/DerivedGeneralCategory.txt",
    b"o/extracted/DerivedCombiningClass.txt",
    b"o/extracted/DerivedDecompositionType.txt",
];

const MARKS: &[u8] =
    b"0020;SPACE;Zs;0;WS;;;;;N;;;;;\n0041;LATIN CAPITAL LETTER A;Lu;0;L;;;;;N;;;;;\n00A0;NO-BREAK SPACE;Zs;0;CS;<noBreak> 0020;;;;N;NON-BREAKING SPACE;;;;\n00C0;LATIN CAPITAL LETTER A WITH GRAVE;Lu;0;L;0041 0300;;;;N;LATIN CAPITAL LETTER A GRAVE;;;;\n0300;COMBINING GRAVE ACCENT;Mn;230;NSM;;;;;N;NON-SPACING GRAVE;;;;\n0301;COMBINING ACUTE ACCENT;Mn;230;NSM;;;;;N;NON-SPACING ACUTE;;;;\n1100;<L, First>;Lo;0;L;;;;;N;;;;;\n1112;<L, Last>;Lo;0;L;;;;;N;;;;;\n1161;<V, First>;Lo;0;L;;;;;N;;;;;\n1175;<V, Last>;Lo;0;L;;;;;N;;;;;\n11A8;<T, First>;Lo;0;L;;;;;N;;;;;\n11C2;<T, Last>;Lo;0;L;;;;;N;;;;;\nAC00;<Hangul Syllable, First>;Lo;0;L;;;;;N;;;;;\nD7A3;<Hangul Syllable, Last>;Lo;0;L;;;;;N;;;;;\n";

const MARKS_TEXTS: [&[u8]; 4] = [
    b"# Full_Composition_Exclusion\n# total 0\n\n# NFD_QC\n00C0 ; NFD_QC ; N\nAC00..D7A3 ; NFD_QC ; N\n# total 11173\n\n# NFC_QC\n0300 ; NFC_QC ; M\n1161..1175 ; NFC_QC ; M\n11A8..11C2 ; NFC_QC ; M\n# total 49\n\n# NFKD_QC\n00A0 ; NFKD_QC ; N\n00C0 ; NFKD_QC ; N\nAC00..D7A3 ; NFKD_QC ; N\n# total 11174\n\n# NFKC_QC\n00A0 ; NFKC_QC ; N\n0300 ; NFKC_QC ; M\n1161..1175 ; NFKC_QC ; M\n11A8..11C2 ; NFKC_QC ; M\n# total 50\n\n# NFKC_CF\n00A0 ; NFKC_CF ; 0020\n# total 1\n\n# NFKC_SCF\n00A0 ; NFKC_SCF ; 0020\n# total 1\n\n# Changes_When_NFKC_Casefolded\n00A0 ; Changes_When_NFKC_Casefolded\n# total 1\n\n",
    b"# General_Category\n0020 ; Zs\n0041 ; Lu\n00A0 ; Zs\n00C0 ; Lu\n0300..0301 ; Mn\n1100..1112 ; Lo\n1161..1175 ; Lo\n11A8..11C2 ; Lo\nAC00..D7A3 ; Lo\n# total 11245\n\n",
    b"# Canonical_Combining_Class\n0300..0301 ; 230\n# total 2\n\n",
    b"# Decomposition_Type\n00A0 ; noBreak\n00C0 ; canonical\nAC00..D7A3 ; canonical\n# total 11174\n\n",
];

const EMPTY_TEXTS: [&[u8]; 4] = [
    b"# Full_Composition_Exclusion\n# total 0\n\n# NFD_QC\n# total 0\n\n# NFC_QC\n# total 0\n\n# NFKD_QC\n# total 0\n\n# NFKC_QC\n# total 0\n\n# NFKC_CF\n# total 0\n\n# NFKC_SCF\n# total 0\n\n# Changes_When_NFKC_Casefolded\n# total 0\n\n",
    b"# General_Category\n# total 0\n\n",
    b"# Canonical_Combining_Class\n# total 0\n\n",
    b"# Decomposition_Type\n# total 0\n\n",
];

/// The consonants, vowels and endings that compose, and the syllables.
const HANGUL: &[u8] =
    b"1100;<L, First>;Lo;0;L;;;;;N;;;;;\n1112;<L, Last>;Lo;0;L;;;;;N;;;;;\n1161;<V, First>;Lo;0;L;;;;;N;;;;;\n1175;<V, Last>;Lo;0;L;;;;;N;;;;;\n11A8;<T, First>;Lo;0;L;;;;;N;;;;;\n11C2;<T, Last>;Lo;0;L;;;;;N;;;;;\nAC00;<Hangul Syllable, First>;Lo;0;L;;;;;N;;;;;\nD7A3;<Hangul Syllable, Last>;Lo;0;L;;;;;N;;;;;\n";

const HANGUL_TEXTS: [&[u8]; 4] = [
    b"# Full_Composition_Exclusion\n# total 0\n\n# NFD_QC\nAC00..D7A3 ; NFD_QC ; N\n# total 11172\n\n# NFC_QC\n1161..1175 ; NFC_QC ; M\n11A8..11C2 ; NFC_QC ; M\n# total 48\n\n# NFKD_QC\nAC00..D7A3 ; NFKD_QC ; N\n# total 11172\n\n# NFKC_QC\n1161..1175 ; NFKC_QC ; M\n11A8..11C2 ; NFKC_QC ; M\n# total 48\n\n# NFKC_CF\n# total 0\n\n# NFKC_SCF\n# total 0\n\n# Changes_When_NFKC_Casefolded\n# total 0\n\n",
    b"# General_Category\n1100..1112 ; Lo\n1161..1175 ; Lo\n11A8..11C2 ; Lo\nAC00..D7A3 ; Lo\n# total 11239\n\n",
    b"# Canonical_Combining_Class\n# total 0\n\n",
    b"# Decomposition_Type\nAC00..D7A3 ; canonical\n# total 11172\n\n",
];

const GRAVE_TEXTS: [&[u8]; 4] = [
    b"# Full_Composition_Exclusion\n# total 0\n\n# NFD_QC\n00C0 ; NFD_QC ; N\n# total 1\n\n# NFC_QC\n0300 ; NFC_QC ; M\n# total 1\n\n# NFKD_QC\n00C0 ; NFKD_QC ; N\n# total 1\n\n# NFKC_QC\n0300 ; NFKC_QC ; M\n# total 1\n\n# NFKC_CF\n# total 0\n\n# NFKC_SCF\n# total 0\n\n# Changes_When_NFKC_Casefolded\n# total 0\n\n",
    b"# General_Category\n0041 ; Lu\n00C0 ; Lu\n0300 ; Mn\n# total 3\n\n",
    b"# Canonical_Combining_Class\n0300 ; 230\n# total 1\n\n",
    b"# Decomposition_Type\n00C0 ; canonical\n# total 1\n\n",
];

/// UnicodeData.txt of a release without other rows, and its other derived files.
const CASES: [(&[u8], [&[u8]; 4]); 4] = [
    (MARKS, MARKS_TEXTS),
    (HANGUL, HANGUL_TEXTS),
    (GRAVE, GRAVE_TEXTS),
    (b"", EMPTY_TEXTS),
];

/// Whether the other derived files of a shelf are these.
fn holds_texts(shelf: &MemoryShelf, texts: &[&[u8]; 4]) -> bool {
    for at in 0..4 {
        if shelf.held(OTHER_PATHS[at]) != Some(texts[at]) {
            return false;
        }
    }
    true
}

/// Whether `derive d o` over a release ends with status 0 and leaves these files.
fn derives_texts(alloc: Global, data: &[u8], texts: &[&[u8]; 4]) -> Result<bool, Memory> {
    let mut shelf = shelf_of(alloc, data, b"")?;
    let status = status_of(alloc, &[b"derive", b"d", b"o"], &mut shelf)?;
    Ok(status == Status::Clean && holds_texts(&shelf, texts))
}

#[test]
fn other_files_are_derived(rt: HostRuntime) -> Result<(), Fail> {
    for (data, texts) in &CASES {
        assert!(rt; derives_texts(rt.alloc(), *data, texts)?);
    }
    Ok(())
}
