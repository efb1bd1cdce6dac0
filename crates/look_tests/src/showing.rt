//! Runs of `show`.

use crate::runs::{LETTERS, ends, shelf_of};
use std::alloc::Global;
use std::test::Fail;
use ucd_model::Memory;
use ucdshop_look_core::Status;

/// The record of a small letter without case mappings, and its row.
const SMALL_A: &[u8] =
    b"# 0061\nMath ; N\nAlphabetic ; Y\nLowercase ; Y\nUppercase ; N\nCased ; Y\nCase_Ignorable ; N\nChanges_When_Lowercased ; N\nChanges_When_Uppercased ; N\nChanges_When_Titlecased ; N\nChanges_When_Casefolded ; N\nChanges_When_Casemapped ; N\nID_Start ; Y\nID_Continue ; Y\nXID_Start ; Y\nXID_Continue ; Y\nDefault_Ignorable_Code_Point ; N\nGrapheme_Extend ; N\nGrapheme_Base ; Y\nGrapheme_Link ; N\nFull_Composition_Exclusion ; N\nNFD_QC ; Y\nNFC_QC ; Y\nNFKD_QC ; Y\nNFKC_QC ; Y\nNFKC_CF ; <code point>\nNFKC_SCF ; <code point>\nChanges_When_NFKC_Casefolded ; N\nGeneral_Category ; Ll\nCanonical_Combining_Class ; 0\nDecomposition_Type ; none\nUnicodeData.txt line 2: 0061;LATIN SMALL LETTER A;Ll;0;L;;;;;N;;;;;\n";

/// That of a combining mark, and its row.
const GRAVE: &[u8] =
    b"# 0300\nMath ; N\nAlphabetic ; N\nLowercase ; N\nUppercase ; N\nCased ; N\nCase_Ignorable ; Y\nChanges_When_Lowercased ; N\nChanges_When_Uppercased ; N\nChanges_When_Titlecased ; N\nChanges_When_Casefolded ; N\nChanges_When_Casemapped ; N\nID_Start ; N\nID_Continue ; Y\nXID_Start ; N\nXID_Continue ; Y\nDefault_Ignorable_Code_Point ; N\nGrapheme_Extend ; Y\nGrapheme_Base ; N\nGrapheme_Link ; N\nFull_Composition_Exclusion ; N\nNFD_QC ; Y\nNFC_QC ; Y\nNFKD_QC ; Y\nNFKC_QC ; Y\nNFKC_CF ; <code point>\nNFKC_SCF ; <code point>\nChanges_When_NFKC_Casefolded ; N\nGeneral_Category ; Mn\nCanonical_Combining_Class ; 230\nDecomposition_Type ; none\nUnicodeData.txt line 3: 0300;COMBINING GRAVE ACCENT;Mn;230;NSM;;;;;N;;;;;\n";

/// Words that name a small letter, and those that name a mark.
const SMALL_AS: [&[u8]; 3] = [b"0061", b"U+00061", b"a"];

const GRAVES: [&[u8]; 3] = [b"00300", b"U+0300", b"\xCC\x80"];

/// Whether a run tells of the code point that a word names.
///
/// - `Memory`: memory ran out.
fn is_told(alloc: Global, word: &[u8], text: &[u8]) -> Result<bool, Memory> {
    let mut shelf = shelf_of(alloc, LETTERS, b"")?;
    let words: [&[u8]; 3] = [b"show", b"d", word];
    ends(alloc, &words, &mut shelf, 2000, (Status::Clean, text))
}

#[test]
fn each_code_point_is_shown(rt: HostRuntime) -> Result<(), Fail> {
    for word in &SMALL_AS {
        assert!(rt; is_told(rt.alloc(), word, SMALL_A)?);
    }
    for word in &GRAVES {
        assert!(rt; is_told(rt.alloc(), word, GRAVE)?);
    }
    Ok(())
}
