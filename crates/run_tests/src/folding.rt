//! Releases with case mappings and foldings.

use crate::runs::{CORE_PATH, LETTERS, ends, shelf_of, status_of};
use shelf_io::MemoryShelf;
use std::alloc::Global;
use std::test::Fail;
use ucd_model::Memory;
use ucdshop_core::Status;

const NORMALIZATION_PATH: &[u8] = b"o/DerivedNormalizationProps.txt";

/// Three letters with the lines that the files of the database have for them.
const SHARP: &[u8] =
    b"0053;LATIN CAPITAL LETTER S;Lu;0;L;;;;;N;;;;0073;\n0073;LATIN SMALL LETTER S;Ll;0;L;;;;;N;;;0053;;0053\n00DF;LATIN SMALL LETTER SHARP S;Ll;0;L;;;;;N;;;;;\n";

const SHARP_FOLDINGS: &[u8] = b"0053; C; 0073; # S\n00DF; F; 0073 0073; # SHARP S\n";

const SHARP_CASINGS: &[u8] =
    b"00DF; 00DF; 0053 0073; 0053 0053; # SHARP S\n0073; 0053; 0053; 0053; Final_Sigma; # under a condition\n";

/// The capital and the small sharp s, and the letter of their full folding.
const CAPITAL_SHARP: &[u8] =
    b"0073;LATIN SMALL LETTER S;Ll;0;L;;;;;N;;;;;\n00DF;LATIN SMALL LETTER SHARP S;Ll;0;L;;;;;N;;;;;\n1E9E;LATIN CAPITAL LETTER SHARP S;Lu;0;L;;;;;N;;;;;\n";

const CAPITAL_SHARP_FOLDINGS: &[u8] = b"1E9E; F; 0073 0073\n1E9E; S; 00DF\n";

const TWO: &[u8] = b"0061;A;Ll;0;L;;;;;N;;;;;\n0062;B;Ll;0;L;;;;;N;;;;;\n";

const WIDE: &[u8] = b"0061;A;Ll;0;L;;;;;N;;;;;\nFF41;W;Ll;0;L;<wide> 0061;;;;N;;;;;\n";

const FOLDED_CORE: &[u8] =
    b"# Math\n# total 0\n\n# Alphabetic\n0041 ; Alphabetic\n0061 ; Alphabetic\n# total 2\n\n# Lowercase\n0061 ; Lowercase\n# total 1\n\n# Uppercase\n0041 ; Uppercase\n# total 1\n\n# Cased\n0041 ; Cased\n0061 ; Cased\n# total 2\n\n# Case_Ignorable\n# total 0\n\n# Changes_When_Lowercased\n0041 ; Changes_When_Lowercased\n# total 1\n\n# Changes_When_Uppercased\n0061 ; Changes_When_Uppercased\n# total 1\n\n# Changes_When_Titlecased\n0061 ; Changes_When_Titlecased\n# total 1\n\n# Changes_When_Casefolded\n0041 ; Changes_When_Casefolded\n# total 1\n\n# Changes_When_Casemapped\n0041 ; Changes_When_Casemapped\n0061 ; Changes_When_Casemapped\n# total 2\n\n# ID_Start\n0041 ; ID_Start\n0061 ; ID_Start\n# total 2\n\n# ID_Continue\n0041 ; ID_Continue\n0061 ; ID_Continue\n# total 2\n\n# XID_Start\n0041 ; XID_Start\n0061 ; XID_Start\n# total 2\n\n# XID_Continue\n0041 ; XID_Continue\n0061 ; XID_Continue\n# total 2\n\n# Default_Ignorable_Code_Point\n# total 0\n\n# Grapheme_Extend\n# total 0\n\n# Grapheme_Base\n0041 ; Grapheme_Base\n0061 ; Grapheme_Base\n# total 2\n\n# Grapheme_Link\n# total 0\n\n";

const FOLDED_NORMALIZATION: &[u8] =
    b"# Full_Composition_Exclusion\n# total 0\n\n# NFD_QC\n# total 0\n\n# NFC_QC\n# total 0\n\n# NFKD_QC\n# total 0\n\n# NFKC_QC\n# total 0\n\n# NFKC_CF\n0041 ; NFKC_CF ; 0061\n# total 1\n\n# NFKC_SCF\n0041 ; NFKC_SCF ; 0061\n# total 1\n\n# Changes_When_NFKC_Casefolded\n0041 ; Changes_When_NFKC_Casefolded\n# total 1\n\n";

const SHARP_CORE: &[u8] =
    b"# Math\n# total 0\n\n# Alphabetic\n0053 ; Alphabetic\n0073 ; Alphabetic\n00DF ; Alphabetic\n# total 3\n\n# Lowercase\n0073 ; Lowercase\n00DF ; Lowercase\n# total 2\n\n# Uppercase\n0053 ; Uppercase\n# total 1\n\n# Cased\n0053 ; Cased\n0073 ; Cased\n00DF ; Cased\n# total 3\n\n# Case_Ignorable\n# total 0\n\n# Changes_When_Lowercased\n0053 ; Changes_When_Lowercased\n# total 1\n\n# Changes_When_Uppercased\n0073 ; Changes_When_Uppercased\n00DF ; Changes_When_Uppercased\n# total 2\n\n# Changes_When_Titlecased\n0073 ; Changes_When_Titlecased\n00DF ; Changes_When_Titlecased\n# total 2\n\n# Changes_When_Casefolded\n0053 ; Changes_When_Casefolded\n00DF ; Changes_When_Casefolded\n# total 2\n\n# Changes_When_Casemapped\n0053 ; Changes_When_Casemapped\n0073 ; Changes_When_Casemapped\n00DF ; Changes_When_Casemapped\n# total 3\n\n# ID_Start\n0053 ; ID_Start\n0073 ; ID_Start\n00DF ; ID_Start\n# total 3\n\n# ID_Continue\n0053 ; ID_Continue\n0073 ; ID_Continue\n00DF ; ID_Continue\n# total 3\n\n# XID_Start\n0053 ; XID_Start\n0073 ; XID_Start\n00DF ; XID_Start\n# total 3\n\n# XID_Continue\n0053 ; XID_Continue\n0073 ; XID_Continue\n00DF ; XID_Continue\n# total 3\n\n# Default_Ignorable_Code_Point\n# total 0\n\n# Grapheme_Extend\n# total 0\n\n# Grapheme_Base\n0053 ; Grapheme_Base\n0073 ; Grapheme_Base\n00DF ; Grapheme_Base\n# total 3\n\n# Grapheme_Link\n# total 0\n\n";

const SHARP_NORMALIZATION: &[u8] =
    b"# Full_Composition_Exclusion\n# total 0\n\n# NFD_QC\n# total 0\n\n# NFC_QC\n# total 0\n\n# NFKD_QC\n# total 0\n\n# NFKC_QC\n# total 0\n\n# NFKC_CF\n0053 ; NFKC_CF ; 0073\n00DF ; NFKC_CF ; 0073 0073\n# total 2\n\n# NFKC_SCF\n0053 ; NFKC_SCF ; 0073\n# total 1\n\n# Changes_When_NFKC_Casefolded\n0053 ; Changes_When_NFKC_Casefolded\n00DF ; Changes_When_NFKC_Casefolded\n# total 2\n\n";

const CAPITAL_SHARP_NORMALIZATION: &[u8] =
    b"# Full_Composition_Exclusion\n# total 0\n\n# NFD_QC\n# total 0\n\n# NFC_QC\n# total 0\n\n# NFKD_QC\n# total 0\n\n# NFKC_QC\n# total 0\n\n# NFKC_CF\n1E9E ; NFKC_CF ; 0073 0073\n# total 1\n\n# NFKC_SCF\n1E9E ; NFKC_SCF ; 00DF\n# total 1\n\n# Changes_When_NFKC_Casefolded\n1E9E ; Changes_When_NFKC_Casefolded\n# total 1\n\n";

const WIDE_NORMALIZATION: &[u8] =
    b"# Full_Composition_Exclusion\n# total 0\n\n# NFD_QC\n# total 0\n\n# NFC_QC\n# total 0\n\n# NFKD_QC\nFF41 ; NFKD_QC ; N\n# total 1\n\n# NFKC_QC\nFF41 ; NFKC_QC ; N\n# total 1\n\n# NFKC_CF\nFF41 ; NFKC_CF ; 0061\n# total 1\n\n# NFKC_SCF\nFF41 ; NFKC_SCF ; 0061\n# total 1\n\n# Changes_When_NFKC_Casefolded\nFF41 ; Changes_When_NFKC_Casefolded\n# total 1\n\n";

/// The source files that a release has lines in, and a derived file of it.
#[derive(Clone, Copy)]
struct Case {
    data: &'static [u8],
    foldings: &'static [u8],
    casings: &'static [u8],
    path: &'static [u8],
    text: &'static [u8],
}

const CASES: [Case; 6] = [
    Case {
        data: LETTERS,
        foldings: b"0041; C; 0061; # A\n",
        casings: b"",
        path: CORE_PATH,
        text: FOLDED_CORE,
    },
    Case {
        data: LETTERS,
        foldings: b"0041; C; 0061; # A\n",
        casings: b"",
        path: NORMALIZATION_PATH,
        text: FOLDED_NORMALIZATION,
    },
    Case {
        data: SHARP,
        foldings: SHARP_FOLDINGS,
        casings: SHARP_CASINGS,
        path: CORE_PATH,
        text: SHARP_CORE,
    },
    Case {
        data: SHARP,
        foldings: SHARP_FOLDINGS,
        casings: SHARP_CASINGS,
        path: NORMALIZATION_PATH,
        text: SHARP_NORMALIZATION,
    },
    // each folding has its own list
    Case {
        data: CAPITAL_SHARP,
        foldings: CAPITAL_SHARP_FOLDINGS,
        casings: b"",
        path: NORMALIZATION_PATH,
        text: CAPITAL_SHARP_NORMALIZATION,
    },
    // each round ends by Normalisation Form KC
    Case {
        data: WIDE,
        foldings: b"0061; C; FF41\n",
        casings: b"",
        path: NORMALIZATION_PATH,
        text: WIDE_NORMALIZATION,
    },
];

/// Whether `derive d o` over a release ends with status 0 and leaves this text at this path.
fn derives_file(alloc: Global, case: &Case) -> Result<bool, Memory> {
    let mut shelf = shelf_of(alloc, case.data, b"")?;
    derives_over(alloc, &mut shelf, case)
}

fn derives_over(alloc: Global, shelf: &mut MemoryShelf, case: &Case) -> Result<bool, Memory> {
    shelf.place(b"d/CaseFolding.txt", case.foldings)?;
    shelf.place(b"d/SpecialCasing.txt", case.casings)?;
    let status = status_of(alloc, &[b"derive", b"d", b"o"], shelf)?;
    Ok(status == Status::Clean && shelf.held(case.path) == Some(case.text))
}

#[test]
fn foldings_and_casings_are_derived(rt: HostRuntime) -> Result<(), Fail> {
    for case in &CASES {
        assert!(rt; derives_file(rt.alloc(), case)?);
    }
    Ok(())
}

/// Whether `derive d o` over two letters with these foldings is refused by this line.
fn refuses(alloc: Global, foldings: &[u8], line: &[u8]) -> Result<bool, Memory> {
    let mut shelf = shelf_of(alloc, TWO, b"")?;
    refuses_over(alloc, &mut shelf, foldings, line)
}

fn refuses_over(
    alloc: Global,
    shelf: &mut MemoryShelf,
    foldings: &[u8],
    line: &[u8],
) -> Result<bool, Memory> {
    shelf.place(b"d/CaseFolding.txt", foldings)?;
    let words: [&[u8]; 3] = [b"derive", b"d", b"o"];
    ends(alloc, &words, shelf, 1000, (Status::LoadRefused, line))
}

#[test]
fn foldings_without_an_end_are_refused(rt: HostRuntime) -> Result<(), Fail> {
    let line = b"refused: d point 0061 V5\n".as_slice();
    assert!(rt; refuses(rt.alloc(), b"0061; C; 0062\n0062; C; 0061\n", line)?);
    assert!(rt; refuses(rt.alloc(), b"0061; F; 0061 0061\n", line)?);
    assert!(rt; refuses(rt.alloc(), b"0061; S; 0062\n0062; S; 0061\n", line)?);
    Ok(())
}
