//! Texts of keys: what they stand for, and for each rule a text that breaks it first.

use source_rows::*;
use std::alloc::Global;
use ucd_facts::{Point, SourceFile, Text};

/// Whether a text is a key with this code point and these names.
pub fn is_key(
    alloc: Global,
    file: SourceFile,
    text: &[u8],
    code: Option<u32>,
    names: &[&[u8]],
) -> bool {
    match read_key(alloc, file, text) {
        Ok(key) => has_code(key.code, code) && are_names(key.names.as_slice(), names),
        Err(_) => false,
    }
}

fn has_code(found: Option<Point>, code: Option<u32>) -> bool {
    found.map(|c| c.number()) == code
}

fn are_names(found: &[Text], names: &[&[u8]]) -> bool {
    found.len() == names.len()
        && found
            .iter()
            .zip(names)
            .all(|(name, expected)| name.as_slice() == *expected)
}

/// The rule that a text breaks.
pub fn key_fault(alloc: Global, file: SourceFile, text: &[u8]) -> Option<RowFault> {
    match read_key(alloc, file, text) {
        Err(RowStop::Fault(fault)) => Some(fault),
        _ => None,
    }
}

/// Texts of keys, and the code point and the names of each.
const KEYS: [(SourceFile, &[u8], Option<u32>, &[&[u8]]); 11] = [
    (SourceFile::UnicodeData, b"0041", Some(0x41), &[]),
    (
        SourceFile::PropList,
        b"0020 ; White_Space",
        Some(0x20),
        &[b"White_Space"],
    ),
    (SourceFile::Scripts, b" 10FFFF\t", Some(0x10FFFF), &[]),
    (
        SourceFile::WordBreakProperty,
        b"0022 # Double_Quote",
        Some(0x22),
        &[],
    ),
    (SourceFile::CompositionExclusions, b"0958", Some(0x958), &[]),
    (SourceFile::CaseFolding, b"1E9E; F", Some(0x1E9E), &[b"F"]),
    (SourceFile::SpecialCasing, b"00DF", Some(0xDF), &[]),
    (
        SourceFile::SpecialCasing,
        b"03A3;  tr\tFinal_Sigma ",
        Some(0x3A3),
        &[b"tr Final_Sigma"],
    ),
    (SourceFile::SpecialCasing, b"00DF;", Some(0xDF), &[]),
    (
        SourceFile::PropertyAliases,
        b"gc ; General_Category",
        None,
        &[b"gc", b"General_Category"],
    ),
    (
        SourceFile::PropertyValueAliases,
        b"ccc; 0; NR",
        None,
        &[b"ccc", b"0", b"NR"],
    ),
];

#[test]
fn keys_of_each_file(rt: HostRuntime) {
    for (file, text, code, names) in &KEYS {
        assert!(rt; is_key(rt.alloc(), *file, text, *code, names), "{text:?}");
    }
}

/// Texts that are no keys, and the fault of each.
const FAULTS: [(SourceFile, &[u8], RowFault); 14] = [
    (SourceFile::UnicodeData, b"0041\n", RowFault::G03),
    (SourceFile::UnicodeData, b"0041;", RowFault::G03),
    (SourceFile::UnicodeData, b"0041 # A", RowFault::G04),
    (SourceFile::Scripts, b"0041..005A", RowFault::G04),
    (SourceFile::PropList, b"0020", RowFault::G03),
    (SourceFile::PropList, b"20 ;", RowFault::G04),
    (SourceFile::PropList, b"0020 ; ", RowFault::G11),
    (SourceFile::CaseFolding, b"0041", RowFault::G03),
    (SourceFile::CaseFolding, b"0041; c", RowFault::G08),
    (SourceFile::SpecialCasing, b"00DF; a; b", RowFault::G03),
    (SourceFile::SpecialCasing, b"00DF; \x7f", RowFault::G11),
    (
        SourceFile::PropertyAliases,
        b"gc; General_Category; x",
        RowFault::G03,
    ),
    (
        SourceFile::PropertyAliases,
        b"; General_Category",
        RowFault::G11,
    ),
    (SourceFile::PropertyValueAliases, b"ccc; 0", RowFault::G03),
];

#[test]
fn texts_that_are_no_keys(rt: HostRuntime) {
    for (file, text, fault) in &FAULTS {
        assert!(rt;
            key_fault(rt.alloc(), *file, text) == Some(*fault),
            "{text:?}"
        );
    }
}
