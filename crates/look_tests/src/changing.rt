//! Runs of `changes`.

use crate::runs::{LETTERS, ends, shelf_of};
use std::alloc::Global;
use std::test::Fail;
use ucd_model::Memory;
use ucdshop_look_core::Status;

/// The script of a run, its status, and what it tells.
#[derive(Clone, Copy)]
struct Changed {
    script: &'static [u8],
    status: Status,
    text: &'static [u8],
}

/// A composite is added, and then excluded from composition: the mark in its mapping changes twice, though no row of it does.
const COMPOSITE: Changed = Changed {
    script: b"add UnicodeData.txt 00C0;LATIN CAPITAL LETTER A WITH GRAVE;Lu;0;L;0041 0300;;;;N;;;;;\nadd CompositionExclusions.txt 00C0\n",
    status: Status::Clean,
    text: b"# line 1\n00C0\n0300\n# total 2\n00C0 ; Alphabetic ; N -> Y\n00C0 ; Uppercase ; N -> Y\n00C0 ; Cased ; N -> Y\n00C0 ; ID_Start ; N -> Y\n00C0 ; ID_Continue ; N -> Y\n00C0 ; XID_Start ; N -> Y\n00C0 ; XID_Continue ; N -> Y\n00C0 ; Grapheme_Base ; N -> Y\n00C0 ; NFD_QC ; Y -> N\n00C0 ; NFKD_QC ; Y -> N\n00C0 ; General_Category ; Cn -> Lu\n00C0 ; Decomposition_Type ; none -> canonical\n0300 ; NFC_QC ; Y -> M\n0300 ; NFKC_QC ; Y -> M\n# line 2\n00C0\n0300\n# total 2\n00C0 ; Full_Composition_Exclusion ; N -> Y\n00C0 ; NFC_QC ; Y -> N\n00C0 ; NFKC_QC ; Y -> N\n00C0 ; NFKC_CF ; <code point> -> 0041 0300\n00C0 ; NFKC_SCF ; <code point> -> 0041 0300\n00C0 ; Changes_When_NFKC_Casefolded ; N -> Y\n0300 ; NFC_QC ; M -> Y\n0300 ; NFKC_QC ; M -> Y\n",
};

/// A name is no part of a record; two commands are refused, and questions are not told, whether they have an answer or none.
const REFUSED: Changed = Changed {
    script: b"change UnicodeData.txt 0061;SMALL A;Ll;0;L;;;;;N;;;;;\nset [a]\nwithdraw UnicodeData.txt 0062\nset \\p{Nope}\nbegin\nadd UnicodeData.txt 0062;SMALL B;Ll;0;L;;;;;N;;;;;\nadd UnicodeData.txt 0063;SMALL C;Ll;0;L;0064;;;;N;;;;;\nend\nchange UnicodeData.txt 0301;COMBINING ACUTE ACCENT;Mn;220;NSM;;;;;N;;;;;\n",
    status: Status::Done,
    text: b"# line 1\n# total 0\n3 refused K2 operation 1\n5 refused V1 point 0063\n# line 9\n0301\n# total 1\n0301 ; Canonical_Combining_Class ; 230 -> 220\n",
};

/// Code points that stand side by side are one span; a group that takes a part of another one back is told by what it found.
const SPANS: Changed = Changed {
    script: b"begin\nchange UnicodeData.txt 0301;COMBINING ACUTE ACCENT;Mn;220;NSM;;;;;N;;;;;\nchange UnicodeData.txt 0300;COMBINING GRAVE ACCENT;Mn;220;NSM;;;;;N;;;;;\nchange UnicodeData.txt 0061;A;Lo;0;L;;;;;N;;;;;\nend\nchange UnicodeData.txt 0300;COMBINING GRAVE ACCENT;Mn;230;NSM;;;;;N;;;;;\n",
    status: Status::Clean,
    text: b"# line 1\n0061\n0300..0301\n# total 3\n0061 ; Lowercase ; Y -> N\n0061 ; Cased ; Y -> N\n0061 ; General_Category ; Ll -> Lo\n0300 ; Canonical_Combining_Class ; 230 -> 220\n0301 ; Canonical_Combining_Class ; 230 -> 220\n# line 6\n0300\n# total 1\n0300 ; Canonical_Combining_Class ; 220 -> 230\n",
};

/// A script of questions alone, and an empty one.
const QUESTIONS: Changed = Changed {
    script: b"set \\p{Nope}\nset [a]\n",
    status: Status::Clean,
    text: b"",
};

const NOTHING: Changed = Changed {
    script: b"",
    status: Status::Clean,
    text: b"",
};

/// Whether a run tells what its script changes.
///
/// - `Memory`: memory ran out.
fn is_told(alloc: Global, changed: &Changed) -> Result<bool, Memory> {
    let mut shelf = shelf_of(alloc, LETTERS, changed.script)?;
    let words: [&[u8]; 3] = [b"changes", b"d", b"s"];
    ends(
        alloc,
        &words,
        &mut shelf,
        2000,
        (changed.status, changed.text),
    )
}

#[test]
fn a_mark_changes_with_its_composite(rt: HostRuntime) -> Result<(), Fail> {
    assert!(rt; is_told(rt.alloc(), &COMPOSITE)?);
    Ok(())
}

#[test]
fn refused_groups_stand_in_their_places(rt: HostRuntime) -> Result<(), Fail> {
    assert!(rt; is_told(rt.alloc(), &REFUSED)?);
    Ok(())
}

#[test]
fn neighbours_are_one_span(rt: HostRuntime) -> Result<(), Fail> {
    assert!(rt; is_told(rt.alloc(), &SPANS)?);
    Ok(())
}

#[test]
fn questions_are_not_told(rt: HostRuntime) -> Result<(), Fail> {
    assert!(rt; is_told(rt.alloc(), &QUESTIONS)?);
    assert!(rt; is_told(rt.alloc(), &NOTHING)?);
    Ok(())
}
