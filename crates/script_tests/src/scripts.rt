//! Runs of `apply`: what a script leaves.

use run_tests::runs::{File, GRAVE, LETTERS, ends, holds, shelf_of, status_of, summary_of};
use shelf_io::MemoryShelf;
use std::alloc::Global;
use std::test::Fail;
use ucd_model::{Memory, Text};
use ucdshop_core::Status;

/// A letter, a mark, and a compatibility character of both.
const FOLDED: &[u8] =
    b"0061;LATIN SMALL LETTER A;Ll;0;L;;;;;N;;;;;\n0300;COMBINING GRAVE ACCENT;Mn;230;NSM;;;;;N;;;;;\nFB00;X;Lo;0;L;<compat> 0061 0300;;;;N;;;;;\n";

/// The words of the runs.
pub const WORDS: [&[u8]; 4] = [b"apply", b"d", b"s", b"o"];

/// A script that is carried out.
#[derive(Clone, Copy)]
struct Session {
    /// UnicodeData.txt and PropList.txt.
    data: [&'static [u8]; 2],
    /// The script.
    script: &'static [u8],
    /// How many groups are accepted, commands refused and sets answered, in digits.
    counts: [&'static [u8]; 3],
    /// Files that the run writes.
    files: &'static [File],
}

/// A letter is excluded from composition: its mark is no second member any more.
const EXCLUDED: Session = Session {
    data: [GRAVE, b""],
    script: b"add CompositionExclusions.txt 00C0",
    counts: [b"1", b"0", b"0"],
    files: &[
        (b"o/bench.log", b"1 accepted 2\n"),
        (b"o/CompositionExclusions.txt", b"00C0\n"),
        (b"o/UnicodeData.txt", GRAVE),
        (
            b"o/DerivedNormalizationProps.txt",
            b"# Full_Composition_Exclusion\n00C0 ; Full_Composition_Exclusion\n# total 1\n\n# NFD_QC\n00C0 ; NFD_QC ; N\n# total 1\n\n# NFC_QC\n00C0 ; NFC_QC ; N\n# total 1\n\n# NFKD_QC\n00C0 ; NFKD_QC ; N\n# total 1\n\n# NFKC_QC\n00C0 ; NFKC_QC ; N\n# total 1\n\n# NFKC_CF\n00C0 ; NFKC_CF ; 0041 0300\n# total 1\n\n# NFKC_SCF\n00C0 ; NFKC_SCF ; 0041 0300\n# total 1\n\n# Changes_When_NFKC_Casefolded\n00C0 ; Changes_When_NFKC_Casefolded\n# total 1\n\n",
        ),
    ],
};

/// A composite is added, then its folding; both reach a compatibility character.
const FOLDING: Session = Session {
    data: [FOLDED, b""],
    script: b"add UnicodeData.txt 00E0;LATIN SMALL LETTER A WITH GRAVE;Ll;0;L;0061 0300;;;;N;;;;;\nadd CaseFolding.txt 00E0; C; 0061\n",
    counts: [b"2", b"0", b"0"],
    files: &[
        (b"o/bench.log", b"1 accepted 3\n2 accepted 2\n"),
        (b"o/CaseFolding.txt", b"00E0; C; 0061\n"),
    ],
};

/// Groups that are refused whole, each before one that is accepted.
const REFUSED_GROUPS: [Session; 2] = [
    // a group whose mappings meet is refused whole, and the next one is not
    Session {
        data: [b"", b""],
        script: b"begin\nadd UnicodeData.txt 1000;A;Lo;0;L;1001;;;;N;;;;;\nadd UnicodeData.txt 1001;B;Lo;0;L;1000;;;;N;;;;;\nend\nadd UnicodeData.txt 1002;C;Lo;0;L;;;;;N;;;;;\n",
        counts: [b"1", b"1", b"0"],
        files: &[
            (b"o/bench.log", b"1 refused V2 point 1000\n5 accepted 1\n"),
            (b"o/UnicodeData.txt", b"1002;C;Lo;0;L;;;;;N;;;;;\n"),
        ],
    },
    // a member of a mapping stays while the mapping does
    Session {
        data: [GRAVE, b""],
        script: b"withdraw UnicodeData.txt 0300\nbegin\nwithdraw UnicodeData.txt 0300\nwithdraw UnicodeData.txt 00C0\nend\n",
        counts: [b"1", b"1", b"0"],
        files: &[
            (b"o/bench.log", b"1 refused V1 point 00C0\n2 accepted 2\n"),
            (
                b"o/UnicodeData.txt",
                b"0041;LATIN CAPITAL LETTER A;Lu;0;L;;;;;N;;;;;\n",
            ),
        ],
    },
];

/// Operations on rows: what they leave, and what is refused.
const OPERATIONS: [Session; 2] = [
    // line ends stay, and an item without one gets LF
    Session {
        data: [
            b"",
            b"# head\r\n0020 ; White_Space # SP\r\n\r\n0009..000D    ; White_Space",
        ],
        script: b"change PropList.txt 0020..0021 ; White_Space\nadd PropList.txt 0085 ; White_Space\n",
        counts: [b"2", b"0", b"0"],
        files: &[
            (b"o/bench.log", b"1 accepted 0\n2 accepted 0\n"),
            (
                b"o/PropList.txt",
                b"# head\r\n0020..0021 ; White_Space\r\n\r\n0009..000D    ; White_Space\n0085 ; White_Space\n",
            ),
        ],
    },
    // a key that is there, one that is not, and a span that overlaps
    Session {
        data: [LETTERS, b""],
        script: b"add UnicodeData.txt 0041;X;Lu;0;L;;;;;N;;;;;\nwithdraw UnicodeData.txt 0042\nadd UnicodeData.txt 0040;<R, First>;Lo;0;L;;;;;N;;;;;\nlast 0050;<R, Last>;Lo;0;L;;;;;N;;;;;\n",
        counts: [b"0", b"3", b"0"],
        files: &[
            (
                b"o/bench.log",
                b"1 refused K1 operation 1\n2 refused K2 operation 1\n3 refused K4 operation 1\n",
            ),
            (b"o/UnicodeData.txt", LETTERS),
            (b"o/PropList.txt", b""),
        ],
    },
];

/// Whether a run of `apply d s o` over a shelf with this script ends with these counts, and leaves these files.
///
/// - `Memory`: memory ran out.
pub fn answers(
    alloc: Global,
    shelf: &mut MemoryShelf,
    script: &[u8],
    counts: [&[u8]; 3],
    files: &[File],
) -> Result<bool, Memory> {
    shelf.place(b"s", script)?;
    let summary = summary_of(alloc, counts)?;
    let status = if counts[1] == b"0".as_slice() {
        Status::Clean
    } else {
        Status::Done
    };
    Ok(ends(alloc, &WORDS, shelf, 1000, (status, summary.as_slice()))? && holds(shelf, files))
}

/// Whether a script leaves its files, and the folder that is read stays.
fn leaves(alloc: Global, session: &Session) -> Result<bool, Memory> {
    let mut shelf = shelf_of(alloc, session.data[0], session.data[1])?;
    let left = answers(
        alloc,
        &mut shelf,
        session.script,
        session.counts,
        session.files,
    )?;
    let kept: [(&[u8], &[u8]); 2] = [
        (b"d/UnicodeData.txt", session.data[0]),
        (b"o/other", b"kept"),
    ];
    Ok(left && holds(&shelf, &kept))
}

#[test]
fn scripts_reach_what_is_derived(rt: HostRuntime) -> Result<(), Fail> {
    assert!(rt; leaves(rt.alloc(), &EXCLUDED)?);
    assert!(rt; leaves(rt.alloc(), &FOLDING)?);
    Ok(())
}

#[test]
fn groups_are_refused_whole(rt: HostRuntime) -> Result<(), Fail> {
    for session in &REFUSED_GROUPS {
        assert!(rt; leaves(rt.alloc(), session)?);
    }
    Ok(())
}

#[test]
fn scripts_are_carried_out(rt: HostRuntime) -> Result<(), Fail> {
    for session in &OPERATIONS {
        assert!(rt; leaves(rt.alloc(), session)?);
    }
    Ok(())
}

/// Whether a run of these words over a shelf with this script ends with status 0.
fn is_clean(
    alloc: Global,
    words: &[&[u8]],
    shelf: &mut MemoryShelf,
    script: &[u8],
) -> Result<bool, Memory> {
    shelf.place(b"s", script)?;
    Ok(status_of(alloc, words, shelf)? == Status::Clean)
}

/// Whether foldings are derived from the rows that a script leaves.
fn derives_after(alloc: Global, session: &Session) -> Result<bool, Memory> {
    let mut shelf = shelf_of(alloc, session.data[0], b"")?;
    Ok(is_clean(alloc, &WORDS, &mut shelf, session.script)? && has_foldings(&shelf))
}

fn has_foldings(shelf: &MemoryShelf) -> bool {
    let section =
        b"# NFKC_CF\n00E0 ; NFKC_CF ; 0061\nFB00 ; NFKC_CF ; 0061\n# total 2\n\n# NFKC_SCF\n00E0 ; NFKC_SCF ; 0061\nFB00 ; NFKC_SCF ; 0061\n# total 2\n\n".as_slice();
    let text = shelf
        .held(b"o/DerivedNormalizationProps.txt")
        .unwrap_or(b"");
    text.windows(section.len()).any(|part| part == section)
}

/// What is derived is derived from the rows that the script leaves.
#[test]
fn files_are_derived_after_the_script(rt: HostRuntime) -> Result<(), Fail> {
    assert!(rt; derives_after(rt.alloc(), &FOLDING)?);
    Ok(())
}

/// Whether a script edits the folder that is read.
fn edits_in_place(alloc: Global) -> Result<bool, Memory> {
    let mut shelf = shelf_of(alloc, GRAVE, b"")?;
    let words: [&[u8]; 4] = [b"apply", b"d", b"s", b"d"];
    Ok(
        is_clean(
            alloc,
            &words,
            &mut shelf,
            b"add CompositionExclusions.txt 00C0\n",
        )? && holds(
            &shelf,
            &[
                (b"d/UnicodeData.txt", GRAVE),
                (b"d/CompositionExclusions.txt", b"00C0\n"),
                (b"d/bench.log", b"1 accepted 2\n"),
            ],
        ),
    )
}

/// The output folder may be the one that is read.
#[test]
fn a_folder_is_edited_in_place(rt: HostRuntime) -> Result<(), Fail> {
    assert!(rt; edits_in_place(rt.alloc())?);
    Ok(())
}

/// Whether a long file is written as it is by a run whose script is a file of the folder.
fn writes_long(alloc: Global, shelf: &mut MemoryShelf, long: &[u8]) -> Result<bool, Memory> {
    shelf.place(b"d/Scripts.txt", long)?;
    let words: [&[u8]; 4] = [b"apply", b"d", b"d/PropList.txt", b"o"];
    let status = status_of(alloc, &words, shelf)?;
    Ok(status == Status::Clean && holds(shelf, &[(b"o/Scripts.txt", long), (b"o/bench.log", b"")]))
}

/// Whether a run on a new shelf writes a long file as it is. The script of the run is a file of the folder.
fn writes_a_long_file(alloc: Global, long: &[u8]) -> Result<bool, Memory> {
    let mut shelf = shelf_of(alloc, LETTERS, b"# head\n")?;
    writes_long(alloc, &mut shelf, long)
}

/// A long file is written as it is, and a script may be a file of the folder.
#[test]
fn a_script_may_be_a_file_of_the_folder(rt: HostRuntime) -> Result<(), Fail> {
    let long = vec![in rt.alloc(); b'#'; 33_554_432]?;
    assert!(rt; writes_a_long_file(rt.alloc(), long.as_slice())?);
    Ok(())
}

/// The digits of a code point.
const DIGITS: &[u8; 16] = b"0123456789ABCDEF";

/// Puts the line that adds a row of a code point from 1000 to 1FFF.
///
/// - `Memory`: memory ran out.
fn put_addition(script: &mut Text, at: usize) -> Result<(), Memory> {
    script.append(b"add UnicodeData.txt 1")?;
    script.push(DIGITS[at / 256 % 16])?;
    script.push(DIGITS[at / 16 % 16])?;
    script.push(DIGITS[at % 16])?;
    script.append(b";A;Lo;0;L;;;;;N;;;;;\n")
}

/// The group of most operations: it adds a row of each code point from 1000 to 1FFF.
///
/// - `Memory`: memory ran out.
fn put_group(script: &mut Text) -> Result<(), Memory> {
    script.append(b"begin\n")?;
    for at in 0..4096 {
        put_addition(script, at)?;
    }
    script.append(b"end\n")
}

fn adds_most(alloc: Global, shelf: &mut MemoryShelf) -> Result<bool, Memory> {
    let mut script = Text::new(alloc);
    put_group(&mut script)?;
    let counts: [&[u8]; 3] = [b"1", b"0", b"0"];
    let files: [File; 1] = [(b"o/bench.log", b"1 accepted 4096\n")];
    answers(alloc, shelf, script.as_slice(), counts, &files)
}

#[test]
fn a_group_of_most_operations_is_accepted(rt: HostRuntime) -> Result<(), Fail> {
    let mut shelf = shelf_of(rt.alloc(), b"", b"")?;
    assert!(rt; adds_most(rt.alloc(), &mut shelf)?);
    Ok(())
}
