//! Runs over lines `# @missing:` of Scripts.txt and WordBreakProperty.txt, which give the values of what no other row covers.

use crate::questions::{Asked, answers_sets};
use run_tests::runs::{LETTERS, ends, shelf_of};
use std::alloc::Global;
use std::test::Fail;
use ucd_model::Memory;
use ucdshop_core::Status;

/// Values that lines `# @missing:` give.
const VALUES: [Asked; 3] = [
    // the last line that covers a code point counts, and a row hides all of them
    Asked {
        data: b"",
        read: &[(
            b"d/Scripts.txt",
            b"# @missing: 0000..10FFFF; Unknown\n# @missing: 0400..04FF; Cyrillic\n0400 ; Latin\n",
        )],
        script: b"set \\p{sc=Cyrillic}\nset \\p{sc=Unknown}\n",
        counts: [b"0", b"0", b"2"],
        files: &[
            (b"o/bench.log", b"1 set 255\n2 set 1113856\n"),
            (
                b"o/sets.txt",
                b"# line 1\n0401..04FF\n# total 255\n\n# line 2\n0000..03FF\n0500..10FFFF\n# total 1113856\n\n",
            ),
        ],
    },
    // a value of Word_Break by such a line alone: the code point is ignored by casing while the line stands
    Asked {
        data: b"",
        read: &[(
            b"d/auxiliary/WordBreakProperty.txt",
            b"# @missing: 0041; MidLetter\n",
        )],
        script: b"set \\p{Case_Ignorable}\nwithdraw auxiliary/WordBreakProperty.txt # @missing: 0041\nset \\p{Case_Ignorable}\n",
        counts: [b"1", b"0", b"2"],
        files: &[
            (b"o/bench.log", b"1 set 1\n2 accepted 1\n3 set 0\n"),
            (b"o/auxiliary/WordBreakProperty.txt", b""),
        ],
    },
    // a row with another value hides such a line; if the row is taken out, the line is seen
    Asked {
        data: b"",
        read: &[(
            b"d/auxiliary/WordBreakProperty.txt",
            b"0041 ; ALetter\n# @missing: 0041..0042; Single_Quote\n",
        )],
        script: b"set \\p{Case_Ignorable}\nset \\p{WB=Single_Quote}\nwithdraw auxiliary/WordBreakProperty.txt 0041\nset \\p{Case_Ignorable}\n",
        counts: [b"1", b"0", b"3"],
        files: &[
            (b"o/bench.log", b"1 set 1\n2 set 1\n3 accepted 1\n4 set 2\n"),
            (
                b"o/auxiliary/WordBreakProperty.txt",
                b"# @missing: 0041..0042; Single_Quote\n",
            ),
        ],
    },
];

/// Such lines that a script edits: an added one stands behind the last one, a changed one in its place. A key is the whole
/// span, and a line of the script by itself is a comment.
const EDITED: Asked = Asked {
    data: b"",
    read: &[(
        b"d/Scripts.txt",
        b"# Scripts\n\n# @missing: 0000..10FFFF; Unknown\n0400 ; Latin\n# end",
    )],
    script: b"# @missing: 0041; Latin\nadd Scripts.txt # @missing: 0400..04FF; Cyrillic # no other row\nadd Scripts.txt # @missing: 0400; Greek\nadd Scripts.txt # @missing: 0400..0400; Greek\nchange Scripts.txt # @missing: 0400; Han\nwithdraw Scripts.txt # @missing: 0000..10FFFF\nwithdraw Scripts.txt # @missing: 0401\nset \\p{sc=Cyrillic}\n",
    counts: [b"4", b"2", b"1"],
    files: &[
        (
            b"o/bench.log",
            b"2 accepted 0\n3 accepted 0\n4 refused K1 operation 1\n5 accepted 0\n6 accepted 0\n7 refused K2 operation 1\n8 set 255\n",
        ),
        (
            b"o/Scripts.txt",
            b"# Scripts\n\n# @missing: 0400..04FF; Cyrillic # no other row\n# @missing: 0400; Han\n0400 ; Latin\n# end",
        ),
    ],
};

/// Lines `# @missing:` that are no rows, each in Scripts.txt, and what is printed of them.
const FAULTS: [(&[u8], &[u8]); 4] = [
    (b"# @missing: 0041", b"refused: d/Scripts.txt line 1 G03\n"),
    (
        b"# head\n #\t@missing:0041..0040; Latin\n",
        b"refused: d/Scripts.txt line 2 G04\n",
    ),
    (
        b"# @missing: 0041 ; # Latin\n",
        b"refused: d/Scripts.txt line 1 G11\n",
    ),
    (
        b"# @missing: 0041; Latin\n# @missing: 0041..0041; Greek\n",
        b"refused: d/Scripts.txt line 2 K1\n",
    ),
];

#[test]
fn missing_rows_give_values(rt: HostRuntime) -> Result<(), Fail> {
    for asked in &VALUES {
        assert!(rt; answers_sets(rt.alloc(), asked)?);
    }
    Ok(())
}

#[test]
fn missing_rows_are_edited(rt: HostRuntime) -> Result<(), Fail> {
    assert!(rt; answers_sets(rt.alloc(), &EDITED)?);
    Ok(())
}

/// Whether a run over this Scripts.txt is refused by a line.
fn is_refused(alloc: Global, scripts: &[u8], line: &[u8]) -> Result<bool, Memory> {
    let mut shelf = shelf_of(alloc, LETTERS, b"")?;
    shelf.place(b"d/Scripts.txt", scripts)?;
    let words: [&[u8]; 3] = [b"derive", b"d", b"o"];
    ends(alloc, &words, &mut shelf, 1000, (Status::LoadRefused, line))
}

#[test]
fn missing_lines_that_are_no_rows_are_refused(rt: HostRuntime) -> Result<(), Fail> {
    for (scripts, line) in &FAULTS {
        assert!(rt; is_refused(rt.alloc(), scripts, line)?);
    }
    Ok(())
}
