//! Runs of `apply` whose scripts ask about sets.

use crate::scripts::answers;
use run_tests::runs::{File, GRAVE, LETTERS, shelf_of};
use shelf_io::MemoryShelf;
use std::alloc::Global;
use std::test::Fail;
use ucd_model::Memory;

/// Letters as the files of a real release have them, with comments, and an alias row with an empty name.
const REAL: &[u8] =
    b"0053;LATIN CAPITAL LETTER S;Lu;0;L;;;;;N;;;;0073;\n0073;LATIN SMALL LETTER S;Ll;0;L;;;;;N;;;0053;;0053\n00DF;LATIN SMALL LETTER SHARP S;Ll;0;L;;;;;N;;;;;\n";

/// A run whose script asks about sets.
pub struct Asked {
    /// UnicodeData.txt.
    pub data: &'static [u8],
    /// Other files that are read.
    pub read: &'static [File],
    /// The script.
    pub script: &'static [u8],
    /// How many groups are accepted, commands refused and sets answered, in digits.
    pub counts: [&'static [u8]; 3],
    /// Files that the run writes.
    pub files: &'static [File],
}

/// Each rule of a set.
const RULES: Asked = Asked {
    data: LETTERS,
    read: &[],
    script: b"set []\nset [^]\nset [-a]\nset [z-a]\nset \\p{isLu}\nset \\p{Nope}\nset \\p{gc=Nope}\nset [a\nset [{ab}]\nset [\\q]\nset a\nset [[[[[[[[[[[[[[[[[[[[[[[[[[[[[[[[[[[[[[[[[[[[[[[[[[[[[[[[[[[[[[[[[]]]]]]]]]]]]]]]]]]]]]]]]]]]]]]]]]]]]]]]]]]]]]]]]]]]]]]]]]]]]]]]]]\nset [[[[[[[[[[[[[[[[[[[[[[[[[[[[[[[[[[[[[[[[[[[[[[[[[[[[[[[[[[[[[[[[]]]]]]]]]]]]]]]]]]]]]]]]]]]]]]]]]]]]]]]]]]]]]]]]]]]]]]]]]]]]]]]]\nset [\xff]\n",
    counts: [b"0", b"9", b"5"],
    files: &[
        (
            b"o/bench.log",
            b"1 set 0\n2 set 1114112\n3 set 2\n4 refused S4 byte 3\n5 set 1\n6 refused S8 byte 0\n7 refused S9 byte 0\n8 refused S2 byte 2\n9 refused S7 byte 1\n10 refused S5 byte 1\n11 refused S3 byte 0\n12 refused S6 byte 64\n13 set 0\n14 refused S1 byte 1\n",
        ),
        (
            b"o/sets.txt",
            b"# line 1\n# total 0\n\n# line 2\n0000..10FFFF\n# total 1114112\n\n# line 3\n002D\n0061\n# total 2\n\n# line 5\n0041\n# total 1\n\n# line 13\n# total 0\n\n",
        ),
        (b"o/UnicodeData.txt", LETTERS),
    ],
};

/// Sets that are answered.
const ASKED: [Asked; 4] = [
    // a set is answered on the rows at its command
    Asked {
        data: GRAVE,
        read: &[],
        script: b"set \\p{NFC_QC=M}\nadd CompositionExclusions.txt 00C0\nset \\p{NFC_QC=M}",
        counts: [b"1", b"0", b"2"],
        files: &[
            (b"o/bench.log", b"1 set 1\n2 accepted 2\n3 set 0\n"),
            (
                b"o/sets.txt",
                b"# line 1\n0300\n# total 1\n\n# line 3\n# total 0\n\n",
            ),
            (b"o/CompositionExclusions.txt", b"00C0\n"),
        ],
    },
    // a property of PropList.txt, up to the last code point; an empty text is refused
    Asked {
        data: b"",
        read: &[(
            b"d/PropList.txt",
            b"10FFFE..10FFFF ; Noncharacter_Code_Point\n",
        )],
        script: b"set \\p{Noncharacter_Code_Point}\n\nset \n",
        counts: [b"0", b"1", b"1"],
        files: &[
            (b"o/bench.log", b"1 set 2\n3 refused S2 byte 0\n"),
            (b"o/sets.txt", b"# line 1\n10FFFE..10FFFF\n# total 2\n\n"),
        ],
    },
    // the steps of a bracket set are taken from left to right
    Asked {
        data: b"",
        read: &[],
        script: b"set [[ace][bdf] - [abc][def]]",
        counts: [b"0", b"0", b"1"],
        files: &[
            (b"o/bench.log", b"1 set 3\n"),
            (b"o/sets.txt", b"# line 1\n0064..0066\n# total 3\n\n"),
        ],
    },
    // lines as in the real files, and the names that their alias rows give
    Asked {
        data: REAL,
        read: &[
            (b"d/Scripts.txt", b"0041..005A    ; Latin # L&  [26]\n"),
            (
                b"d/CaseFolding.txt",
                b"0053; C; 0073; # S\n00DF; F; 0073 0073; # SHARP S\n",
            ),
            (
                b"d/SpecialCasing.txt",
                b"00DF; 00DF; 0053 0073; 0053 0053; # SHARP S\n",
            ),
            (
                b"d/PropertyAliases.txt",
                b"gc  ; General_Category\nsc  ; Script\nccc ; Canonical_Combining_Class\n",
            ),
            (
                b"d/PropertyValueAliases.txt",
                b"sc ; Latn ; Latin\nccc;   0; NR   ; Not_Reordered\nJSN; ;\n",
            ),
        ],
        script: b"set [\\p{Script=Latn}&\\p{Lu}]\nset \\p{ccc=Not_Reordered}\n",
        counts: [b"0", b"0", b"2"],
        files: &[
            (b"o/bench.log", b"1 set 1\n2 set 1114112\n"),
            (
                b"o/sets.txt",
                b"# line 1\n0053\n# total 1\n\n# line 2\n0000..10FFFF\n# total 1114112\n\n",
            ),
        ],
    },
];

/// Questions between groups, each of which edits another file that tells names or values.
const TURNS: [Asked; 2] = [
    // an edit of one file changes its values, and those of the other files stay
    Asked {
        data: b"",
        read: &[
            (b"d/PropList.txt", b"002D;Dash\n"),
            (b"d/Scripts.txt", b"0041;Latin\n"),
            (b"d/auxiliary/WordBreakProperty.txt", b"0027;Single_Quote\n"),
        ],
        script: b"set [\\p{Dash}\\p{Script=Latin}\\p{Word_Break=Single_Quote}]\nadd PropList.txt 2010;Dash\nset [\\p{Dash}\\p{Script=Latin}\\p{Word_Break=Single_Quote}]\nadd Scripts.txt 0061;Latin\nset [\\p{Dash}\\p{Script=Latin}\\p{Word_Break=Single_Quote}]\nadd auxiliary/WordBreakProperty.txt 2019;Single_Quote\nset [\\p{Dash}\\p{Script=Latin}\\p{Word_Break=Single_Quote}]\nwithdraw PropList.txt 002D;Dash\nset [\\p{Dash}\\p{Script=Latin}\\p{Word_Break=Single_Quote}]\nwithdraw Scripts.txt 0041\nwithdraw auxiliary/WordBreakProperty.txt 0027\nset [\\p{Dash}\\p{Script=Latin}\\p{Word_Break=Single_Quote}]\n",
        counts: [b"6", b"0", b"6"],
        files: &[(
            b"o/sets.txt",
            b"# line 1\n0027\n002D\n0041\n# total 3\n\n# line 3\n0027\n002D\n0041\n2010\n# total 4\n\n# line 5\n0027\n002D\n0041\n0061\n2010\n# total 5\n\n# line 7\n0027\n002D\n0041\n0061\n2010\n2019\n# total 6\n\n# line 9\n0027\n0041\n0061\n2010\n2019\n# total 5\n\n# line 12\n0061\n2010\n2019\n# total 3\n\n",
        )],
    },
    // a property that comes and goes takes its names along, and the properties behind it get other numbers
    Asked {
        data: b"",
        read: &[(b"d/PropList.txt", b"002D;Dash\n0020;White_Space\n")],
        script: b"set \\p{White_Space}\nset \\p{Mine}\nadd PropList.txt 0041;Mine\nset \\p{Mine}\nset \\p{My}\nadd PropertyAliases.txt My;Mine\nset \\p{My}\nwithdraw PropList.txt 002D;Dash\nset \\p{White_Space}\nset \\p{My}\nwithdraw PropList.txt 0041;Mine\nset \\p{My}\nset \\p{White_Space}\n",
        counts: [b"4", b"3", b"6"],
        files: &[
            (
                b"o/bench.log",
                b"1 set 1\n2 refused S8 byte 0\n3 accepted 0\n4 set 1\n5 refused S8 byte 0\n6 accepted 0\n7 set 1\n8 accepted 0\n9 set 1\n10 set 1\n11 accepted 0\n12 refused S8 byte 0\n13 set 1\n",
            ),
            (
                b"o/sets.txt",
                b"# line 1\n0020\n# total 1\n\n# line 4\n0041\n# total 1\n\n# line 7\n0041\n# total 1\n\n# line 9\n0020\n# total 1\n\n# line 10\n0041\n# total 1\n\n# line 13\n0020\n# total 1\n\n",
            ),
        ],
    },
];

/// Questions between groups that change values, names of values and records.
const CHANGES: [Asked; 2] = [
    // a script that comes and goes takes its names along, and so does a name of a value; a refused group changes nothing
    Asked {
        data: b"",
        read: &[(b"d/Scripts.txt", b"0041;Latin\n0391;Greek\n")],
        script: b"set \\p{Script=Grek}\nadd PropertyValueAliases.txt sc;Grek;Greek\nset \\p{Script=Grek}\nwithdraw Scripts.txt 0041\nset \\p{Script=Grek}\nadd Scripts.txt 0391;Latin\nset \\p{Script=Grek}\nwithdraw Scripts.txt 0391\nset \\p{Script=Grek}\n",
        counts: [b"3", b"3", b"3"],
        files: &[(
            b"o/sets.txt",
            b"# line 3\n0391\n# total 1\n\n# line 5\n0391\n# total 1\n\n# line 7\n0391\n# total 1\n\n",
        )],
    },
    // records change at both ends, beside and between others that changed, and back; a refused group changes none
    Asked {
        data: b"0041;A;Lu;0;L;;;;;N;;;;;\n",
        read: &[],
        script: b"set \\p{Lu}\nadd UnicodeData.txt 0000;ZERO;Lu;0;L;;;;;N;;;;;\nadd UnicodeData.txt 10FFFF;LAST;Lu;0;L;;;;;N;;;;;\nset \\p{Lu}\nwithdraw UnicodeData.txt 0000\nadd UnicodeData.txt 0500;B;Lu;0;L;;;;;N;;;;;\nadd UnicodeData.txt 0502;C;Lu;0;L;;;;;N;;;;;\nadd UnicodeData.txt 0041;A;Ll;0;L;;;;;N;;;;;\nset \\p{Lu}\nchange UnicodeData.txt 0041;A;Ll;0;L;;;;;N;;;;;\nadd UnicodeData.txt 0501;D;Lu;0;L;;;;;N;;;;;\nwithdraw UnicodeData.txt 10FFFF\nset \\p{Lu}\n",
        counts: [b"8", b"1", b"4"],
        files: &[(
            b"o/sets.txt",
            b"# line 1\n0041\n# total 1\n\n# line 4\n0000\n0041\n10FFFF\n# total 3\n\n# line 9\n0041\n0500\n0502\n10FFFF\n# total 4\n\n# line 13\n0500..0502\n# total 3\n\n",
        )],
    },
];

/// Whether a run whose script asks about sets answers them.
pub fn answers_sets(alloc: Global, asked: &Asked) -> Result<bool, Memory> {
    let mut shelf = shelf_of(alloc, asked.data, b"")?;
    answers_over(alloc, &mut shelf, asked)
}

fn answers_over(alloc: Global, shelf: &mut MemoryShelf, asked: &Asked) -> Result<bool, Memory> {
    for file in asked.read {
        shelf.place(file.0, file.1)?;
    }
    answers(alloc, shelf, asked.script, asked.counts, asked.files)
}

#[test]
fn each_rule_of_a_set_is_told(rt: HostRuntime) -> Result<(), Fail> {
    assert!(rt; answers_sets(rt.alloc(), &RULES)?);
    Ok(())
}

#[test]
fn sets_are_answered(rt: HostRuntime) -> Result<(), Fail> {
    for asked in &ASKED {
        assert!(rt; answers_sets(rt.alloc(), asked)?);
    }
    Ok(())
}

#[test]
fn questions_between_edits_of_each_file_are_answered(rt: HostRuntime) -> Result<(), Fail> {
    for asked in &TURNS {
        assert!(rt; answers_sets(rt.alloc(), asked)?);
    }
    Ok(())
}

#[test]
fn questions_between_edits_of_values_and_records_are_answered(rt: HostRuntime) -> Result<(), Fail> {
    for asked in &CHANGES {
        assert!(rt; answers_sets(rt.alloc(), asked)?);
    }
    Ok(())
}
