//! Scripts, and for each rule a script that breaks it first.

use release_rows::Op;
use script_lines::*;
use source_rows::RowFault;
use std::alloc::Global;
use ucd_facts::{SourceFile, file_limit};

/// The commands of a script of a test, which is never above the limit.
fn commands_in(alloc: Global, script: &[u8]) -> Result<Commands, ScriptStop> {
    if script.len() > file_limit() {
        return Err(ScriptStop::Memory);
    }
    commands(alloc, script)
}

/// A command as a test writes it: its line, and how many operations its group has.
fn groups_are(alloc: Global, script: &[u8], expected: &[(u32, usize)]) -> bool {
    let Ok(found) = commands_in(alloc, script) else {
        return false;
    };
    if found.len() != expected.len() {
        return false;
    }
    for (command, (line, count)) in found.as_slice().iter().zip(expected) {
        let What::Group(ops) = &command.what else {
            return false;
        };
        if command.line != *line || ops.len() != *count {
            return false;
        }
    }
    true
}

/// The first line that breaks a rule, and the rule.
fn fault_of(alloc: Global, script: &[u8]) -> Option<(u32, ScriptRule)> {
    match commands_in(alloc, script) {
        Err(ScriptStop::Fault { line, rule }) => Some((line, rule)),
        _ => None,
    }
}

/// Whether the first operation of a script adds a row of UnicodeData.txt that is read from these bytes.
fn adds(alloc: Global, script: &[u8], expected: &[u8]) -> bool {
    let Ok(found) = commands_in(alloc, script) else {
        return false;
    };
    let [command, ..] = found.as_slice() else {
        return false;
    };
    let What::Group(ops) = &command.what else {
        return false;
    };
    match ops.as_slice() {
        [Op::Add { file, bytes, .. }] => {
            *file == SourceFile::UnicodeData && bytes.as_slice() == expected
        }
        _ => false,
    }
}

/// Scripts, and the line of each group with how many operations it has.
const GROUPS: [(&[u8], &[(u32, usize)]); 6] = [
    (b"", &[]),
    (b"# nothing\r\n \t\n  # more", &[]),
    (b"add CompositionExclusions.txt 00C0", &[(1, 1)]),
    (b"begin\nend\n", &[(1, 0)]),
    (
        b"\nbegin\r\nwithdraw UnicodeData.txt 0300\r\n\r\nwithdraw UnicodeData.txt 00C0\r\nend\r\nwithdraw Scripts.txt 0041\r\n",
        &[(2, 2), (7, 1)],
    ),
    (
        b"add UnicodeData.txt 3400;<CJK, First>;Lo;0;L;;;;;N;;;;;\nlast 4DBF;<CJK, Last>;Lo;0;L;;;;;N;;;;;\nchange auxiliary/WordBreakProperty.txt 0022 ; Double_Quote",
        &[(1, 1), (3, 1)],
    ),
];

#[test]
fn groups_and_their_lines(rt: HostRuntime) {
    for (script, expected) in &GROUPS {
        assert!(rt; groups_are(rt.alloc(), script, expected), "{script:?}");
    }
}

/// The line of each command of a script, and the text that it asks about.
fn questions_are(alloc: Global, script: &[u8], expected: &[(u32, &[u8])]) -> bool {
    let Ok(found) = commands_in(alloc, script) else {
        return false;
    };
    if found.len() != expected.len() {
        return false;
    }
    for (command, (line, text)) in found.as_slice().iter().zip(expected) {
        let What::Question(asked) = &command.what else {
            return false;
        };
        if command.line != *line || asked.as_slice() != *text {
            return false;
        }
    }
    true
}

#[test]
fn questions_and_their_lines(rt: HostRuntime) {
    assert!(rt;
        questions_are(
            rt.alloc(),
            b"set \\p{L}\r\n# set [b]\nset \nset  [\xff]\t",
            &[(1, b"\\p{L}"), (3, b""), (4, b" [\xff]\t")],
        )
    );
}

#[test]
fn the_lines_of_a_range_are_joined_by_lf(rt: HostRuntime) {
    assert!(rt;
        adds(
            rt.alloc(),
            b"add UnicodeData.txt 3400;<A, First>;Lo;0;L;;;;;N;;;;;\r\nlast 4DBF;<A, Last>;Lo;0;L;;;;;N;;;;;\r\n",
            b"3400;<A, First>;Lo;0;L;;;;;N;;;;;\n4DBF;<A, Last>;Lo;0;L;;;;;N;;;;;",
        )
    );
}

/// Scripts, and the first line of each that breaks a rule, with the rule.
const FAULTS: [(&[u8], u32, ScriptRule); 19] = [
    (b"add Nope.txt 0041", 1, ScriptRule::E1),
    (b" begin", 1, ScriptRule::E1),
    (b"begin ", 1, ScriptRule::E1),
    (b"add Scripts.txt", 1, ScriptRule::E1),
    (b"add  Scripts.txt 0041 ; Latin", 1, ScriptRule::E1),
    (b"end", 1, ScriptRule::E1),
    (b"set", 1, ScriptRule::E1),
    (b"begin\nset\nend", 2, ScriptRule::E1),
    (b"begin\nset []\nend", 2, ScriptRule::E4),
    (
        b"withdraw UnicodeData.txt 0041\nlast 0042;;;;;;;;;;;;;;",
        2,
        ScriptRule::E1,
    ),
    (b"begin", 1, ScriptRule::E2),
    (
        b"\nbegin\nwithdraw UnicodeData.txt 0041\n",
        2,
        ScriptRule::E2,
    ),
    (b"begin\nbegin", 2, ScriptRule::E3),
    (
        b"add UnicodeData.txt 0041;A",
        1,
        ScriptRule::E6(RowFault::G03),
    ),
    (
        b"withdraw UnicodeData.txt 41",
        1,
        ScriptRule::E6(RowFault::G04),
    ),
    (
        b"add UnicodeData.txt 3400;<A, First>;Lo;0;L;;;;;N;;;;;\n\nlast 4DBF;<A, Last>;Lo;0;L;;;;;N;;;;;",
        1,
        ScriptRule::E6(RowFault::G09),
    ),
    (
        b"add UnicodeData.txt 3400;<A, First>;Xx;0;L;;;;;N;;;;;\nlast 4DBF;<A, Last>;Lo;0;L;;;;;N;;;;;",
        1,
        ScriptRule::E6(RowFault::G05),
    ),
    (
        b"add UnicodeData.txt 3400;<A, First>;Lo;0;L;;;;;N;;;;;\nlast 33FF;<A, Last>;Lo;0;L;;;;;N;;;;;",
        2,
        ScriptRule::E6(RowFault::G04),
    ),
    (
        b"begin\nadd UnicodeData.txt \nbegin",
        2,
        ScriptRule::E6(RowFault::G03),
    ),
];

#[test]
fn first_faults(rt: HostRuntime) {
    for (script, line, rule) in &FAULTS {
        assert!(rt;
            fault_of(rt.alloc(), script) == Some((*line, *rule)),
            "{script:?}"
        );
    }
}
