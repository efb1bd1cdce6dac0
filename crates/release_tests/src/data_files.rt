//! UnicodeData.txt that loads, and the first line of one that does not.

use crate::files::is_answered;
use release_rows::{LoadRule, LoadStop};
use std::alloc::Global;
use std::test::Fail;
use ucd_facts::{Memory, SourceFile, Text};

/// Whether UnicodeData.txt of these lines is answered so.
fn data_is_answered(
    alloc: Global,
    lines: &[&[u8]; 4],
    expected: Result<(), LoadStop>,
) -> Result<bool, Memory> {
    let mut bytes = Text::new(alloc);
    put_lines(&mut bytes, lines)?;
    is_answered(alloc, SourceFile::UnicodeData, bytes.as_slice(), expected)
}

fn put_lines(bytes: &mut Text, lines: &[&[u8]; 4]) -> Result<(), Memory> {
    for line in lines {
        bytes.append(line)?;
    }
    Ok(())
}

/// Lines of UnicodeData.txt, and the line and the rule of their first fault.
type DataFault = ([&'static [u8]; 4], u32, LoadRule);

/// Whether each UnicodeData.txt has this first fault.
fn data_is_refused(alloc: Global, faults: &[DataFault]) -> Result<bool, Memory> {
    for (lines, line, rule) in faults {
        let expected = Err(LoadStop::Fault {
            line: *line,
            rule: *rule,
        });
        if !data_is_answered(alloc, lines, expected)? {
            return Ok(false);
        }
    }
    Ok(true)
}

/// Whether each UnicodeData.txt loads.
fn data_is_loaded(alloc: Global, files: &[[&[u8]; 4]]) -> Result<bool, Memory> {
    for lines in files {
        if !data_is_answered(alloc, lines, Ok(()))? {
            return Ok(false);
        }
    }
    Ok(true)
}

const A: &[u8] = b"0041;LATIN CAPITAL LETTER A;Lu;0;L;;;;;N;;;;0061;\n";

const B: &[u8] = b"0061;LATIN SMALL LETTER A;Ll;0;L;;;;;N;;;0041;;0041\n";

const FIRST: &[u8] = b"4E00;<CJK Ideograph, First>;Lo;0;L;;;;;N;;;;;\r\n";

const LAST: &[u8] = b"9FFF;<CJK Ideograph, Last>;Lo;0;L;;;;;N;;;;;\n";

const INSIDE: &[u8] = b"5000;CJK;Lo;0;L;;;;;N;;;;;\n";

/// K1 before K4 before K5.
const ORDER_FAULTS: [DataFault; 5] = [
    ([B, A, b"", b""], 2, LoadRule::K5),
    ([A, B, A, b""], 3, LoadRule::K1),
    ([A, FIRST, LAST, INSIDE], 4, LoadRule::K4),
    ([INSIDE, FIRST, LAST, b""], 2, LoadRule::K4),
    ([FIRST, LAST, A, b""], 3, LoadRule::K5),
];

const IN_ORDER: [[&[u8]; 4]; 2] = [[A, B, b"", b""], [A, FIRST, LAST, b"# end"]];

fn faults_of_order_are_told(alloc: Global) -> Result<bool, Memory> {
    data_is_refused(alloc, &ORDER_FAULTS)
}

fn lines_in_order_load(alloc: Global) -> Result<bool, Memory> {
    data_is_loaded(alloc, &IN_ORDER)
}

#[test]
fn unicode_data_ascends(rt: HostRuntime) -> Result<(), Fail> {
    assert!(rt; faults_of_order_are_told(rt.alloc())?);
    assert!(rt; lines_in_order_load(rt.alloc())?);
    Ok(())
}
