//! Runs that are refused, and runs in which a read or a print fails.

use crate::runs::{LETTERS, ends, shelf_of};
use run_tests::runs::{SOURCE_NAMES, joined};
use std::alloc::Global;
use std::test::Fail;
use ucd_model::Memory;
use ucdshop_look_core::Status;

/// The words of a run, its UnicodeData.txt and its script, and the line that refuses it.
#[derive(Clone, Copy)]
struct Refused {
    words: &'static [&'static [u8]],
    data: &'static [u8],
    script: &'static [u8],
    line: &'static [u8],
}

/// A row out of the grammar, and one whose mapping has no row.
const NO_ROW: &[u8] = b"0041\n";

const NO_MEMBER: &[u8] = b"1000;X;Lo;0;L;1001;;;;N;;;;;\n";

/// The first fault is told, by the line that refuses `derive` and `apply`.
const REFUSED: [Refused; 13] = [
    Refused {
        words: &[b"ask", b"d", b"[a]"],
        data: NO_ROW,
        script: b"",
        line: b"refused: d/UnicodeData.txt line 1 G03\n",
    },
    Refused {
        words: &[b"ask", b"d", b"[a-"],
        data: NO_MEMBER,
        script: b"",
        line: b"refused: d point 1000 V1\n",
    },
    Refused {
        words: &[b"ask", b"q", b"[a]"],
        data: LETTERS,
        script: b"",
        line: b"refused: q/UnicodeData.txt line 0 G01\n",
    },
    Refused {
        words: &[b"show", b"d", b"0041"],
        data: NO_MEMBER,
        script: b"",
        line: b"refused: d point 1000 V1\n",
    },
    Refused {
        words: &[b"check", b"d"],
        data: NO_MEMBER,
        script: b"ad\n",
        line: b"refused: d point 1000 V1\n",
    },
    Refused {
        words: &[b"check", b"d", b"q"],
        data: LETTERS,
        script: b"",
        line: b"refused: q line 0 G01\n",
    },
    Refused {
        words: &[b"check", b"d", b"s", b"q"],
        data: NO_ROW,
        script: b"ad\n",
        line: b"refused: d/UnicodeData.txt line 1 G03\n",
    },
    Refused {
        words: &[b"check", b"d", b"s", b"q"],
        data: LETTERS,
        script: b"set [a]\nad\n",
        line: b"refused: s line 2 E1\n",
    },
    Refused {
        words: &[b"check", b"d", b"s", b"q"],
        data: LETTERS,
        script: b"",
        line: b"refused: q/UnicodeData.txt line 0 G01\n",
    },
    Refused {
        words: &[b"changes", b"d", b"s"],
        data: NO_ROW,
        script: b"ad\n",
        line: b"refused: d/UnicodeData.txt line 1 G03\n",
    },
    Refused {
        words: &[b"changes", b"d", b"s"],
        data: LETTERS,
        script: b"set [a]\nset\n",
        line: b"refused: s line 2 E1\n",
    },
    Refused {
        words: &[b"changes", b"d", b"r"],
        data: LETTERS,
        script: b"",
        line: b"refused: r line 0 G01\n",
    },
    Refused {
        words: &[b"check", b"p", b"s", b"d"],
        data: NO_MEMBER,
        script: b"",
        line: b"refused: d point 1000 V1\n",
    },
];

/// Whether a run is refused by its line.
///
/// - `Memory`: memory ran out.
fn is_refused(alloc: Global, refused: &Refused) -> Result<bool, Memory> {
    let mut shelf = shelf_of(alloc, refused.data, refused.script)?;
    let expected = (Status::LoadRefused, refused.line);
    ends(alloc, refused.words, &mut shelf, 1000, expected)
}

#[test]
fn each_fault_is_told(rt: HostRuntime) -> Result<(), Fail> {
    for refused in &REFUSED {
        assert!(rt; is_refused(rt.alloc(), refused)?);
    }
    Ok(())
}

/// Whether a run of these words is told that a read failed, counted from 1, by this path.
///
/// - `Memory`: memory ran out.
fn tells_read(alloc: Global, words: &[&[u8]], nth: u32, path: &[u8]) -> Result<bool, Memory> {
    let mut shelf = shelf_of(alloc, NO_ROW, b"ad\n")?;
    shelf.fail_read(nth)?;
    let line = joined(alloc, [b"read failed: ", path, b"\n"])?;
    let expected = (Status::ReadFault, line.as_slice());
    ends(alloc, words, &mut shelf, 1000, expected)
}

/// Whether a run of these words is told that a read failed, counted from 1, by the path of this file of the folder `d`.
///
/// - `Memory`: memory ran out.
fn tells_file(alloc: Global, words: &[&[u8]], nth: u32, name: &[u8]) -> Result<bool, Memory> {
    let path = joined(alloc, [b"d/", name, b""])?;
    tells_read(alloc, words, nth, path.as_slice())
}

/// All files are read before any is judged.
#[test]
fn each_failed_read_is_told(rt: HostRuntime) -> Result<(), Fail> {
    let ask: [&[u8]; 3] = [b"ask", b"d", b"[a]"];
    for nth in 1..10 {
        let name = SOURCE_NAMES.get(nth - 1).copied().unwrap_or(b"");
        assert!(rt;
            tells_file(rt.alloc(), &ask, nth as u32, name)?,
            "read {nth}"
        );
    }
    Ok(())
}

/// The words of a run, its script, and what it tells.
#[derive(Clone, Copy)]
struct Told {
    words: &'static [&'static [u8]],
    script: &'static [u8],
    text: &'static [u8],
}

const TOLD: [Told; 3] = [
    Told {
        words: &[b"ask", b"d", b"[b-c]"],
        script: b"",
        text: b"# [b-c]\n0062..0063\n# total 2\n",
    },
    Told {
        words: &[b"check", b"d", b"s"],
        script: b"set [\n",
        text: b"ucdshop: 0 groups accepted, 1 commands refused, 0 sets answered, 0 policy breaks\n\
          1 refused S2 byte 1\n",
    },
    Told {
        words: &[b"changes", b"d", b"s"],
        script: b"withdraw UnicodeData.txt 0099\nchange UnicodeData.txt 0061;A;Lo;0;L;;;;;N;;;;;\n",
        text: b"1 refused K2 operation 1\n# line 2\n0061\n# total 1\n0061 ; Lowercase ; Y -> N\n0061 ; Cased ; Y -> N\n0061 ; General_Category ; Ll -> Lo\n",
    },
];

/// Whether a run of these words into a sink with room for so many bytes tells a beginning of this text.
///
/// - `Memory`: memory ran out.
fn tells_in_part(alloc: Global, whole: &Told, room: usize) -> Result<bool, Memory> {
    let mut shelf = shelf_of(alloc, LETTERS, whole.script)?;
    let told = whole.text.get(..room).unwrap_or(b"");
    let expected = (Status::WriteFault, told);
    ends(alloc, whole.words, &mut shelf, room, expected)
}

#[test]
fn a_short_sink_has_a_beginning(rt: HostRuntime) -> Result<(), Fail> {
    for told in &TOLD {
        let len = told.text.len();
        for room in [0, 1, len / 2, len - 1] {
            assert!(rt; tells_in_part(rt.alloc(), told, room)?);
        }
    }
    Ok(())
}
