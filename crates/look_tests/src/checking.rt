//! Runs of `check`.

use crate::runs::{LETTERS, ends, shelf_of};
use std::alloc::Global;
use std::test::Fail;
use ucd_model::Memory;
use ucdshop_look_core::Status;

/// The words of a run and its script, its status, and what it tells.
#[derive(Clone, Copy)]
struct Checked {
    words: &'static [&'static [u8]],
    script: &'static [u8],
    status: Status,
    text: &'static [u8],
}

/// A group that is accepted, two that are refused, a question that is answered, and one that is refused.
const SCRIPT: &[u8] = b"withdraw UnicodeData.txt 0041\n\
      add UnicodeData.txt 0061;X;Ll;0;L;;;;;N;;;;;\n\
      add UnicodeData.txt 0062;X;Lo;0;L;0063;;;;N;;;;;\n\
      set [a]\n\
      set \\p{Nope}\n";

/// Two groups that are accepted, and a question that is refused.
const WITHDRAWN: &[u8] = b"withdraw UnicodeData.txt 0061\nwithdraw UnicodeData.txt 0301\nset [\n";

const CHECKED: [Checked; 6] = [
    Checked {
        words: &[b"check", b"d"],
        script: b"out of the grammar\n",
        status: Status::Clean,
        text: b"ucdshop: 0 groups accepted, 0 commands refused, 0 sets answered, 0 policy breaks\n",
    },
    Checked {
        words: &[b"check", b"d", b"s"],
        script: b"withdraw UnicodeData.txt 0041\n",
        status: Status::Clean,
        text: b"ucdshop: 1 groups accepted, 0 commands refused, 0 sets answered, 0 policy breaks\n",
    },
    Checked {
        words: &[b"check", b"d", b"s"],
        script: SCRIPT,
        status: Status::Done,
        text: b"ucdshop: 1 groups accepted, 3 commands refused, 1 sets answered, 0 policy breaks\n\
              2 refused K1 operation 1\n\
              3 refused V1 point 0062\n\
              5 refused S8 byte 0\n",
    },
    Checked {
        words: &[b"check", b"d", b"s", b"p"],
        script: WITHDRAWN,
        status: Status::Done,
        text: b"ucdshop: 2 groups accepted, 1 commands refused, 0 sets answered, 9 policy breaks\n\
              3 refused S2 byte 1\n\
              P01 2\nP03 1\nP06 1\nP07 2\nP08 1\nP09 2\n",
    },
    Checked {
        words: &[b"check", b"d", b"s", b"p"],
        script: b"set [a]\n",
        status: Status::Done,
        text: b"ucdshop: 0 groups accepted, 0 commands refused, 1 sets answered, 1 policy breaks\n\
              P03 1\n",
    },
    Checked {
        words: &[b"check", b"p", b"s", b"p"],
        script: b"",
        status: Status::Clean,
        text: b"ucdshop: 0 groups accepted, 0 commands refused, 0 sets answered, 0 policy breaks\n",
    },
];

/// Whether a run tells what its script comes to.
///
/// - `Memory`: memory ran out.
fn is_told(alloc: Global, checked: &Checked) -> Result<bool, Memory> {
    let mut shelf = shelf_of(alloc, LETTERS, checked.script)?;
    ends(
        alloc,
        checked.words,
        &mut shelf,
        1000,
        (checked.status, checked.text),
    )
}

#[test]
fn a_script_is_tried(rt: HostRuntime) -> Result<(), Fail> {
    for checked in &CHECKED {
        assert!(rt; is_told(rt.alloc(), checked)?);
    }
    Ok(())
}
