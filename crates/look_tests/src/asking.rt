//! Runs of `ask`.

use crate::runs::{LETTERS, ends, shelf_of};
use std::alloc::Global;
use std::test::Fail;
use ucd_model::Memory;
use ucdshop_look_core::Status;

/// The questions of a run, its status, and what it tells.
#[derive(Clone, Copy)]
struct Asked {
    words: &'static [&'static [u8]],
    status: Status,
    text: &'static [u8],
}

/// A section for each question, in order; one that is refused leaves the others, and gives the status.
const ASKED: [Asked; 5] = [
    Asked {
        words: &[b"ask", b"d", b"\\p{Lu}"],
        status: Status::Clean,
        text: b"# \\p{Lu}\n0041\n# total 1\n",
    },
    Asked {
        words: &[b"ask", b"d", b"[\\p{L}\\u0300\\u0301]", b"[]"],
        status: Status::Clean,
        text: b"# [\\p{L}\\u0300\\u0301]\n0041\n0061\n0300..0301\n# total 4\n# []\n# total 0\n",
    },
    Asked {
        words: &[b"ask", b"d", b"\\p{gc=Nope}", b"[A-C]"],
        status: Status::Done,
        text: b"# \\p{gc=Nope}\nrefused S9 byte 0\n# [A-C]\n0041..0043\n# total 3\n",
    },
    Asked {
        words: &[b"ask", b"d", b"[A-C]", b"[A-"],
        status: Status::Done,
        text: b"# [A-C]\n0041..0043\n# total 3\n# [A-\nrefused S2 byte 3\n",
    },
    Asked {
        words: &[b"ask", b"d", b""],
        status: Status::Done,
        text: b"# \nrefused S2 byte 0\n",
    },
];

/// Whether a run tells what it is asked.
///
/// - `Memory`: memory ran out.
fn is_told(alloc: Global, asked: &Asked) -> Result<bool, Memory> {
    let mut shelf = shelf_of(alloc, LETTERS, b"")?;
    ends(
        alloc,
        asked.words,
        &mut shelf,
        1000,
        (asked.status, asked.text),
    )
}

#[test]
fn each_question_has_a_section(rt: HostRuntime) -> Result<(), Fail> {
    for asked in &ASKED {
        assert!(rt; is_told(rt.alloc(), asked)?);
    }
    Ok(())
}
