//! Runs of `apply` whose script is refused.

use crate::scripts::WORDS;
use run_tests::runs::{CORE_PATH, LETTERS, ends, holds, shelf_of};
use shelf_io::MemoryShelf;
use std::alloc::Global;
use std::test::Fail;
use ucd_model::{Memory, Text};
use ucdshop_core::Status;

/// A script of `begin` and one operation more than a group may have.
///
/// - `Memory`: memory ran out.
fn long_group(alloc: Global) -> Result<Text, Memory> {
    let mut script = Text::new(alloc);
    script.append(b"begin\n")?;
    for _ in 0..4097 {
        script.append(b"withdraw Scripts.txt 0041\n")?;
    }
    Ok(script)
}

/// Scripts with a fault, and the line that is told.
const FAULTS: [(&[u8], &[u8]); 7] = [
    (b"add Nope.txt 0041", b"refused: s line 1 E1\n"),
    (b"set", b"refused: s line 1 E1\n"),
    (b"begin\nset []", b"refused: s line 2 E4\n"),
    (b"begin", b"refused: s line 1 E2\n"),
    (b"begin\nbegin", b"refused: s line 2 E3\n"),
    (b"add UnicodeData.txt 0041;A", b"refused: s line 1 E6 G03\n"),
    (
        b"# head\n\nwithdraw PropList.txt 0041\n",
        b"refused: s line 3 E6 G03\n",
    ),
];

/// Whether a run over this UnicodeData.txt and this script is refused by the line, and writes nothing.
///
/// - `Memory`: memory ran out.
fn is_refused(
    alloc: Global,
    data: &[u8],
    script: Option<&[u8]>,
    line: &[u8],
) -> Result<bool, Memory> {
    let mut shelf = shelf_of(alloc, data, b"")?;
    refuses(alloc, &mut shelf, script, line)
}

fn refuses(
    alloc: Global,
    shelf: &mut MemoryShelf,
    script: Option<&[u8]>,
    line: &[u8],
) -> Result<bool, Memory> {
    if let Some(script) = script {
        shelf.place(b"s", script)?;
    }
    Ok(
        ends(alloc, &WORDS, shelf, 1000, (Status::LoadRefused, line))?
            && holds(shelf, &[(CORE_PATH, b"old")])
            && shelf.held(b"o/bench.log").is_none(),
    )
}

/// Whether a script with too long a group is refused.
fn refuses_long_group(alloc: Global) -> Result<bool, Memory> {
    let group = long_group(alloc)?;
    let line = b"refused: s line 4098 E5\n";
    is_refused(alloc, LETTERS, Some(group.as_slice()), line)
}

#[test]
fn scripts_are_refused_by_their_first_fault(rt: HostRuntime) -> Result<(), Fail> {
    for (script, line) in &FAULTS {
        assert!(rt; is_refused(rt.alloc(), LETTERS, Some(script), line)?);
    }
    assert!(rt; refuses_long_group(rt.alloc())?);
    Ok(())
}

/// Whether a script above the limit is refused.
fn refuses_long_script(alloc: Global) -> Result<bool, Memory> {
    let long = vec![in alloc; b'#'; 33_554_433]?;
    let line = b"refused: s line 0 G02\n";
    is_refused(alloc, LETTERS, Some(long.as_slice()), line)
}

/// UnicodeData.txt and the script, if there is one, and the line that refuses them.
const ORDER: [(&[u8], Option<&[u8]>, &[u8]); 3] = [
    (LETTERS, None, b"refused: s line 0 G01\n"),
    (
        b"0041\n",
        Some(b"begin"),
        b"refused: d/UnicodeData.txt line 1 G03\n",
    ),
    (
        b"1000;X;Lo;0;L;1001;;;;N;;;;;\n",
        None,
        b"refused: d point 1000 V1\n",
    ),
];

/// A script that is not there, one that is too long, and the order of what is refused.
#[test]
fn the_script_is_judged_after_the_folder(rt: HostRuntime) -> Result<(), Fail> {
    for (data, script, line) in &ORDER {
        assert!(rt; is_refused(rt.alloc(), data, *script, line)?);
    }
    assert!(rt; refuses_long_script(rt.alloc())?);
    Ok(())
}
