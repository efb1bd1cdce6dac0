//! The texts of the least release that is made. The lengths and lines are worked out by the format alone.

use release_maker::{Made, make};
use ucd_model::SourceFile;

/// Whether these are the rows of the least release.
fn is_least(data: &[u8]) -> bool {
    data.len() == 123_032
        && data.starts_with(
            b"0300;MARK;Mn;230;NSM;;;;;N;;;;;\n20000;BASE;Lo;0;L;;;;;N;;;;;\n20001;BASE;Lo;0;L;",
        )
        && data.ends_with(b"\n403E7;COMPAT;Lo;0;L;<compat> 203E7 0300;;;;N;;;;;\n")
}

/// Whether just the first file has rows.
fn has_one_file(made: &Made) -> bool {
    for file in SourceFile::all() {
        if made.text(*file).is_empty() != (file.place() != 0) {
            return false;
        }
    }
    true
}

fn is_script(script: &[u8]) -> bool {
    script.len() == 36_000
        && script.starts_with(
            b"add CaseFolding.txt 30000; C; 20000\nadd CaseFolding.txt 30001; C; 20001\n",
        )
        && script.ends_with(b"\nadd CaseFolding.txt 303E7; C; 203E7\n")
}

#[test]
fn the_least_release(rt: HostRuntime) {
    let made = make(rt.alloc(), 1).expect(&rt, "memory");
    assert!(rt; is_least(made.text(SourceFile::UnicodeData)));
    assert!(rt; has_one_file(&made));
    assert!(rt; is_script(made.script()));
}
