//! Benches over releases of a few lines.

ghost use Rattle.std.specs.Prelude.{◌≡◌, ◌<◌};

use edit_session::{Bench, OpenStop};
use release_rows::Release;
use std::alloc::Global;
use std::marker::Brand;
use std::sync::ledger::{Blank, Ledger};
use std::test::Fail;
use ucd_model::{Point, SourceFile, Steps};

/// Letters and marks as UnicodeData.txt has them, without case mappings.
pub const LETTERS: &[u8] =
    b"0041;LATIN CAPITAL LETTER A;Lu;0;L;;;;;N;;;;;\n0061;LATIN SMALL LETTER A;Ll;0;L;;;;;N;;;;;\n0300;COMBINING GRAVE ACCENT;Mn;230;NSM;;;;;N;;;;;\n0301;COMBINING ACUTE ACCENT;Mn;230;NSM;;;;;N;;;;;\n";

/// Letters and marks: [`LETTERS`] without 0041, with another class of 0300, and with 00E0, the composite of 0061 and 0300.
pub const LATER: &[u8] =
    b"0061;LATIN SMALL LETTER A;Ll;0;L;;;;;N;;;;;\n00E0;LATIN SMALL LETTER A WITH GRAVE;Ll;0;L;0061 0300;;;;N;;;;;\n0300;COMBINING GRAVE ACCENT;Mn;220;NSM;;;;;N;;;;;\n0301;COMBINING ACUTE ACCENT;Mn;230;NSM;;;;;N;;;;;\n";

/// The lines of UnicodeData.txt, PropertyAliases.txt and PropertyValueAliases.txt; the other files are empty.
#[derive(Clone, Copy)]
pub struct Lines {
    pub data: &'static [u8],
    pub properties: &'static [u8],
    pub values: &'static [u8],
}

/// A bench over a release, which is counted on a ledger of its own.
fn counted<L: Ledger>(alloc: Global, release: Release, blank: Blank) -> Result<Bench, OpenStop>
    requires still { release.prepared ≡ release.current }
    requires name { blank.name ≡ L.name }
    requires parts { blank.parts ≡ L.parts }
    requires some { blank.parts ≡ 1 }
{
    let mut steps = Steps::<L>::new(blank);
    Bench::open(alloc, release, &mut steps)
}

/// These lines of UnicodeData.txt; the other files are empty.
pub fn data(lines: &'static [u8]) -> Lines {
    Lines {
        data: lines,
        properties: b"",
        values: b"",
    }
}

/// A bench over a release with these lines.
pub fn bench_over(alloc: Global, lines: &Lines) -> Result<Bench, Fail> {
    let mut release = Release::empty(alloc);
    release.load_file(SourceFile::UnicodeData, lines.data)?;
    release.load_file(SourceFile::PropertyAliases, lines.properties)?;
    release.load_file(SourceFile::PropertyValueAliases, lines.values)?;
    match counted::<Brand>(alloc, release, Blank::new(1)) {
        Ok(bench) => Ok(bench),
        Err(stop) => Err(Fail::from(stop)),
    }
}

/// The code point of a number.
pub fn point(number: u32) -> Point
    requires { number < 1114112 }
    ensures { result ≡ number }
{
    Point::new(number).unwrap()
}
