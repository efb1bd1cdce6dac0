//! Where source files lie below the folder of a release.

ghost use Rattle.std.specs.Prelude.{◌≡◌};
ghost use Rattle.script_lines.specs.Lines.{file_named};

use ucd_facts::{SOURCE_FILES, SourceFile};

/// The source file that lies at this path. `None` if none does.
pub fn file_named(path: &[u8]) -> Option<SourceFile>
    ensures { result ≡ file_named path.now }
{
    SOURCE_FILES
        .iter()
        .copied()
        .find(|file| file.path() == path)
}
