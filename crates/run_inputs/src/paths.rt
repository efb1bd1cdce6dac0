//! Where the source files of a folder lie.

ghost use Rattle.std.specs.Prelude.{◌≡◌, ◌++◌, IfOk, OnOk};
ghost use Rattle.run_inputs.specs.Paths.{sources_in};

use run_endings::path_in;
use std::alloc::Global;
use ucd_model::{Memory, SOURCE_FILES, Texts};

/// The paths of the source files of a folder, in their order.
///
/// - `Memory`: memory ran out.
pub fn source_paths(alloc: Global, folder: &[u8]) -> Result<Texts, Memory>
    ensures { IfOk result (λ paths. paths ≡ sources_in folder.now) }
{
    let mut paths = Texts::new(alloc);
    put_source_paths(alloc, folder, &mut paths)?;
    Ok(paths)
}

/// Puts the paths of the source files of a folder, in their order.
///
/// - `Memory`: memory ran out.
pub fn put_source_paths(alloc: Global, folder: &[u8], into: &mut Texts) -> Result<(), Memory>
    ensures { OnOk result (into.new ≡ into.old ++ sources_in folder.now) }
{
    'files: for file in &SOURCE_FILES {
        into.push(path_in(alloc, folder, file.path())?)?;
    }
    Ok(())
}
