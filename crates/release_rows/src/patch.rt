//! The way from what is prepared in a release back to what is current.

ghost use Rattle.std.specs.Prelude.{◌≡◌, map, IfOk};
ghost use Rattle.ucd_points.specs.SourceFiles.{source_files};
ghost use Rattle.release_rows.specs.Patches.{LeadsBack};
ghost use Rattle.release_rows.specs.Releases.{files_now, files_next};

use crate::nine_files::NineFiles;
use crate::splice::Splice;
use std::alloc::Global;
use ucd_facts::{ListOf, Memory};

/// Splices that are undone one after the other.
pub type Patch = ListOf<Splice>;

/// The way from what is next in each file back to what is now.
///
/// - `Memory`: memory ran out, or the items of a splice have 2^32 bytes or more.
pub fn way_back(files: &NineFiles, alloc: Global) -> Result<Patch, Memory>
    requires { map (λ lists. lists.file) files.now ≡ source_files }
    ensures { IfOk result (λ patch. LeadsBack patch (files_next files.now) (files_now files.now)) }
{
    let mut patch = Patch::new(alloc);
    let mut at = 0;
    'files: while at < 9 {
        files[at].put_way_back(alloc, &mut patch)?;
        at += 1;
    }
    Ok(patch)
}
