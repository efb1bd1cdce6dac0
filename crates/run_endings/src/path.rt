//! Where files lie below a folder.

ghost use Rattle.std.specs.Prelude.{◌≡◌, IfOk};
ghost use Rattle.run_endings.specs.Paths.{path_in};

use std::alloc::Global;
use ucd_points::{Memory, Text};

/// A path below a folder: the folder, `/`, and the path.
///
/// - `Memory`: memory ran out.
pub fn path_in(alloc: Global, folder: &[u8], path: &[u8]) -> Result<Text, Memory>
    ensures { IfOk result (λ text. text ≡ path_in folder.now path.now) }
{
    let mut text = Text::new(alloc);
    text.append(folder)?;
    text.append(b"/")?;
    text.append(path)?;
    Ok(text)
}
