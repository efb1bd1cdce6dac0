//! The lines that any program prints.

ghost use Rattle.std.specs.Prelude.{◌≡◌, IfOk};
ghost use Rattle.run_endings.specs.Printed.{read_failed, write_failed};

use std::alloc::Global;
use ucd_points::{Memory, Text};

/// The line for running out of memory.
pub const OUT_OF_MEMORY: &[u8] = b"out of memory\n";

/// The line for a file that could not be read.
///
/// - `Memory`: memory ran out.
pub fn read_failed_line(alloc: Global, path: &[u8]) -> Result<Text, Memory>
    ensures { IfOk result (λ text. text ≡ read_failed path.now) }
{
    let mut text = Text::new(alloc);
    text.append(b"read failed: ")?;
    text.append(path)?;
    text.append(b"\n")?;
    Ok(text)
}

/// The line for a file that could not be written.
///
/// - `Memory`: memory ran out.
pub fn write_failed_line(alloc: Global, path: &[u8]) -> Result<Text, Memory>
    ensures { IfOk result (λ text. text ≡ write_failed path.now) }
{
    let mut text = Text::new(alloc);
    text.append(b"write failed: ")?;
    text.append(path)?;
    text.append(b"\n")?;
    Ok(text)
}
