//! Files to be written.

ghost use Rattle.std.specs.Prelude.{◌≡◌, ◌∷◌, [], IfOk, OnOk};
ghost use Rattle.run_endings.specs.Paths.{path_in};
ghost use Rattle.run_endings.specs.Planning.{Puts};
ghost use Rattle.run_endings.specs.Printed.{write_failed};
ghost use Rattle.run_endings.specs.Writing.{file_of};

use crate::failure_lines::write_failed_line;
use crate::path::path_in;
use std::alloc::Global;
use ucd_points::{Memory, Text};

/// A file to be written, and the line for the case that it cannot be.
#[derive(Drop)]
pub struct Output {
    /// Where it is written.
    pub path: Text,
    /// What it is to hold.
    pub bytes: Text,
    /// The line that names its path as one that could not be written.
    pub fault_line: Text,
}

impl Output {
    /// The output of these bytes at this path.
    ///
    /// - `Memory`: memory ran out.
    pub fn of(alloc: Global, path: Text, bytes: Text) -> Result<Output, Memory>
        ensures file { IfOk result
            (λ output. file_of output ≡ record { path = path; bytes = bytes }) }
        ensures line { IfOk result (λ output. output.fault_line ≡ write_failed output.path) }
    {
        let fault_line = write_failed_line(alloc, path.as_slice())?;
        Ok(Output {
            path,
            bytes,
            fault_line,
        })
    }
}

/// Puts a file of this name and this text below a folder after the outputs.
///
/// - `Memory`: memory ran out.
pub fn put_text(
    alloc: Global,
    folder: &[u8],
    name: &[u8],
    text: &[u8],
    outputs: &mut Vec<Output>,
) -> Result<(), Memory>
    ensures { OnOk result (Puts
        (record { path = path_in folder.now name.now; bytes = text.now } ∷ [])
        outputs.old.items outputs.new.items) }
{
    let path = path_in(alloc, folder, name)?;
    let bytes = Text::of(alloc, text)?;
    outputs.push(Output::of(alloc, path, bytes)?)?;
    Ok(())
}
