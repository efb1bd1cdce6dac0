//! Reading the files that a run needs, and naming the one that could not be read.

ghost use Rattle.std.specs.Prelude.{◌≡◌, ◌<◌, IfOk, length};
ghost use Rattle.run_endings.specs.Planning.{OnRefused, OnlyRead, UnreadAs};
ghost use Rattle.run_endings.specs.Printed.{read_failed};
ghost use Rattle.run_endings.specs.Reading.{IsRead, text_at};
ghost use Rattle.run_endings.specs.Promises.{shelf_seen};

use crate::failure_lines::read_failed_line;
use crate::reading::{ReadingStop, read_all};
use crate::stop::Stop;
use shelf_io::Shelf;
use std::alloc::Global;
use ucd_points::{Memory, Text};

/// The line for the path at a place, which could not be read.
fn unread_line(alloc: Global, paths: &[Text], at: usize) -> Result<Text, Memory>
    requires { at < length paths.now }
    ensures { IfOk result (λ line. line ≡ read_failed (text_at paths.now at)) }
{
    read_failed_line(alloc, paths[at].as_slice())
}

/// What a shelf holds at each of the paths, in order: the bytes, up to one more than a file may have; `None` if the
/// path is not held.
///
/// - `ReadFailed(line)`: a file could not be read; the line names it.
/// - `Memory`: memory ran out.
pub fn read_inputs<S: Shelf>(
    alloc: Global,
    shelf: &mut S,
    paths: &[Text],
) -> Result<Vec<Option<Text>>, Stop>
    ensures read { IfOk result (λ held. IsRead S.tells (S.holds shelf.old) paths.now held.items) }
    ensures refused { OnRefused result (λ _. ⊥) }
    ensures unread { UnreadAs result paths.now (shelf_seen S.Shelf shelf.old shelf.new) }
    ensures only_read { OnlyRead (shelf_seen S.Shelf shelf.old shelf.new) }
{
    match read_all(alloc, shelf, paths) {
        Ok(held) => Ok(held),
        Err(ReadingStop::FailedAt(at)) => {
            let line = unread_line(alloc, paths, at)?;
            Err(Stop::ReadFailed(line))
        }
        Err(ReadingStop::Memory) => Err(Stop::Memory),
    }
}
