//! Reading the files that a run needs.

ghost use Rattle.std.specs.Prelude.{◌≡◌, ◌+◌, ◌<◌, ◌≤◌, IsTrue, IfOk, length, map, take};
ghost use Rattle.std.specs.Option.{option_map};
ghost use Rattle.shelf_io.specs.Counts.{Rose};
ghost use Rattle.shelf_io.specs.Contents.{SameContents};
ghost use Rattle.ucd_points.specs.Limits.{file_limit};
ghost use Rattle.run_endings.specs.Reading.{cut, text_at, OnFailedAt, OnOneFailed};

use shelf_io::{Found, ReadStop, Shelf};
use std::alloc::Global;
use ucd_points::{Text, file_limit};

/// Why reading stopped.
#[derive(Clone, Copy, PartialEq, Eq)]
pub enum ReadingStop {
    /// The path at this place, counted from 0, could not be read.
    FailedAt(usize),
    /// Memory ran out.
    Memory,
}

/// What a shelf holds at each of the paths, in order: the bytes, up to one more than a file may have; `None` if the
/// path is not held.
///
/// - `FailedAt(at)`: the path at this place could not be read.
/// - `Memory`: memory ran out.
pub fn read_all<S: Shelf>(
    alloc: Global,
    shelf: &mut S,
    paths: &[Text],
) -> Result<Vec<Option<Text>>, ReadingStop>
    ensures contents { IsTrue S.tells →
        IfOk result (λ held. held.items ≡ map (λ path. cut (S.holds shelf.old path)) paths.now) }
    ensures len { IfOk result (λ held. length held.items ≡ length paths.now) }
    ensures cut { IfOk result (λ held. held.items ≡ map cut held.items) }
    ensures failed_inside { OnFailedAt result (λ at. at < length paths.now) }
    ensures failed_only { OnFailedAt result
        (λ at. Rose (S.read_faults shelf.old) (S.read_faults shelf.new)) }
    ensures names_failed { IsTrue S.tells_failed →
        OnFailedAt result (λ at. S.last_failed shelf.new ≡ text_at paths.now at) }
    ensures none_failed { IsTrue S.tells_failed
        → IfOk result (λ _. S.last_failed shelf.new ≡ S.last_failed shelf.old) }
    ensures held_stays { IsTrue S.tells → SameContents (S.holds shelf.old) (S.holds shelf.new) }
    ensures read_faults_never_fall { S.read_faults shelf.old ≤ S.read_faults shelf.new }
    ensures write_faults_stay { S.write_faults shelf.new ≡ S.write_faults shelf.old }
{
    let mut held = Vec::new(alloc);
    'paths: for at in 0..paths.len() {
        match read_one(alloc, shelf, paths[at].as_slice()) {
            Ok(bytes) => {
                let Ok(()) = held.push(bytes) else {
                    return Err(ReadingStop::Memory);
                };
            }
            Err(ReadStop::Failed) => return Err(ReadingStop::FailedAt(at)),
            Err(ReadStop::Memory) => return Err(ReadingStop::Memory),
        }
    }
    Ok(held)
}

/// What a shelf holds at a path: the bytes, up to one more than a file may have.
fn read_one<S: Shelf>(alloc: Global, shelf: &mut S, path: &[u8]) -> Result<Option<Text>, ReadStop>
    ensures contents { IsTrue S.tells
        → IfOk result (λ held. held ≡ cut (S.holds shelf.old path.now)) }
    ensures cut { IfOk result (λ held. held ≡ cut held) }
    ensures failed_only { OnOneFailed result
        (Rose (S.read_faults shelf.old) (S.read_faults shelf.new)) }
    ensures names_failed { IsTrue S.tells_failed
        → OnOneFailed result (S.last_failed shelf.new ≡ path.now) }
    ensures none_failed { IsTrue S.tells_failed
        → IfOk result (λ _. S.last_failed shelf.new ≡ S.last_failed shelf.old) }
    ensures held_stays { IsTrue S.tells → SameContents (S.holds shelf.old) (S.holds shelf.new) }
    ensures read_faults_never_fall { S.read_faults shelf.old ≤ S.read_faults shelf.new }
    ensures write_faults_stay { S.write_faults shelf.new ≡ S.write_faults shelf.old }
{
    let mut bytes = Vec::new(alloc);
    match shelf.read(path, file_limit() + 1, &mut bytes) {
        Ok(Found::Found) => Ok(Some(Text::from_vec(bytes))),
        Ok(Found::Absent) => Ok(None),
        Err(stop) => Err(stop),
    }
}
