//! Reading and judging the release in a folder.

ghost use Rattle.std.specs.Prelude.{◌≡◌, ◌∷◌, [], IfOk};
ghost use Rattle.edit_session.specs.Benches.{HasNothingPrepared};
ghost use Rattle.run_endings.specs.Planning.{OnRefused, OnlyRead, UnreadAs};
ghost use Rattle.run_endings.specs.Promises.{shelf_seen};
ghost use Rattle.run_inputs.specs.Paths.{sources_in};
ghost use Rattle.ucdshop_more_core.specs.Chaining.{IsRefused, OpensAs};

use edit_session::Bench;
use run_endings::{Stop, read_inputs};
use run_inputs::{open_folder, source_paths};
use shelf_io::Shelf;
use std::alloc::Global;
use std::sync::ledger::Ledger;
use ucd_model::Steps;

/// The bench over the release in a folder: its nine source files are read, and then judged.
///
/// - `Refused(line)`: a file is absent, too long, or breaks a rule, or a code point breaks a rule of a valid release.
/// - `ReadFailed(line)`: a file could not be read.
/// - `Memory`: memory ran out.
pub fn read_folder<S: Shelf, L: Ledger>(
    alloc: Global,
    folder: &[u8],
    shelf: &mut S,
    steps: &mut Steps<L>,
) -> Result<Bench, Stop>
    ensures opened { IfOk result (λ bench. OpensAs folder.now bench S.tells (S.holds shelf.old)) }
    ensures still { IfOk result HasNothingPrepared }
    ensures refused { OnRefused result
        (λ line. IsRefused folder.now line S.tells (S.holds shelf.old)) }
    ensures unread { UnreadAs result (sources_in folder.now)
        (shelf_seen S.Shelf shelf.old shelf.new) }
    ensures only_read { OnlyRead (shelf_seen S.Shelf shelf.old shelf.new) }
{
    let paths = source_paths(alloc, folder)?;
    let mut held = read_inputs(alloc, shelf, paths.as_slice())?;
    open_folder(alloc, folder, &mut held, 0, steps)
}
