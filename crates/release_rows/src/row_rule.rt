//! The rule that a row breaks against the rows above it.

ghost use Rattle.std.specs.Prelude.{◌≡◌, ◌≤◌, List, Option, IfOk};
ghost use Rattle.std.specs.Option.{IfSome};
ghost use Rattle.ucd_facts.specs.declared.row.Row.{Row as RowValue};
ghost use Rattle.release_rows.specs.LoadedRows.{EntersSome};
ghost use Rattle.release_rows.specs.Keys.{is_back, last_start};
ghost use Rattle.release_rows.specs.Loading.{rule_by};
ghost use Rattle.release_rows.specs.Progress.{HoldsRows, TakesRow};

use crate::conflict::Conflict;
use crate::extents::Extents;
use crate::load_stop::LoadRule;
use crate::loaded_row::LoadedRow;
use ucd_facts::{Memory, SourceFile};

/// Whether a code point is less than the first one of the row before, in a file where that is a fault.
fn breaks_ascent(file: SourceFile, before: Option<u32>, code: u32) -> bool
    ensures { result ≡ is_back file before code }
{
    match (file, before) {
        (SourceFile::UnicodeData, Some(before)) => code < before,
        _ => false,
    }
}

/// The rule of keys and spans; K5 if there is none and the row falls back.
fn rule_by(conflict: Option<Conflict>, back: bool) -> Option<LoadRule>
    ensures { result ≡ rule_by conflict back }
{
    match conflict {
        Some(Conflict::K1) => Some(LoadRule::K1),
        Some(Conflict::K4) => Some(LoadRule::K4),
        None if back => Some(LoadRule::K5),
        None => None,
    }
}

/// Takes up the key of a row, if there is one, behind rows whose last one begins here; or answers the first rule that the
/// row breaks against them.
///
/// - `Memory`: memory ran out.
pub fn take_row(
    keys: &mut Extents,
    file: SourceFile,
    before: Option<u32>,
    entry: Option<LoadedRow>,
) -> Result<Option<LoadRule>, Memory>
    requires ordered { IfSome entry (λ e. e.place.code ≤ e.last) }
    ensures { (above : List RowValue) (row : Option RowValue) → HoldsRows file above keys.old
        → before ≡ last_start above → EntersSome file entry row
        → IfOk result (TakesRow file above row keys.new) }
{
    let Some(LoadedRow { place, last, .. }) = entry else {
        return Ok(None);
    };
    let back = breaks_ascent(file, before, place.code);
    let conflict = keys.take(place, last)?;
    Ok(rule_by(conflict, back))
}
