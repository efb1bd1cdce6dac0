//! The spans of each number, if missing rows give other values than the default.

ghost use Rattle.std.specs.Prelude.{◌≡◌, ◌<◌, ◌++◌, ◌||◌, ℕ, List, length, map, IfOk, OnOk};
ghost use Rattle.std.specs.List.{list_any};
ghost use Rattle.layered_table.specs.Layers.{puts};
ghost use Rattle.property_aliases.specs.Numbers.{AreValues};
ghost use Rattle.property_aliases.specs.Sources.{numbered};
ghost use Rattle.release_rows.specs.ValuesApart.{AreValuesApart};
ghost use Rattle.ucd_facts.specs.Facts.{within};
ghost use Rattle.ucd_facts.specs.Values.{value_at};
ghost use Rattle.ucd_facts.specs.declared.row.Row.{Row};
ghost use Rattle.unicodeset_eval.specs.LayeredRows.{is_other, layer_of, layers_of};
ghost use Rattle.unicodeset_eval.specs.Numbers.{bucket};
ghost use Rattle.unicodeset_eval.specs.Tests.{is_numbered};

use crate::numbers::{buckets, push_at};
use layered_table::{Layer, disjoint_layers};
use property_aliases::{FileValues, NumberedRow};
use std::alloc::Global;
use ucd_model::{Memory, Spans};

/// Whether a row has a number other than 0, that of the default.
pub(crate) fn has_value_beside_default(rows: &[NumberedRow]) -> bool
    ensures { result ≡ list_any is_other rows.now }
{
    rows.iter().any(|row| row.number > 0)
}

/// Puts rows as layers over the others.
///
/// - `Memory`: memory ran out.
fn push_layers(layers: &mut Vec<Layer>, rows: &[NumberedRow]) -> Result<(), Memory>
    ensures { OnOk result (layers.new.items ≡ layers.old.items ++ map layer_of rows.now) }
{
    'rows: for row in rows {
        layers.push(Layer {
            word: row.number as u64,
            span: row.span,
        })?;
    }
    Ok(())
}

/// The missing rows as layers, and over them the other rows, which hide them.
///
/// - `Memory`: memory ran out.
fn layers_of(alloc: Global, values: &FileValues) -> Result<Vec<Layer>, Memory>
    ensures { IfOk result (λ layers. layers.items ≡ layers_of values.now) }
{
    let mut layers = Vec::new(alloc);
    push_layers(&mut layers, values.missing())?;
    push_layers(&mut layers, values.rows())?;
    Ok(layers)
}

/// Puts the spans of layers into the lists with the numbers that are their words.
///
/// - `Memory`: memory ran out.
fn push_pieces(buckets: &mut Vec<Spans>, pieces: &[Layer]) -> Result<(), Memory>
    ensures len { OnOk result (length buckets.new.items ≡ length buckets.old.items) }
    ensures spans { OnOk result ((i c : ℕ) → i < length buckets.old.items
        → list_any (within c) (bucket buckets.new.items i)
        ≡ (list_any (within c) (bucket buckets.old.items i)
        || list_any (puts i c) pieces.now)) }
{
    'pieces: for piece in pieces {
        push_at(buckets, piece.word as usize, piece.span)?;
    }
    Ok(())
}

/// The spans of each number: those of its rows, and what no row covers if it is the number of the last missing row there.
///
/// - `Memory`: memory ran out.
pub(crate) fn layered_spans(alloc: Global, values: &FileValues) -> Result<Vec<Spans>, Memory>
    ensures { IfOk result (λ buckets. (default : List ℕ) (rows : List Row)
        → AreValues values.now (numbered default rows) rows → AreValuesApart rows → (i c : ℕ)
        → c < 1114112 → list_any (within c) (bucket buckets.items i)
        ≡ is_numbered (numbered default rows) i (value_at rows default c)) }
{
    let layers = layers_of(alloc, values)?;
    let pieces = disjoint_layers(alloc, 0, layers.as_slice())?;
    let mut buckets = buckets(alloc, values.count())?;
    push_pieces(&mut buckets, pieces.as_slice())?;
    Ok(buckets)
}
