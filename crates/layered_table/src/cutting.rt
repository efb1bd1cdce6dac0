//! Layers that do not overlap.

ghost use Rattle.std.specs.Prelude.{◌≡◌, ℕ, ◌<◌, nat_eq, IfOk};
ghost use Rattle.std.specs.List.{list_any};
ghost use Rattle.layered_table.specs.Layers.{puts, word_at};

use crate::painting::{Layer, table_of_layers};
use range_table::Stretches;
use std::alloc::Global;
use ucd_points::{Memory, Point, Span};

/// The stretches of equal words of a table, as layers.
///
/// - `Memory`: memory ran out.
fn stretches_of<T: Stretches<u64>>(alloc: Global, table: &T) -> Result<Vec<Layer>, Memory>
    ensures { IfOk result (λ pieces. (word c : ℕ) → c < 1114112
        → list_any (puts word c) pieces.items ≡ nat_eq (T.now table.now c) word) }
{
    let mut pieces = Vec::new(alloc);
    let mut at = 0;
    'stretches: while let Some(lo) = Point::new(at) {
        let hi = table.last_of_stretch(lo);
        let word = table.get(lo);
        let span = Span { lo, hi };
        pieces.push(Layer { word, span })?;
        at = hi.number() + 1;
    }
    Ok(pieces)
}

/// Layers that cover each code point with one word: that of the last of the given layers that covers it, and `base` if
/// none does.
///
/// - `Memory`: memory ran out.
pub fn disjoint_layers(alloc: Global, base: u64, layers: &[Layer]) -> Result<Vec<Layer>, Memory>
    ensures { IfOk result (λ pieces. (word c : ℕ) → c < 1114112
        → list_any (puts word c) pieces.items ≡ nat_eq (word_at layers.now base c) word) }
{
    let table = table_of_layers(alloc, base, layers)?;
    stretches_of(alloc, &table)
}
