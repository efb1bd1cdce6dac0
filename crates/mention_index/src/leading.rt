//! The code points that one comes to from one code point.

ghost use Rattle.std.specs.Prelude.{◌≡◌, ℕ, ◌<◌, ◌⊎◌, true, OnOk};
ghost use Rattle.number_sets.specs.Keys.{has};
ghost use Rattle.ucd_model.specs.Sameness.{is_in};
ghost use Rattle.mention_index.specs.Steps.{key};

use number_sets::KeySet;
use ucd_model::{Memory, Point};

/// How many numbers there are from the key of one code point to that of the next one.
const ROOM: u64 = 2_097_152;

/// Puts the code points to which there is a step from this one behind others.
///
/// - `Memory`: memory ran out. None that was there is lost, and some of these may stand behind them.
pub fn push_mentioning(steps: &KeySet, x: Point, pending: &mut Vec<Point>) -> Result<(), Memory>
    ensures grows { (k : ℕ) → is_in pending.old.items k ≡ true → is_in pending.new.items k ≡ true }
    ensures only { (d : ℕ) → is_in pending.new.items d ≡ true
        → (is_in pending.old.items d ≡ true) ⊎ ((d < 1114112) × (has steps.now (key x d) ≡ true)) }
    ensures led { OnOk result ((d : ℕ) → d < 1114112 → has steps.now (key x d) ≡ true
        → is_in pending.new.items d ≡ true) }
{
    let base = u64::from(x.number()) * ROOM;
    let mut start = base;
    'steps: while let Some(step) = steps.next(start) {
        let d = step - base;
        if d >= 1_114_112 {
            return Ok(());
        }
        pending.push(Point::at(d as u32))?;
        start = step + 1;
    }
    Ok(())
}
