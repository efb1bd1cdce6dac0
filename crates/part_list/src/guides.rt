//! Bounds of blocks of parts, by which a search passes many parts at once.

ghost use Rattle.std.specs.Prelude.{ℕ, ◌<◌, ◌≤◌, length};
ghost use Rattle.std.specs.List.{All};
ghost use Rattle.part_list.specs.Guides.{Covers, CoversBut, RulesOut};
ghost use Rattle.part_list.specs.Parts.{part_at};
ghost use Rattle.part_list.specs.PartValues.{parts_next};
ghost use Rattle.part_list.specs.Reaches.{IsWithin};

use crate::part::Part;
use crate::reach::Reach;
use crate::seek::Seek;

/// How many parts a block has.
const WIDTH: usize = 16;

/// Bounds that the entries next of some parts are within.
fn joined_reach<T: Copy>(parts: &[Part<T>]) -> Reach
    ensures { (k : ℕ) → All (IsWithin result) (part_at (parts_next parts.now) k) }
{
    let mut reach = Reach::NONE;
    'parts: for part in parts {
        reach = reach.join(part.reach());
    }
    reach
}

/// Makes the bounds of all blocks anew. The last blocks have none if there is no memory for them.
pub fn renew_all<T: Copy>(guides: &mut Vec<Reach>, parts: &[Part<T>])
    ensures { Covers guides.new.items (parts_next parts.now) }
{
    guides.clear();
    let mut from = 0;
    'blocks: while from < parts.len() {
        let to = from.saturating_add(WIDTH).min(parts.len());
        let Ok(()) = guides.push(joined_reach(&parts[from..to])) else {
            return;
        };
        from = to;
    }
}

/// Makes the bounds of the block of a part anew, if it has some.
pub fn renew<T: Copy>(guides: &mut Vec<Reach>, parts: &[Part<T>], slot: usize)
    requires within { slot < length parts.now }
    requires others { CoversBut slot guides.old.items (parts_next parts.now) }
    ensures { Covers guides.new.items (parts_next parts.now) }
{
    let block = slot / WIDTH;
    if block < guides.len() {
        let from = slot - slot % WIDTH;
        let to = from.saturating_add(WIDTH).min(parts.len());
        guides[block] = joined_reach(&parts[from..to]);
    }
}

/// The next part from one on that is not in a block whose bounds tell that no entry there passes. It may be behind all.
pub fn next_candidate_slot<T: Copy, S: Seek<T>>(
    guides: &[Reach],
    parts: &[Part<T>],
    seek: &S,
    from: usize,
) -> usize
    requires { Covers guides.now (parts_next parts.now) }
    ensures from { from ≤ result }
    ensures ruled { RulesOut (S.passing seek.now) (parts_next parts.now) from result }
{
    if !from.is_multiple_of(WIDTH) {
        return from;
    }
    let mut slot = from;
    let mut block = from / WIDTH;
    'blocks: while slot < parts.len() && block < guides.len() && seek.skips(guides[block]) {
        let Some(next) = slot.checked_add(WIDTH) else {
            return slot;
        };
        slot = next;
        block += 1;
    }
    slot
}
