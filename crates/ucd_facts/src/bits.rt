//! One bit of a word.

ghost use Rattle.std.specs.Prelude.{◌≡◌, ◌≢◌, ℕ, ◌<◌, ◌^◌};
ghost use Rattle.ucd_facts.specs.Sets.{has_bit};

/// Whether the bit at a place is 1. Places are counted from 0, the lowest bit, to 31.
pub fn has_bit(bits: u32, place: u32) -> bool
    requires { place < 32 }
    ensures { result ≡ has_bit bits place }
{
    (bits >> place) & 1 == 1
}

/// The word with the bit at a place put to 1 or to 0. Places are counted from 0, the lowest bit, to 31.
pub fn with_bit(bits: u32, place: u32, on: bool) -> u32
    requires { place < 32 }
    ensures put { has_bit result place ≡ on }
    ensures rest { (other : ℕ) → other < 32 → other ≢ place
        → has_bit result other ≡ has_bit bits other }
    ensures width { (width : ℕ) → bits < 2 ^ width → place < width → result < 2 ^ width }
{
    if on {
        bits | 1 << place
    } else {
        bits & !(1 << place)
    }
}
