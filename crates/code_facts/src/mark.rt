//! The marks that rows of other files than UnicodeData.txt put on code points.

ghost use Rattle.std.specs.Prelude.{◌≡◌, ◌+◌, ◌<◌, ◌^◌, get_or, length};
ghost use Rattle.ucd_facts.specs.Sets.{flag_place};
ghost use Rattle.ucd_facts.specs.Values.{is_mid_word};
ghost use Rattle.code_facts.specs.Marks.{all_marks, word_of};

use ucd_facts::{FLAGS, Flag};

/// A mark of a code point.
#[derive(Clone, Copy)]
pub enum Mark {
    /// It is excluded from composition.
    Excluded,
    /// It stands in the middle of a word: MidLetter, MidNumLet or Single_Quote.
    MidWord,
    /// It has a property of PropList.txt.
    Flagged(Flag),
}

/// How many marks there are.
pub const MARKS: usize = 2 + FLAGS.len();

impl Mark {
    /// The mark at a place: the flags come last, in the order of their places.
    pub fn at(place: usize) -> Mark
        requires { place < length all_marks }
        ensures { result ≡ get_or all_marks place (Mark.Excluded) }
    {
        match place {
            0 => Mark::Excluded,
            1 => Mark::MidWord,
            _ => Mark::Flagged(FLAGS[place - 2]),
        }
    }

    /// The bit of the mark in the word: bit 1, 2, or one of those of the flags, from 24 on.
    pub fn word_bit(self) -> u64
        ensures value { result ≡ word_of self }
        ensures below { result < 2 ^ 48 }
    {
        match self {
            Mark::Excluded => 2,
            Mark::MidWord => 4,
            Mark::Flagged(flag) => flag_bit(flag),
        }
    }
}

/// The bit of a flag in the word.
fn flag_bit(flag: Flag) -> u64
    ensures value { result ≡ 2 ^ (24 + flag_place flag) }
    ensures below { result < 2 ^ 48 }
{
    1 << (24 + flag as u32)
}

/// Whether a value of Word_Break is MidLetter, MidNumLet or Single_Quote.
pub fn is_mid_word_value(value: &[u8]) -> bool
    ensures { result ≡ is_mid_word value.now }
{
    value == b"MidLetter".as_slice()
        || value == b"MidNumLet".as_slice()
        || value == b"Single_Quote".as_slice()
}
