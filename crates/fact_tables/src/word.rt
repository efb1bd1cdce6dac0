//! The packed word of a code point.
//!
//! | bits | what they say |
//! |---|---|
//! | 0 | 1: a row of UnicodeData.txt covers the point |
//! | 1 | 1: CompositionExclusions.txt covers it |
//! | 2 | 1: its Word_Break value is MidLetter, MidNumLet or Single_Quote |
//! | 3 to 7 | the place of its category in the order of `Category`, 0 to 29 |
//! | 8 to 15 | its combining class |
//! | 16 to 23 | its kind: 0 for `Plain`, 1 for `Canonical`, for `Compat` 2 and the tag's place in the order of `Tag` |
//! | 24 to 37 | its flags: bit 24 + i is the flag at place i of `Flag` |
//! | 38 to 63 | 0 |

ghost use Rattle.std.specs.Prelude.{◌≡◌, ◌/◌, ◌%◌};
ghost use Rattle.fact_tables.specs.Word.{assigned_of_word, excluded_of_word, mid_word_of_word, category_of_word, class_of_word, kind_of_word, flags_of_word};

use ucd_facts::{Category, Flags, Kind};

/// The word of a code point without a row in any file: category `Cn`, and nothing else.
pub const NO_ROW: u64 = 8 * 29;

/// Whether a row of UnicodeData.txt covers the point.
pub fn is_assigned(word: u64) -> bool
    ensures { result ≡ assigned_of_word word }
{
    word % 2 == 1
}

/// Whether CompositionExclusions.txt covers the point.
pub fn is_excluded(word: u64) -> bool
    ensures { result ≡ excluded_of_word word }
{
    word / 2 % 2 == 1
}

/// Whether the Word_Break value of the point is MidLetter, MidNumLet or Single_Quote.
pub fn is_mid_word(word: u64) -> bool
    ensures { result ≡ mid_word_of_word word }
{
    word / 4 % 2 == 1
}

/// The category of the point.
pub fn category_of(word: u64) -> Category
    ensures { result ≡ category_of_word word }
{
    Category::at((word / 8 % 32) as usize).unwrap_or(Category::Cn)
}

/// The combining class of the point.
pub fn class_of(word: u64) -> u8
    ensures { result ≡ class_of_word word }
{
    (word / 256 % 256) as u8
}

/// The kind of the mapping of the point.
pub fn kind_of(word: u64) -> Kind
    ensures { result ≡ kind_of_word word }
{
    Kind::at((word / 65_536 % 256) as usize).unwrap_or(Kind::Plain)
}

/// The flags of the point.
pub fn flags_of(word: u64) -> Flags
    ensures { result ≡ flags_of_word word }
{
    Flags::of_bits((word / 16_777_216 % 16_384) as u32)
}
