//! The numbers of marks.

ghost use Rattle.std.specs.Prelude.{◌≡◌, ◌≢◌, ℕ, ◌<◌, ◌^◌, ⊤};
ghost use Rattle.std.specs.Fmt.{decimal};
ghost use Rattle.std.specs.Option.{MatchOption};
ghost use Rattle.script_pieces.specs.Decimals.{is_plain, number_of};

/// The number below 2^32 that a word writes in decimal digits with no zero to spare; `None` exactly if it writes none.
pub fn decimal_u32(word: &[u8]) -> Option<u32>
    ensures number { result ≡ number_of word.now }
    ensures written { MatchOption result ((n : ℕ) → n < 2 ^ 32 → word.now ≢ decimal n)
        (λ n. word.now ≡ decimal n) }
{
    written_number(word)
}

/// The number below 2^32 that a word writes in decimal digits with no zero to spare; `None` exactly if it writes none. The
/// contract tells the number only by the word that writes it.
fn written_number(word: &[u8]) -> Option<u32>
    ensures small { MatchOption result ⊤ (λ n. n < 2 ^ 32) }
    ensures written { MatchOption result ((n : ℕ) → n < 2 ^ 32 → word.now ≢ decimal n)
        (λ n. word.now ≡ decimal n) }
{
    if !has_no_spare_prefix(word) {
        return None;
    }
    let Ok(text) = str::from_utf8(word) else {
        return None;
    };
    text.parse::<u32>().ok()
}

/// Whether no `+` stands first, and a first 0 stands alone.
fn has_no_spare_prefix(word: &[u8]) -> bool
    ensures { result ≡ is_plain word.now }
{
    match word {
        [] => true,
        [first] => *first != b'+',
        [first, _, ..] => *first != b'+' && *first != b'0',
    }
}
