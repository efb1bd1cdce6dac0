//! The number that a release is made of.

ghost use Rattle.std.specs.Prelude.{◌≡◌, ◌≤◌, ◌∷◌, []};
ghost use Rattle.ucd_points.specs.Fields.{is_digit};
ghost use Rattle.ucdshop_jobs.specs.Making.{limited, number_of, IsInRange};

/// The number from 1 to 50 that one or two digits write without a leading zero; `None` for all other words.
pub fn number_of(word: &[u8]) -> Option<u8>
    ensures number { result ≡ number_of word.now }
    ensures range { IsInRange result }
{
    match word {
        [ones] => number_of_one(*ones),
        [tens, ones] => number_of_two(*tens, *ones),
        _ => None,
    }
}

/// The number that a digit writes.
fn number_of_one(ones: u8) -> Option<u8>
    ensures number { result ≡ number_of (ones ∷ []) }
    ensures range { IsInRange result }
{
    if is_digit(ones) {
        if_allowed(ones - b'0')
    } else {
        None
    }
}

/// The number that two digits write, of which the first is not zero.
fn number_of_two(tens: u8, ones: u8) -> Option<u8>
    ensures number { result ≡ number_of (tens ∷ ones ∷ []) }
    ensures range { IsInRange result }
{
    if is_digit(tens) && is_digit(ones) && tens > b'0' {
        if_allowed(10 * (tens - b'0') + (ones - b'0'))
    } else {
        None
    }
}

/// Whether a byte is a decimal digit.
fn is_digit(byte: u8) -> bool
    ensures { result ≡ is_digit byte }
{
    (b'0'..=b'9').contains(&byte)
}

/// The number, if it is from 1 to 50.
fn if_allowed(number: u8) -> Option<u8>
    ensures number { result ≡ limited number }
    ensures range { IsInRange result }
{
    if (1..=50).contains(&number) {
        Some(number)
    } else {
        None
    }
}
