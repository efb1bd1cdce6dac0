//! Loose matching of names. UAX #44, section 5.9.3, rule UAX44-LM3.

ghost use Rattle.std.specs.Prelude.{◌≡◌, ◌∷◌, [], true, false, drop, IfOk, MatchOption};
ghost use Rattle.std.specs.Str.{bytes_eq};
ghost use Rattle.property_aliases.specs.Loose.{has_is, is_kept, loose, to_lower};

use std::alloc::Global;
use ucd_facts::Memory;

/// Whether a byte of a name counts: all but white space, `_` and `-`.
fn counts_in_name(byte: u8) -> bool
    ensures { result ≡ is_kept byte }
{
    !matches!(byte, b'_' | b'-' | b' ' | 9..=13)
}

/// The small letter of an ASCII capital letter, and every other byte itself.
fn to_lower(byte: u8) -> u8
    ensures { result ≡ to_lower byte }
{
    byte.to_ascii_lowercase()
}

/// What counts of a name, in lower case. All of that counts.
///
/// - `Memory`: memory ran out.
pub(crate) fn loose(alloc: Global, name: &[u8]) -> Result<Vec<u8>, Memory>
    ensures key { IfOk result (λ key. key.items ≡ loose name.now) }
    ensures same { IfOk result (λ key. loose key.items ≡ loose name.now) }
{
    let mut key = Vec::new(alloc);
    'bytes: for byte in name {
        if counts_in_name(*byte) {
            key.push(to_lower(*byte))?;
        }
    }
    Ok(key)
}

/// The first byte of a name that counts, in lower case, and what stands behind it; `None` if none counts.
pub(crate) fn first_loose_byte(name: &[u8]) -> Option<(u8, &[u8])>
    ensures { MatchOption result (loose name.now ≡ [])
        (λ first. loose name.now ≡ first.0 ∷ loose first.1.now) }
{
    let mut rest = name;
    'bytes: while let [byte, behind @ ..] = rest {
        if counts_in_name(*byte) {
            return Some((to_lower(*byte), behind));
        }
        rest = behind;
    }
    None
}

/// Whether the same counts of two names.
pub(crate) fn is_loosely_same(first: &[u8], second: &[u8]) -> bool
    ensures { result ≡ bytes_eq (loose first.now) (loose second.now) }
{
    let (mut left, mut right) = (first, second);
    'bytes: while let Some((byte, behind)) = first_loose_byte(left) {
        match first_loose_byte(right) {
            Some((other, rest)) if byte == other => {
                left = behind;
                right = rest;
            }
            _ => return false,
        }
    }
    first_loose_byte(right).is_none()
}

/// What is behind `is`; `None` if what counts of a name does not begin so.
pub(crate) fn without_is(name: &[u8]) -> Option<&[u8]>
    ensures { MatchOption result (has_is (loose name.now) ≡ false)
        (λ rest. (has_is (loose name.now) ≡ true)
        × (loose rest.now ≡ drop 2 (loose name.now))) }
{
    let (first, behind) = first_loose_byte(name)?;
    let (second, rest) = first_loose_byte(behind)?;
    if first == b'i' && second == b's' {
        return Some(rest);
    }
    None
}
