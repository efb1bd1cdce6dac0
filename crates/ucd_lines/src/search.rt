//! Finds a byte in a text, and cuts the text there.

ghost use Rattle.std.specs.Prelude.{◌≡◌, ◌≤◌, ◌==◌, length};
ghost use Rattle.std.specs.List.{position_or_len, before_first, after_first};

use bstr::ByteSlice;

/// The place of the first such byte, counted from 0, or the length of the text if there is none.
pub fn first_at(text: &[u8], byte: u8) -> usize
    ensures place { result ≡ position_or_len (λ b. b == byte) text.now }
    ensures within { result ≤ length text.now }
{
    match text.find_byte(byte) {
        Some(place) => place,
        None => text.len(),
    }
}

/// What stands before the first such byte, and what stands after it. If there is none, the whole text and nothing.
pub fn cut(text: &[u8], byte: u8) -> (&[u8], &[u8])
    ensures before { result.0.now ≡ before_first (λ b. b == byte) text.now }
    ensures after { result.1.now ≡ after_first (λ b. b == byte) text.now }
{
    let at = first_at(text, byte);
    if at == text.len() {
        return (text, &[]);
    }
    (&text[..at], &text[at + 1..])
}
