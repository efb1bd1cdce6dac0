//! Bytes at the front of a text, and words in it.

ghost use Rattle.std.specs.Prelude.{◌≡◌, ◌<◌, ◌≤◌, ◌+◌, length, drop, IfSome};
ghost use Rattle.bstr.specs.Utf8.{decoded};
ghost use Rattle.unicodeset_parser.specs.Bytes.{begins_with, found_at};

use bstr::{ByteSlice, decode_utf8};

/// Whether the first byte is this one.
#[inline]
pub(crate) fn begins_with(text: &[u8], byte: u8) -> bool
    ensures { result ≡ begins_with byte text.now }
{
    match text {
        [] => false,
        [first, ..] => *first == byte,
    }
}

/// What stands behind so many bytes; nothing if there are fewer.
#[inline]
pub(crate) fn bytes_behind(text: &[u8], count: usize) -> &[u8]
    ensures { result.now ≡ drop count text.now }
{
    if count < text.len() {
        &text[count..]
    } else {
        &[]
    }
}

/// The first place of a word in the text.
pub(crate) fn found_at(text: &[u8], word: &[u8]) -> Option<usize>
    requires { 0 < length word.now }
    ensures place { result ≡ found_at word.now text.now }
    ensures within { IfSome result (λ place. place + length word.now ≤ length text.now) }
{
    text.find(word)
}

/// The first character and how many bytes it takes. There is none in an empty text.
#[inline]
pub(crate) fn first_char(text: &[u8]) -> (Option<char>, usize)
    ensures char { result.0 ≡ (decoded text.now).char }
    ensures size { result.1 ≡ (decoded text.now).size }
    ensures within { result.1 ≤ length text.now }
    ensures small { result.1 ≤ 4 }
{
    decode_utf8(text)
}
