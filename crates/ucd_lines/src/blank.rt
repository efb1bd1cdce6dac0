//! White space in a line: space and tab. UAX #44, section 4.2.

ghost use Rattle.std.specs.Prelude.{◌≡◌, ◌-◌, ◌≤◌, length};
ghost use Rattle.std.specs.List.{prefix_len, suffix_len};
ghost use Rattle.ucd_points.specs.Fields.{trim_start, trim_end, trim};
ghost use Rattle.ucd_points.specs.Lines.{is_blank};

/// Whether a byte is white space: space or tab.
#[inline]
pub fn is_blank(byte: u8) -> bool
    ensures { result ≡ is_blank byte }
{
    byte == b' ' || byte == b'\t'
}

/// How many bytes of white space the text begins with. Most fields begin with none, and are not searched.
pub fn leading_blanks(text: &[u8]) -> usize
    ensures count { result ≡ prefix_len is_blank text.now }
    ensures within { result ≤ length text.now }
{
    match text {
        [first, ..] if !is_blank(*first) => 0,
        _ => first_nonblank(text),
    }
}

/// The place of the first byte that is no white space, or the length of the text if there is none. White space is mostly short,
/// so it goes byte by byte.
fn first_nonblank(text: &[u8]) -> usize
    ensures place { result ≡ prefix_len is_blank text.now }
    ensures within { result ≤ length text.now }
{
    let mut at = 0;
    'blanks: while at < text.len() && is_blank(text[at]) {
        at += 1;
    }
    at
}

/// The text without white space at its beginning.
fn trim_start(text: &[u8]) -> &[u8]
    ensures { result.now ≡ trim_start text.now }
{
    &text[leading_blanks(text)..]
}

/// The place behind the last byte that is no white space, or 0 if there is none. It goes byte by byte too.
fn end_of_last_nonblank(text: &[u8]) -> usize
    ensures place { result ≡ length text.now - suffix_len is_blank text.now }
    ensures within { result ≤ length text.now }
{
    let mut end = text.len();
    'blanks: while end > 0 && is_blank(text[end - 1]) {
        end -= 1;
    }
    end
}

/// The text without white space at its end. Most fields end in none, and are not searched.
fn trim_end(text: &[u8]) -> &[u8]
    ensures { result.now ≡ trim_end text.now }
{
    match text {
        [.., last] if !is_blank(*last) => text,
        _ => &text[..end_of_last_nonblank(text)],
    }
}

/// The text without white space (space and tab) at both ends. UAX #44, section 4.2.
pub fn trim(text: &[u8]) -> &[u8]
    ensures { result.now ≡ trim text.now }
{
    trim_end(trim_start(text))
}
