//! Line ends inside the bytes of a row. UAX #44, section 4.2.

ghost use Rattle.std.specs.Prelude.{◌≡◌};
ghost use Rattle.ucd_points.specs.Lines.{without_return, holds_line_feed};

use ucd_lines::first_at;

/// Whether a LF is among the bytes. It is looked for in several bytes at once.
pub fn holds_line_feed(bytes: &[u8]) -> bool
    ensures { result ≡ holds_line_feed bytes.now }
{
    first_at(bytes, b'\n') < bytes.len()
}

/// The text without one CR at its end.
pub fn without_return(text: &[u8]) -> &[u8]
    ensures { result.now ≡ without_return text.now }
{
    match text {
        [content @ .., b'\r'] => content,
        _ => text,
    }
}
