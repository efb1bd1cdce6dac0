//! A line of a file, and what ends it.

ghost use Rattle.std.specs.Prelude.{◌≡◌, ◌++◌, OnOk, OnErr};
ghost use Rattle.ucd_points.specs.Lines.{item_bytes, ending_bytes};
ghost use Rattle.ucd_lines.specs.Items.{item_of, ending_of};

use ucd_points::{Memory, Text};

/// What ends a line. UAX #44, section 4.2.
#[derive(Clone, Copy, Debug, PartialEq, Eq)]
pub enum Ending {
    /// Nothing. Only the last line of a file has none.
    None,
    /// LF.
    Lf,
    /// CR LF.
    CrLf,
}

/// A line of a file: its content without what ends it, and what ends it. A CR that no LF follows belongs to the
/// content, and so does a CR before the CR of CR LF. UAX #44, section 4.2.
#[derive(Clone, Copy, Debug, PartialEq, Eq)]
pub struct Item<'a> {
    /// Bytes without LF.
    pub content: &'a [u8],
    /// What stands behind the content in the file.
    pub ending: Ending,
}

/// The bytes of an ending.
fn bytes_of(ending: Ending) -> &'static [u8]
    ensures { result.now ≡ ending_bytes (ending_of ending) }
{
    match ending {
        Ending::None => b"",
        Ending::Lf => b"\n",
        Ending::CrLf => b"\r\n",
    }
}

/// Appends a line's content and ending. UAX #44, section 4.2.
///
/// - `Memory`: memory ran out. The text stays as it was.
pub fn join(item: Item<'_>, into: &mut Text) -> Result<(), Memory>
    ensures ok { OnOk result (into.new ≡ into.old ++ item_bytes (item_of item.entry)) }
    ensures err { OnErr result (into.new ≡ into.old) }
{
    let len = into.len();
    into.append(item.content)?;
    let ended = into.append(bytes_of(item.ending));
    if ended.is_err() {
        into.truncate(len);
    }
    ended
}
