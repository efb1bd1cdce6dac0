//! Cuts a text into its lines, and a line into its fields. UAX #44, section 4.2.

ghost use Rattle.std.specs.Prelude.{◌≡◌, ◌+◌, ◌≤◌, length, map};
ghost use Rattle.ucd_points.specs.Lines.{items_of, joined, contents};
ghost use Rattle.ucd_points.specs.Fields.{fields, uncommented};

use crate::field_iter::Fields;
use crate::item_iter::Items;
use crate::search::cut;
use crate::trivia::missing_rest;
use ucd_points::SourceFile;

/// The lines of a text, in order and without a copy. A line ends after LF; its ending is LF, CR LF, or none at the
/// end of the text. The empty text has no line. Contents and endings put together give the bytes.
/// UAX #44, section 4.2.
#[tactic(auto, using(crate::proofs::Lines::items_join, crate::proofs::Lines::contents_are_items, crate::proofs::Lines::few_items))]
pub fn items(bytes: &[u8]) -> Items<'_>
    ensures lines { result ≡ items_of bytes.now }
    ensures joined { joined result ≡ bytes.now }
    ensures contents { map (λ item. item.content) result ≡ contents bytes.now }
    ensures few { length result ≤ length bytes.now }
{
    Items::new(bytes)
}

/// The fields of a line, in order and without a copy: what stands between the `;`, each without white space (space and
/// tab) around it. In all files but UnicodeData.txt a comment, from the first `#` on, is cut off first; but what stands
/// behind the `# @missing:` of such a line of Scripts.txt or WordBreakProperty.txt is read.
/// There is always at least one field. UAX #44, section 4.2.
#[tactic(auto, using(crate::proofs::FieldCuts::few_fields), unfolding(ucd_points::specs::Fields::fields))]
pub fn fields(file: SourceFile, content: &[u8]) -> Fields<'_>
    ensures fields { result ≡ fields file content.now }
    ensures few { length result ≤ length content.now + 1 }
{
    Fields::new(uncommented(file, content))
}

/// The line without its comment; for a line `# @missing:`, what stands behind that without its comment. UnicodeData.txt
/// has no comments.
fn uncommented(file: SourceFile, content: &[u8]) -> &[u8]
    ensures text { result.now ≡ uncommented file content.now }
    ensures shorter { length result.now ≤ length content.now }
{
    match file {
        SourceFile::UnicodeData => content,
        _ => match missing_rest(file, content) {
            Some(rest) => cut(rest, b'#').0,
            None => cut(content, b'#').0,
        },
    }
}
