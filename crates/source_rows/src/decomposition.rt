//! Reads field 5 of UnicodeData.txt. UAX #44, section 5.7.3.

ghost use Rattle.std.specs.Prelude.{◌≡◌};
ghost use Rattle.ucd_facts.specs.Names.{tag_of, positional_tag_of, shaped_tag_of, sized_tag_of, other_tag_of};
ghost use Rattle.source_rows.specs.DataFaults.{decomposition_or_fault, canonical_or_fault, compat_or_fault};

use crate::fault::RowFault;
use crate::mapping::{Mapping, nonempty_mapping_of};
use ucd_facts::{Kind, Tag};
use ucd_lines::cut;

/// The greatest number of code points in a canonical mapping.
const CANONICAL: usize = 2;

/// The kind and the mapping of a decomposition. UAX #44, section 5.7.3.
#[derive(Drop)]
pub struct Decomposition<'a> {
    /// The kind; `Plain` if the field is empty.
    pub kind: Kind,
    /// The mapping: one or two code points for `Canonical`, 1 to 64 with a tag, and none for `Plain`.
    pub mapping: Mapping<'a>,
}

#[tactic(auto, unfolding(ucd_facts::specs::Names::positional_tag_of))]
fn positional_tag_of(text: &[u8]) -> Option<Tag>
    ensures { result ≡ positional_tag_of text.now }
{
    if text == b"<initial".as_slice() {
        return Some(Tag::Initial);
    }
    if text == b"<medial".as_slice() {
        return Some(Tag::Medial);
    }
    if text == b"<final".as_slice() {
        return Some(Tag::Final);
    }
    if text == b"<isolated".as_slice() {
        return Some(Tag::Isolated);
    }
    None
}

#[tactic(auto, unfolding(ucd_facts::specs::Names::shaped_tag_of))]
fn shaped_tag_of(text: &[u8]) -> Option<Tag>
    ensures { result ≡ shaped_tag_of text.now }
{
    if text == b"<circle".as_slice() {
        return Some(Tag::Circle);
    }
    if text == b"<super".as_slice() {
        return Some(Tag::Super);
    }
    if text == b"<sub".as_slice() {
        return Some(Tag::Sub);
    }
    if text == b"<vertical".as_slice() {
        return Some(Tag::Vertical);
    }
    None
}

#[tactic(auto, unfolding(ucd_facts::specs::Names::sized_tag_of))]
fn sized_tag_of(text: &[u8]) -> Option<Tag>
    ensures { result ≡ sized_tag_of text.now }
{
    if text == b"<wide".as_slice() {
        return Some(Tag::Wide);
    }
    if text == b"<narrow".as_slice() {
        return Some(Tag::Narrow);
    }
    if text == b"<small".as_slice() {
        return Some(Tag::Small);
    }
    if text == b"<square".as_slice() {
        return Some(Tag::Square);
    }
    None
}

#[tactic(auto, unfolding(ucd_facts::specs::Names::other_tag_of))]
fn other_tag_of(text: &[u8]) -> Option<Tag>
    ensures { result ≡ other_tag_of text.now }
{
    if text == b"<font".as_slice() {
        return Some(Tag::Font);
    }
    if text == b"<noBreak".as_slice() {
        return Some(Tag::NoBreak);
    }
    if text == b"<fraction".as_slice() {
        return Some(Tag::Fraction);
    }
    if text == b"<compat".as_slice() {
        return Some(Tag::Compat);
    }
    None
}

/// The tag that a text names, `<` before its name and no `>` behind it.
fn tag_of(text: &[u8]) -> Option<Tag>
    ensures { result ≡ tag_of text.now }
{
    if let Some(tag) = positional_tag_of(text) {
        return Some(tag);
    }
    if let Some(tag) = shaped_tag_of(text) {
        return Some(tag);
    }
    if let Some(tag) = sized_tag_of(text) {
        return Some(tag);
    }
    other_tag_of(text)
}

/// A tag and a mapping.
fn read_compat(field: &[u8]) -> Result<Decomposition<'_>, RowFault>
    ensures { result ≡ compat_or_fault field.now }
{
    let (tag, behind) = cut(field, b'>');
    let Some(tag) = tag_of(tag) else {
        return Err(RowFault::G07);
    };
    let Some(mapping) = nonempty_mapping_of(behind) else {
        return Err(RowFault::G07);
    };
    Ok(Decomposition {
        kind: Kind::Compat(tag),
        mapping,
    })
}

/// A mapping without a tag.
fn read_canonical(field: &[u8]) -> Result<Decomposition<'_>, RowFault>
    ensures { result ≡ canonical_or_fault field.now }
{
    let Some(mapping) = nonempty_mapping_of(field) else {
        return Err(RowFault::G07);
    };
    if mapping.len() > CANONICAL {
        return Err(RowFault::G10);
    }
    Ok(Decomposition {
        kind: Kind::Canonical,
        mapping,
    })
}

/// The decomposition of a field 5.
///
/// - `G07`: the tag is unknown, one of the words is no code point, or there are none or more than 64 of them.
/// - `G10`: there is no tag, and there are 3 to 64 code points.
#[inline(always)]
#[tactic(auto, unfolding(crate::specs::DataFaults::decomposition_or_fault))]
pub fn read_decomposition(field: &[u8]) -> Result<Decomposition<'_>, RowFault>
    ensures { result ≡ decomposition_or_fault field.now }
{
    match field {
        [] => Ok(Decomposition {
            kind: Kind::Plain,
            mapping: Mapping::none(),
        }),
        [b'<', ..] => read_compat(field),
        _ => read_canonical(field),
    }
}
