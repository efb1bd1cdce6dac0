//! Reads mappings: code points between white space. UAX #44, section 4.2.

ghost use Rattle.std.specs.Prelude.{◌≡◌, ◌<◌, ◌≤◌, ◌∷◌, [], length, IfOk};
ghost use Rattle.std.specs.List.{position_or_len, before_first, after_first};
ghost use Rattle.ucd_points.specs.Lines.{is_blank};
ghost use Rattle.ucd_facts.specs.Mappings.{mapping_of, words};
ghost use Rattle.source_rows.specs.DataFaults.{at_least_one};

use std::alloc::Global;
use std::marker::Model;
use ucd_facts::{Memory, Point, Points};
use ucd_lines::{hex, is_blank};

/// The greatest number of code points in a mapping.
const LIMIT: usize = 64;

/// The place of the first white space, or the length of the text if there is none.
fn first_blank(text: &[u8]) -> usize
    ensures place { result ≡ position_or_len is_blank text.now }
    ensures within { result ≤ length text.now }
{
    for (i, b) in text.iter().enumerate() {
        if is_blank(*b) {
            return i;
        }
    }
    text.len()
}

/// What stands before the first white space, and what stands behind it.
pub fn cut_at_first_blank(text: &[u8]) -> (&[u8], &[u8])
    requires { 0 < length text.now }
    ensures before { result.0.now ≡ before_first is_blank text.now }
    ensures after { result.1.now ≡ after_first is_blank text.now }
    ensures shorter { length result.1.now < length text.now }
{
    let at = first_blank(text);
    if at == text.len() {
        return (text, &[]);
    }
    (&text[..at], &text[at + 1..])
}

/// The first word and the text behind it.
fn next_word(text: &[u8]) -> (&[u8], &[u8])
    requires { 0 < length (words text.now) }
    ensures { words text.now ≡ result.0.now ∷ words result.1.now }
{
    let mut rest = text;
    'words: while !rest.is_empty() {
        let (word, behind) = cut_at_first_blank(rest);
        if !word.is_empty() {
            return (word, behind);
        }
        rest = behind;
    }
    unreachable!()
}

/// The code points of a mapping that are left, in order, as they stand in their line. Contracts see their list.
#[derive(Drop)]
pub struct Mapping<'a> {
    /// The text of the words that are left.
    text: &'a [u8],
    /// How many words are left.
    count: usize,
}

impl<'a> Model for Mapping<'a> {
    ghost use Rattle.std.specs.Prelude.{ℕ, List};
    ghost use Rattle.source_rows.specs.Mappings.{HasPoints, points_in};

    ghost Value = { List ℕ };

    ghost view = { λ m. points_in m.text.now };

    ghost invariant = { λ m. HasPoints m.text.now m.count };
}

impl<'a> Mapping<'a> {
    /// The mapping without a code point.
    #[tactic(auto, unfolding(ucd_facts::specs::Mappings::words))]
    pub fn none() -> Mapping<'a>
        ensures { result ≡ [] }
    {
        Mapping {
            text: &[],
            count: 0,
        }
    }

    /// How many code points there are.
    pub fn len(&self) -> usize
        ensures { result ≡ length self.now }
    {
        self.count
    }

    /// A copy of the mapping: it has the same code points, and stands on the same text.
    pub fn duplicate(&self) -> Mapping<'a>
        ensures { result ≡ self.now }
    {
        Mapping {
            text: self.text,
            count: self.count,
        }
    }

    /// A copy of the code points.
    ///
    /// - `Memory`: memory ran out.
    pub fn copied(self, alloc: Global) -> Result<Points, Memory>
        ensures { IfOk result (λ points. points ≡ self.entry) }
    {
        let mut points = Vec::with_capacity(alloc, self.len())?;
        'points: for point in self {
            points.push(point)?;
        }
        Ok(Points::from_vec(points))
    }
}

impl<'a> Iterator for Mapping<'a> {
    ghost use Rattle.std.specs.Iterator.{YieldsFirst, item_count};

    type Item = Point;

    ghost next_gives = { YieldsFirst (λ rest. rest) };

    ghost remaining = { item_count (λ rest. rest) };

    fn next(&mut self) -> Option<Point> {
        if self.count == 0 {
            return None;
        }
        let (word, behind) = next_word(self.text);
        self.text = behind;
        self.count -= 1;
        hex(word)
    }
}

/// The mapping that the words of a text spell. `None` if a word is no code point, or if there are more than 64 words.
pub fn mapping_of(text: &[u8]) -> Option<Mapping<'_>>
    ensures { result ≡ mapping_of text.now }
{
    let mut count = 0;
    let mut rest = text;
    'words: while !rest.is_empty() {
        let (word, behind) = cut_at_first_blank(rest);
        rest = behind;
        if word.is_empty() {
            continue;
        }
        let Some(_) = hex(word) else {
            return None;
        };
        if count == LIMIT {
            return None;
        }
        count += 1;
    }
    Some(Mapping { text, count })
}

/// The mapping of one code point or more that the words of a text spell. `None` if a word is no code point, if there are no
/// words, or if there are more than 64 words.
pub fn nonempty_mapping_of(text: &[u8]) -> Option<Mapping<'_>>
    ensures { result ≡ at_least_one (mapping_of text.now) }
{
    let mapping = mapping_of(text)?;
    if mapping.len() == 0 {
        return None;
    }
    Some(mapping)
}
