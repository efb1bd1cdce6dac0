//! Reads the conditions of a casing: words between white space. UAX #44, section 4.2.

ghost use Rattle.std.specs.Prelude.{◌≡◌, IfOk, OnOk};
ghost use Rattle.std.specs.List.{list_all};
ghost use Rattle.ucd_facts.specs.Mappings.{conditions_of, spaced_words, is_word_byte, is_condition_byte};
ghost use Rattle.source_rows.specs.Fields.{with_word};
ghost use Rattle.source_rows.specs.OtherFaults.{is_empty};

use crate::key_names::compare_spaced;
use crate::mapping::cut_at_first_blank;
use std::alloc::Global;
use std::marker::Model;
use ucd_facts::{Memory, Text};
use ucd_lines::is_blank;

/// Whether a byte may stand in the conditions: white space, or a byte from 21 to 7E.
fn is_condition_byte(byte: u8) -> bool
    ensures { result ≡ is_condition_byte byte }
{
    is_blank(byte) || (b'!'..=b'~').contains(&byte)
}

/// Whether each byte may stand in the conditions.
fn are_condition_bytes(text: &[u8]) -> bool
    ensures { result ≡ list_all is_condition_byte text.now }
{
    text.iter().all(|b| is_condition_byte(*b))
}

/// Puts a word at the end, behind a space if it is not the first one.
fn put_word(spaced: &mut Text, word: &[u8]) -> Result<(), Memory>
    ensures { OnOk result (spaced.new ≡ with_word spaced.old word.now) }
{
    if !spaced.as_slice().is_empty() {
        spaced.push(b' ')?;
    }
    spaced.append(word)
}

/// The words of a text with one space between them.
fn spaced_words(alloc: Global, text: &[u8]) -> Result<Text, Memory>
    ensures { IfOk result (λ spaced. spaced ≡ spaced_words text.now) }
{
    let mut spaced = Text::new(alloc);
    let mut rest = text;
    'words: while !rest.is_empty() {
        let (word, behind) = cut_at_first_blank(rest);
        rest = behind;
        if word.is_empty() {
            continue;
        }
        put_word(&mut spaced, word)?;
    }
    Ok(spaced)
}

/// The conditions of a casing as they stand in their line. Contracts see their words with one space between them.
#[derive(Drop)]
pub struct Conditions<'a> {
    text: &'a [u8],
}

impl<'a> Model for Conditions<'a> {
    ghost use Rattle.std.specs.Prelude.{ℕ, List};
    ghost use Rattle.ucd_facts.specs.Mappings.{spaced_words};

    ghost Value = { List ℕ };

    ghost view = { λ c. spaced_words c.text.now };
}

impl<'a> Conditions<'a> {
    /// Whether there are none.
    pub fn is_empty(&self) -> bool
        ensures { result ≡ is_empty self.now }
    {
        compare_spaced(b"", self.text).is_eq()
    }

    /// A copy of them, with one space between the words.
    ///
    /// - `Memory`: memory ran out.
    pub fn copied(self, alloc: Global) -> Result<Text, Memory>
        ensures { IfOk result (λ text. text ≡ self.entry) }
    {
        spaced_words(alloc, self.text)
    }
}

/// The conditions that a text holds. `None` if a byte may not stand in one.
#[tactic(auto, unfolding(ucd_facts::specs::Mappings::conditions_of))]
pub fn conditions_of(text: &[u8]) -> Option<Conditions<'_>>
    ensures { result ≡ conditions_of text.now }
{
    if !are_condition_bytes(text) {
        return None;
    }
    Some(Conditions { text })
}
