//! Hashes: numbers for the name of a group and for a key, by which one that no row has is told at once.

ghost use Rattle.std.specs.Prelude.{◌≡◌, ℕ, ◌+◌, ◌*◌, ◌%◌, ◌∷◌, List, take};
ghost use Rattle.ucd_facts.specs.Mappings.{spaced_words};
ghost use Rattle.source_rows.specs.KeyNames.{content_names};
ghost use Rattle.source_rows.specs.Keys.{condition_names};
ghost use Rattle.release_rows.specs.Noted.{group_hash, key_hash, hash_on, names_hash};

use crate::tag::field_at;
use source_rows::content_section;
use ucd_facts::{SourceFile, Text};
use ucd_lines::{Fields, fields, is_blank};

/// The hash with one more byte.
fn with_byte(hash: u32, byte: u8) -> u32
    ensures { result ≡ (hash * 2654435761 + byte + 1) % 4294967291 }
{
    let more = u64::from(hash) * 2_654_435_761 + u64::from(byte) + 1;
    (more % 4_294_967_291) as u32
}

/// The hash with more bytes.
fn with_bytes(hash: u32, bytes: &[u8]) -> u32
    ensures { result ≡ hash_on hash bytes.now }
{
    let mut hash = hash;
    'bytes: for byte in bytes {
        hash = with_byte(hash, *byte);
    }
    hash
}

/// The hash with one more name.
fn with_name(hash: u32, name: &[u8]) -> u32
    ensures { (names : List (List ℕ)) → names_hash result names
        ≡ names_hash hash (name.now ∷ names) }
{
    with_bytes(with_bytes(hash, name), b";")
}

/// The hash of a group of this name.
pub fn group_hash(group: &[u8]) -> u32
    ensures { result ≡ group_hash group.now }
{
    with_bytes(0, group)
}

/// The hash with more names.
fn with_names(hash: u32, names: &[Text]) -> u32
    ensures { result ≡ names_hash hash names.now }
{
    let mut hash = hash;
    'names: for name in names {
        hash = with_name(hash, name.as_slice());
    }
    hash
}

/// The hash with conditions as one more name: the words of a text, with one space between them. It stays as it is if there are no words.
fn with_conditions(hash: u32, text: &[u8]) -> u32
    ensures { result ≡ names_hash hash (condition_names (spaced_words text.now)) }
{
    let mut hash = hash;
    let mut begun = false;
    let mut gap = false;
    'bytes: for byte in text {
        if is_blank(*byte) {
            gap = begun;
        } else {
            if gap {
                hash = with_byte(hash, b' ');
            }
            hash = with_byte(hash, *byte);
            begun = true;
            gap = false;
        }
    }
    if begun {
        return with_byte(hash, b';');
    }
    hash
}

/// The hash of the first names of a list, as many as there are up to the count.
fn fields_hash(mut names: Fields<'_>, count: usize) -> u32
    ensures { result ≡ names_hash 0 (take count names.entry) }
{
    let mut hash = 0;
    let mut left = count;
    'names: while left > 0 {
        let Some(name) = names.next() else {
            return hash;
        };
        hash = with_name(hash, name);
        left -= 1;
    }
    hash
}

/// The hash of the names of a key in PropList.txt, and in the files whose keys are names alone; in SpecialCasing.txt that of its names behind
/// its code point; else 0.
pub fn key_hash(file: SourceFile, code: u32, names: &[Text]) -> u32
    ensures { result ≡ key_hash file code names.now }
{
    match file {
        SourceFile::PropList | SourceFile::PropertyAliases | SourceFile::PropertyValueAliases => {
            with_names(0, names)
        }
        SourceFile::SpecialCasing => with_names(code, names),
        _ => 0,
    }
}

/// The hash of the key of a row that begins with this code point and stands in this content of the file.
pub fn content_hash(file: SourceFile, code: u32, content: &[u8]) -> u32
    ensures { result ≡ key_hash file code (content_names file content.now) }
{
    match file {
        SourceFile::PropList => with_name(0, content_section(file, content)),
        SourceFile::SpecialCasing => with_conditions(code, field_at(fields(file, content), 4)),
        SourceFile::PropertyAliases => fields_hash(fields(file, content), 2),
        SourceFile::PropertyValueAliases => fields_hash(fields(file, content), 3),
        _ => 0,
    }
}
