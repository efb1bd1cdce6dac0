//! Runs of words that have no listed form.

use crate::runs::{LETTERS, ends, shelf_of};
use std::alloc::Global;
use std::test::Fail;
use ucd_model::Memory;
use ucdshop_look_core::Status;

/// Words that have no listed form: among them a question of two lines, words that name no code point, and one question more than
/// there may be.
const BAD_WORDS: [&[&[u8]]; 18] = [
    &[],
    &[b"ask"],
    &[b"ask", b"d"],
    &[b"Ask", b"d", b"[a]"],
    &[b"check"],
    &[b"check", b"d", b"s", b"p", b"q"],
    &[b"changes", b"d"],
    &[b"changes", b"d", b"s", b"p"],
    &[b"derive", b"d", b"o"],
    &[b"ask", b"d", b"[a]", b"[\n]"],
    &[b"show", b"d"],
    &[b"show", b"d", b"0061", b"061"],
    &[b"show", b"d", b"110000"],
    &[b"show", b"d", b"U+61"],
    &[b"show", b"d", b"ab"],
    &[b"show", b"d", b""],
    &[b"show", b"d", b"\x80"],
    &[
        b"ask", b"d", b"a", b"a", b"a", b"a", b"a", b"a", b"a", b"a", b"a", b"a", b"a", b"a", b"a",
        b"a", b"a", b"a", b"a", b"a", b"a", b"a", b"a", b"a", b"a", b"a", b"a", b"a", b"a", b"a",
        b"a", b"a", b"a", b"a", b"a", b"a", b"a", b"a", b"a", b"a", b"a", b"a", b"a", b"a", b"a",
        b"a", b"a", b"a", b"a", b"a", b"a", b"a", b"a", b"a", b"a", b"a", b"a", b"a", b"a", b"a",
        b"a", b"a", b"a", b"a", b"a", b"a", b"a",
    ],
];

/// Whether words are refused by the usage line, and nothing is read.
///
/// - `Memory`: memory ran out.
fn are_bad(alloc: Global, words: &[&[u8]]) -> Result<bool, Memory> {
    let mut shelf = shelf_of(alloc, LETTERS, b"")?;
    shelf.fail_read(1)?;
    let usage =
        b"usage: ucdshop_look ask DATA SET .. | show DATA POINT .. | check DATA [SCRIPT [PREVIOUS]] | changes DATA SCRIPT\n".as_slice();
    ends(alloc, words, &mut shelf, 1000, (Status::BadWords, usage))
}

#[test]
fn words_of_no_form_are_told_the_usage(rt: HostRuntime) -> Result<(), Fail> {
    for words in &BAD_WORDS {
        assert!(rt; are_bad(rt.alloc(), words)?);
    }
    Ok(())
}
