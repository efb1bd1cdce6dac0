//! Runs of words that have no listed form.

use crate::runs::{EARLIER, LATER, ends, is_untouched, shelf_of};
use std::alloc::Global;
use std::test::Fail;
use ucd_model::Memory;
use ucdshop_more_core::Status;

/// Words that have no listed form.
const BAD_WORDS: [&[&[u8]]; 18] = [
    &[],
    &[b"ages"],
    &[b"ages", b"o"],
    &[b"age", b"o", b"p"],
    &[b"Ages", b"o", b"p"],
    &[b"derive", b"p", b"o"],
    &[b"desk", b"p", b"o"],
    &[b"desk", b"p", b"t", b"o", b"o"],
    &[b"undo", b"p", b"t", b"o"],
    &[b"undo", b"p", b"t", b"o", b"1", b"1"],
    &[b"undo", b"p", b"t", b"o", b""],
    &[b"undo", b"p", b"t", b"o", b"0"],
    &[b"undo", b"p", b"t", b"o", b"01"],
    &[b"undo", b"p", b"t", b"o", b"+1"],
    &[b"undo", b"p", b"t", b"o", b"1025"],
    &[b"undo", b"p", b"t", b"o", b"4294967297"],
    &[b"", b"o", b"p"],
    SEVENTEEN,
];

/// One folder more than there may be.
const SEVENTEEN: &[&[u8]] = &[
    b"ages", b"o", b"p", b"p", b"p", b"p", b"p", b"p", b"p", b"p", b"p", b"p", b"p", b"p", b"p",
    b"p", b"p", b"p", b"p",
];

/// Whether words are refused by the usage line, and nothing is read or written.
///
/// - `Memory`: memory ran out.
fn are_bad(alloc: Global, words: &[&[u8]]) -> Result<bool, Memory> {
    let mut shelf = shelf_of(alloc, EARLIER, LATER)?;
    shelf.fail_read(1)?;
    let usage =
        b"usage: ucdshop_more desk DATA EVENTS OUT | undo DATA SCRIPT OUT DEPTH | conform DATA TESTS OUT | ages OUT DATA1 .. DATAn\n".as_slice();
    let expected = (Status::BadWords, usage);
    Ok(ends(alloc, words, &mut shelf, 1000, expected)? && is_untouched(&shelf))
}

#[test]
fn words_of_no_form_are_told_the_usage(rt: HostRuntime) -> Result<(), Fail> {
    for words in &BAD_WORDS {
        assert!(rt; are_bad(rt.alloc(), words)?);
    }
    Ok(())
}
