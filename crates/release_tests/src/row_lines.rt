//! The rows of a release, and the lines that they stand on.

use crate::files::{is_answered, release_of};
use release_rows::{Release, RowText, Rows};
use std::alloc::Global;
use std::test::Fail;
use ucd_facts::{Memory, Row, SourceFile};

/// Whether there are two rows, on these lines.
fn are_on(mut rows: Rows<'_>, first: u64, second: u64) -> bool {
    match (rows.next(), rows.next(), rows.next()) {
        (Some((a, _)), Some((b, _)), None) => a == first && b == second,
        _ => false,
    }
}

/// Whether the first row gives a value from a code point on, read with a copy and without.
fn gives(alloc: Global, mut rows: Rows<'_>, first: u32, value: &[u8]) -> Result<bool, Memory> {
    match rows.next() {
        Some((_, row)) => Ok(
            gives_in_place(&row, first, value) && gives_copied(alloc, &row, first, value)?,
        ),
        None => Ok(false),
    }
}

/// Whether a row gives this value from a code point on, read without a copy.
fn gives_in_place(row: &RowText<'_>, first: u32, value: &[u8]) -> bool {
    match row.value() {
        Some(text) => text.span.first() == first && text.value == value,
        None => false,
    }
}

/// Whether a row gives this value from a code point on, read with a copy.
fn gives_copied(
    alloc: Global,
    row: &RowText<'_>,
    first: u32,
    value: &[u8],
) -> Result<bool, Memory> {
    let copied = row.read(alloc)?;
    Ok(is_value(&copied, first, value))
}

/// Whether a row that was read gives this value from a code point on.
fn is_value(row: &Row, first: u32, value: &[u8]) -> bool {
    match row {
        Row::Value(row) => row.span.first() == first && row.value.as_slice() == value,
        _ => false,
    }
}

const SPACES: &[u8] = b"# head\r\n0020 ; White_Space # SP\r\n\r\n0009..000D    ; White_Space";

/// Whether a release with those lines gives them with their numbers.
fn gives_spaces(alloc: Global, release: &Release) -> Result<bool, Memory> {
    let file = SourceFile::PropList;
    Ok(
        are_on(release.rows(file), 2, 4)
            && are_on(release.next_rows(file), 2, 4)
            && release.rows(SourceFile::Scripts).next().is_none()
            && gives(alloc, release.rows(file), 0x20, b"White_Space")?,
    )
}

#[test]
fn rows_have_their_lines(rt: HostRuntime) -> Result<(), Fail> {
    let file = SourceFile::PropList;
    assert!(rt; is_answered(rt.alloc(), file, SPACES, Ok(()))?);
    let release = release_of(rt.alloc(), file, SPACES)?;
    assert!(rt; gives_spaces(rt.alloc(), &release)?);
    Ok(())
}
