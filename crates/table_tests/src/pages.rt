//! Worked tables of pages.

use crate::plain::{expect, span};
use paged_table::PagedTable;
use range_table::Table;
use std::alloc::Global;
use std::process::Abort;
use ucd_facts::{Memory, Point};

/// What is looked at on a table of its own. One function owns the table for all tests: that keeps each of them small.
#[derive(Clone, Copy)]
enum Look {
    Counts,
    Words,
}

fn on_a_table(rt: &impl Abort, alloc: Global, look: Look) -> Result<(), Memory> {
    let mut table = PagedTable::filled(alloc, 0)?;
    look_at(rt, &mut table, look)
}

fn look_at(rt: &impl Abort, table: &mut PagedTable, look: Look) -> Result<(), Memory> {
    match look {
        Look::Counts => count_pages(rt, table),
        Look::Words => look_at_words(rt, table),
    }
}

/// A span with its value, and how many pages there are when it is committed.
type Counted = (u32, u32, u64, u64);

const COUNTED: [Counted; 7] = [
    (0x0000, 0x10_FFFF, 0, 0),
    (0x0100, 0x01FF, 5, 0),
    (0x0041, 0x0041, 7, 1),
    (0x0000, 0x00FF, 0, 0),
    // the last block, and all but one point of a block
    (0x10_FFFF, 0x10_FFFF, 1, 1),
    (0x10_FF00, 0x10_FFFE, 1, 0),
    // from within a block into another, over one between
    (0x0280, 0x047F, 5, 2),
];

#[test]
fn blocks_of_one_value_have_no_page(rt: HostRuntime) -> Result<(), Memory> {
    on_a_table(&rt, rt.alloc(), Look::Counts)
}

fn count_pages(rt: &impl Abort, table: &mut PagedTable) -> Result<(), Memory> {
    for row in &COUNTED {
        count_after(rt, table, row)?;
    }
    Ok(())
}

fn count_after(rt: &impl Abort, table: &mut PagedTable, row: &Counted) -> Result<(), Memory> {
    let (lo, hi, value, pages) = *row;
    table.prepare(span(lo, hi), value)?;
    table.commit();
    expect(rt, lo, Some((table.pages() as u64, 0)), (pages, 0));
    Ok(())
}

/// The word at a place of the page of a code point: whether it has a page, and the word.
fn word(table: &PagedTable, number: u32, at: u8) -> Option<(u64, u64)> {
    match table.page(Point::new(number)?) {
        Some(page) => Some((1, table.pool().get(page, at))),
        None => Some((0, 0)),
    }
}

/// Code points and places with the words that stand there.
const WORDS: [(u32, u8, (u64, u64)); 4] = [
    (0x0100, 0, (0, 0)),
    (0x0041, 65, (1, 7)),
    (0x0000, 65, (1, 7)),
    (0x0041, 66, (1, 0)),
];

#[test]
fn a_page_shows_the_words_of_its_block(rt: HostRuntime) -> Result<(), Memory> {
    on_a_table(&rt, rt.alloc(), Look::Words)
}

fn look_at_words(rt: &impl Abort, table: &mut PagedTable) -> Result<(), Memory> {
    table.prepare(span(0x0100, 0x01FF), 5)?;
    table.prepare(span(0x0041, 0x0041), 7)?;
    table.commit();
    for (number, at, expected) in &WORDS {
        expect(rt, *number, word(table, *number, *at), *expected);
    }
    Ok(())
}
