//! The rows that put marks on code points.

ghost use Rattle.std.specs.Prelude.{◌≡◌, ℕ, ◌&&◌, ◌||◌, IfOk, OnOk};
ghost use Rattle.std.specs.List.{list_any};
ghost use Rattle.std.specs.Str.{bytes_eq};
ghost use Rattle.release_rows.specs.ValuesApart.{AreValuesApart};
ghost use Rattle.ucd_facts.specs.Facts.{excluded_at, excludes, flag_at, gives_value, within};
ghost use Rattle.ucd_facts.specs.Names.{flag_name};
ghost use Rattle.ucd_facts.specs.declared.property.Flag.{Flag as FlagValue};
ghost use Rattle.code_facts.specs.MarkRows.{KeepsMarkRows, is_flagged, names_flag};
ghost use Rattle.code_facts.specs.Marks.{covers};
ghost use Rattle.code_facts.specs.RowLists.{sources_of};

use crate::mid_words::mid_words_of;
use crate::row_lists::RowLists;
use release_rows::RowText;
use source_rows::{RowRef, ValueText};
use std::alloc::Global;
use ucd_facts::{FLAGS, Flag, Memory, Span};

/// The code points of a row of PropList.txt that has the name of a flag.
#[derive(Clone, Copy)]
pub struct Flagged {
    /// The flag.
    pub flag: Flag,
    /// The code points.
    pub span: Span,
}

/// The code points on which rows put marks, row by row.
#[derive(Drop)]
pub struct MarkRows {
    /// Those of the rows of CompositionExclusions.txt.
    pub excluded: Vec<Span>,
    /// Those to which the rows of WordBreakProperty.txt give a value in the middle of a word.
    pub mid_word: Vec<Span>,
    /// Those of the rows of PropList.txt that have the name of a flag.
    pub flagged: Vec<Flagged>,
}

impl MarkRows {
    /// The code points on which these rows put marks.
    ///
    /// - `Memory`: memory ran out.
    pub fn of(alloc: Global, rows: &RowLists<'_>) -> Result<MarkRows, Memory>
        requires { AreValuesApart rows.now.word_break.items }
        ensures { IfOk result (λ marked. KeepsMarkRows marked (sources_of rows.now)) }
    {
        Ok(MarkRows {
            excluded: excluded_of(alloc, &rows.exclusions)?,
            mid_word: mid_words_of(alloc, &rows.word_break)?,
            flagged: flagged_of(alloc, &rows.prop_list)?,
        })
    }
}

/// The code points that are excluded from composition.
fn excluded_of(alloc: Global, rows: &[RowText<'_>]) -> Result<Vec<Span>, Memory>
    ensures { IfOk result (λ spans. (c : ℕ)
        → list_any (within c) spans.items ≡ excluded_at rows.now c) }
{
    let mut spans = Vec::new(alloc);
    'rows: for row in rows {
        push_some(&mut spans, excluded_span(row))?;
    }
    Ok(spans)
}

/// The code points of a row of CompositionExclusions.txt.
fn excluded_span(row: &RowText<'_>) -> Option<Span>
    ensures { (c : ℕ) → covers c result ≡ excludes c row.now }
{
    match row.row() {
        RowRef::Exclusion(row) => Some(row.span),
        _ => None,
    }
}

/// Puts the span, if there is one, at the end.
pub fn push_some(spans: &mut Vec<Span>, span: Option<Span>) -> Result<(), Memory>
    ensures { OnOk result ((c : ℕ)
        → list_any (within c) spans.new.items
        ≡ (list_any (within c) spans.old.items || covers c span)) }
{
    if let Some(span) = span {
        spans.push(span)?;
    }
    Ok(())
}

/// The code points that have flags.
fn flagged_of(alloc: Global, rows: &[RowText<'_>]) -> Result<Vec<Flagged>, Memory>
    ensures { IfOk result (λ flagged. (flag : FlagValue) (c : ℕ)
        → list_any (is_flagged flag c) flagged.items ≡ flag_at rows.now flag c) }
{
    let mut flagged = Vec::new(alloc);
    'rows: for row in rows {
        push_row(&mut flagged, row)?;
    }
    Ok(flagged)
}

/// Puts the code points of a row with the flag that it names at the end.
fn push_row(flagged: &mut Vec<Flagged>, row: &RowText<'_>) -> Result<(), Memory>
    ensures { OnOk result ((flag : FlagValue) (c : ℕ)
        → list_any (is_flagged flag c) flagged.new.items
        ≡ (list_any (is_flagged flag c) flagged.old.items
        || gives_value (flag_name flag) c row.now)) }
{
    if let Some(ValueText { span, value }) = row.value() {
        push_flags(flagged, span, value)?;
    }
    Ok(())
}

/// Puts code points with each flag of this name at the end.
fn push_flags(flagged: &mut Vec<Flagged>, span: Span, value: &[u8]) -> Result<(), Memory>
    ensures { OnOk result ((flag : FlagValue) (c : ℕ)
        → list_any (is_flagged flag c) flagged.new.items
        ≡ (list_any (is_flagged flag c) flagged.old.items
        || (bytes_eq value.now (flag_name flag) && within c span))) }
{
    'flags: for flag in FLAGS {
        push_flag(flagged, flag, span, value)?;
    }
    Ok(())
}

/// Puts code points with a flag at the end, if it has this name.
fn push_flag(flagged: &mut Vec<Flagged>, flag: Flag, span: Span, value: &[u8]) -> Result<(), Memory>
    ensures { OnOk result ((other : FlagValue) (c : ℕ)
        → list_any (is_flagged other c) flagged.new.items
        ≡ (list_any (is_flagged other c) flagged.old.items
        || names_flag value.now c span other flag)) }
{
    if value == flag.name() {
        flagged.push(Flagged { flag, span })?;
    }
    Ok(())
}
