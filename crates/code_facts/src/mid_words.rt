//! The code points that stand in the middle of a word.

ghost use Rattle.std.specs.Prelude.{◌≡◌, ℕ, ◌<◌, IfOk, IfSome, OnOk};
ghost use Rattle.std.specs.List.{list_any};
ghost use Rattle.layered_table.specs.Layers.{puts, word_at};
ghost use Rattle.release_rows.specs.ValuesApart.{AreValuesApart};
ghost use Rattle.source_rows.specs.RowRefs.{row_in};
ghost use Rattle.ucd_facts.specs.Facts.{within};
ghost use Rattle.ucd_facts.specs.Values.{default_word_break, is_mid_word, missing_value, mid_word_at};
ghost use Rattle.code_facts.specs.Marks.{covers};
ghost use Rattle.code_facts.specs.MidWords.{gives_mid_word, given_layer as given_layer_of, is_missing_row_of_mid_word as is_missing, layer_of, layer_over, missing_layer as missing_layer_of};
ghost use Rattle.fact_tables.specs.Word.{one_if};

use crate::mark::is_mid_word_value;
use crate::mark_rows::push_some;
use layered_table::{Layer, disjoint_layers};
use release_rows::RowText;
use source_rows::RowRef;
use std::alloc::Global;
use ucd_facts::{Memory, Span};

/// The code points that stand in the middle of a word by these rows of WordBreakProperty.txt. UAX #29, section 4.1; UAX #44,
/// section 4.2.10.
///
/// Each row is read once, unless a missing row has a value in the middle of a word.
///
/// - `Memory`: memory ran out.
pub fn mid_words_of(alloc: Global, rows: &[RowText<'_>]) -> Result<Vec<Span>, Memory>
    requires { AreValuesApart rows.now }
    ensures { IfOk result (λ spans. (c : ℕ) → c < 1114112
        → list_any (within c) spans.items ≡ mid_word_at rows.now c) }
{
    match mid_words_without_missing(alloc, rows)? {
        Some(spans) => Ok(spans),
        None => layered_mid_words(alloc, rows),
    }
}

/// The code points that stand in the middle of a word by these rows of WordBreakProperty.txt, from the rows that are no
/// missing rows; `None` if a missing row has a value in the middle of a word. UAX #29, section 4.1; UAX #44, section 4.2.10.
///
/// - `Memory`: memory ran out.
fn mid_words_without_missing(
    alloc: Global,
    rows: &[RowText<'_>],
) -> Result<Option<Vec<Span>>, Memory>
    requires { AreValuesApart rows.now }
    ensures { IfOk result (λ given. IfSome given (λ spans. (c : ℕ)
        → list_any (within c) spans.items ≡ mid_word_at rows.now c)) }
{
    let mut spans = Vec::new(alloc);
    'rows: for text in rows {
        let row = text.row();
        if is_missing_row_of_mid_word(&row) {
            return Ok(None);
        }
        push_some(&mut spans, mid_word_span(&row))?;
    }
    Ok(Some(spans))
}

/// Whether a row is a missing row with a value in the middle of a word.
fn is_missing_row_of_mid_word(row: &RowRef<'_>) -> bool
    ensures { result ≡ is_missing (row_in row.now) }
{
    match row {
        RowRef::Missing(text) => is_mid_word_value(text.value),
        _ => false,
    }
}

/// The code points of a row with a value in the middle of a word that is no missing row.
fn mid_word_span(row: &RowRef<'_>) -> Option<Span>
    ensures { (c : ℕ) → covers c result ≡ gives_mid_word c (row_in row.now) }
{
    match row {
        RowRef::Value(text) if is_mid_word_value(text.value) => Some(text.span),
        _ => None,
    }
}

/// The code points that stand in the middle of a word by these rows of WordBreakProperty.txt, from all rows, whatever their
/// values are. UAX #29, section 4.1; UAX #44, section 4.2.10.
///
/// - `Memory`: memory ran out.
fn layered_mid_words(alloc: Global, rows: &[RowText<'_>]) -> Result<Vec<Span>, Memory>
    ensures { IfOk result (λ spans. (c : ℕ) → c < 1114112
        → list_any (within c) spans.items ≡ mid_word_at rows.now c) }
{
    let layers = all_layers(alloc, rows)?;
    let layers = disjoint_layers(alloc, 0, &layers)?;
    spans_of_ones(alloc, &layers)
}

/// Layers: the last one that covers a code point has the word 1 if it stands in the middle of a word, else 0. They are
/// the missing rows in their order, and over them the other rows, the first of them last.
fn all_layers(alloc: Global, rows: &[RowText<'_>]) -> Result<Vec<Layer>, Memory>
    ensures { IfOk result (λ layers. (c : ℕ)
        → word_at layers.items 0 c ≡ one_if (mid_word_at rows.now c)) }
{
    let mut layers = missing_layers(alloc, rows)?;
    let mut at = rows.len();
    'rows: while at > 0 {
        at -= 1;
        let row = rows[at].row();
        push_layer(&mut layers, given_layer(&row))?;
    }
    Ok(layers)
}

/// The layers of the missing rows alone, in their order.
fn missing_layers(alloc: Global, rows: &[RowText<'_>]) -> Result<Vec<Layer>, Memory>
    ensures { IfOk result (λ layers. (c : ℕ)
        → word_at layers.items 0 c
        ≡ one_if (is_mid_word (missing_value rows.now default_word_break c))) }
{
    let mut layers = Vec::new(alloc);
    'rows: for text in rows {
        let row = text.row();
        push_layer(&mut layers, missing_layer(&row))?;
    }
    Ok(layers)
}

/// The layer of a missing row.
fn missing_layer(row: &RowRef<'_>) -> Option<Layer>
    ensures { result ≡ missing_layer_of (row_in row.now) }
{
    match row {
        RowRef::Missing(text) => Some(layer(text.span, text.value)),
        _ => None,
    }
}

/// The layer of a row with a value that is no missing row.
fn given_layer(row: &RowRef<'_>) -> Option<Layer>
    ensures { result ≡ given_layer_of (row_in row.now) }
{
    match row {
        RowRef::Value(text) => Some(layer(text.span, text.value)),
        _ => None,
    }
}

/// The layer of a span with a value.
fn layer(span: Span, value: &[u8]) -> Layer
    ensures { result ≡ layer_of (record { span = span; value = value.now }) }
{
    let word = u64::from(is_mid_word_value(value));
    Layer { word, span }
}

/// Puts a layer, if there is one, over the others.
fn push_layer(layers: &mut Vec<Layer>, layer: Option<Layer>) -> Result<(), Memory>
    ensures { OnOk result ((c : ℕ)
        → word_at layers.new.items 0 c ≡ layer_over c layer (word_at layers.old.items 0 c)) }
{
    if let Some(layer) = layer {
        layers.push(layer)?;
    }
    Ok(())
}

/// The spans of the layers with the word 1.
fn spans_of_ones(alloc: Global, layers: &[Layer]) -> Result<Vec<Span>, Memory>
    ensures { IfOk result (λ spans. (c : ℕ)
        → list_any (within c) spans.items ≡ list_any (puts 1 c) layers.now) }
{
    let mut spans = Vec::new(alloc);
    'layers: for layer in layers {
        if layer.word == 1 {
            spans.push(layer.span)?;
        }
    }
    Ok(spans)
}
