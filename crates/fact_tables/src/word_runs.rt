//! Words that are given span by span.

ghost use Rattle.std.specs.Prelude.{◌≡◌, ℕ, ◌<◌, IfOk, IfSome, OnOk};
ghost use Rattle.range_table.specs.RunTable.{values_now, values_next};
ghost use Rattle.range_table.specs.Values.{SameValues, with_span};
ghost use Rattle.fact_tables.specs.WordRuns.{over_last, word_over, words_next};

use range_table::{RunTable, Table};
use std::alloc::Global;
use ucd_facts::{Memory, Span};

/// A word for the code points of a span.
#[derive(Clone, Copy)]
pub struct WordSpan {
    /// The code points.
    pub span: Span,
    /// The word.
    pub word: u64,
}

/// A word for each code point. Spans that ascend without a gap and have one word are put into the table as one.
#[derive(Drop)]
pub struct WordRuns {
    /// The words, but for those of the last span.
    pub table: RunTable<u64>,
    /// The last span, if it is not in the table yet.
    pub last: Option<WordSpan>,
}

impl WordRuns {
    /// One word throughout.
    ///
    /// - `Memory`: memory ran out.
    pub fn filled(alloc: Global, word: u64) -> Result<WordRuns, Memory>
        ensures { IfOk result (λ runs. SameValues (words_next runs) (λ _. word)) }
    {
        Ok(WordRuns {
            table: RunTable::filled(alloc, word)?,
            last: None,
        })
    }

    /// Gives the code points of a span a word.
    ///
    /// - `Memory`: memory ran out. Nothing is then known of the words.
    pub fn put(&mut self, span: Span, word: u64) -> Result<(), Memory>
        ensures { OnOk result (SameValues (words_next self.new)
            (with_span (words_next self.old) span.lo span.hi word)) }
    {
        let given = WordSpan { span, word };
        match joined_if_adjacent(&self.last, &given) {
            Some(both) => self.last = Some(both),
            None => {
                put_last_span(&mut self.table, &self.last)?;
                self.last = Some(given);
            }
        }
        Ok(())
    }

    /// The table of the words.
    ///
    /// - `Memory`: memory ran out.
    pub fn into_table(self) -> Result<RunTable<u64>, Memory>
        ensures { IfOk result (λ table. SameValues (values_now table) (words_next self)) }
    {
        let WordRuns { mut table, last } = self;
        put_last_span(&mut table, &last)?;
        table.commit();
        Ok(table)
    }
}

/// Puts the last span, if there is one, into the table.
fn put_last_span(table: &mut RunTable<u64>, last: &Option<WordSpan>) -> Result<(), Memory>
    ensures { OnOk result (SameValues (values_next table.new)
        (over_last (values_next table.old) last.now)) }
{
    match last {
        Some(last) => table.prepare(last.span, last.word),
        None => Ok(()),
    }
}

/// One span in place of the last one and this one, if this one begins right behind it and has the same word.
#[tactic(auto, using(crate::proofs::WordRunLemmas::given_as_one))]
fn joined_if_adjacent(last: &Option<WordSpan>, given: &WordSpan) -> Option<WordSpan>
    ensures { IfSome result (λ both. (words : ℕ → ℕ) (c : ℕ)
        → word_over words both c ≡ word_over (over_last words last.now) given.now c) }
{
    let last = (*last)?;
    if last.word != given.word || last.span.last() + 1 != given.span.first() {
        return None;
    }
    let span = Span {
        lo: last.span.lo,
        hi: given.span.hi,
    };
    Some(WordSpan {
        span,
        word: given.word,
    })
}
