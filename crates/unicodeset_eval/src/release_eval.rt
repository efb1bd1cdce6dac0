//! The answer of a UnicodeSet by the rows of a release.

ghost use Rattle.std.specs.Prelude.{◌≡◌, ℕ, ◌<◌};
ghost use Rattle.property_aliases.specs.Found.{AreAliasesOf};
ghost use Rattle.property_aliases.specs.Numbers.{AreNumbersOf};
ghost use Rattle.property_aliases.specs.Sources.{sources_of};
ghost use Rattle.ucd_facts.specs.Facts.{facts};
ghost use Rattle.ucd_points.specs.Limits.{point_count};
ghost use Rattle.release_rows.specs.Releases.{rows_now};
ghost use Rattle.unicodeset_eval.specs.Answers.{Gives};
ghost use Rattle.unicodeset_eval.specs.Found.{AreRowSets};
ghost use Rattle.unicodeset_eval.specs.Questions.{answer};
ghost use Rattle.unicodeset_eval.specs.ReleaseTests.{release_tests};
ghost use Rattle.unicodeset_parser.specs.Views.{tree_view};

use crate::evaluation::eval_over;
use crate::index::SetIndex;
use crate::record_pieces::RecordPieces;
use crate::row_sets::RowSets;
use crate::stop::EvalStop;
use property_aliases::{Aliases, ValueNumbers};
use release_rows::Release;
use std::alloc::Global;
use ucd_model::{Records, Spans, equal_record_spans};
use unicodeset_parser::Expr;

/// The members of a UnicodeSet as maximal ascending spans, by the rows of a release now and by what is derived from
/// them. UTS #35, "Unicode Sets". To ask more than once, make the index once, and ask by [`eval_over`].
///
/// - `Fault`: the first name without meaning, in the order of the text. S8: no property has the name, or the name that
///   stands alone means nothing. S9: the property has no such value. The place is where the property begins.
/// - `Memory`: memory ran out.
pub fn eval<B: Records>(
    alloc: Global,
    bench: &B,
    release: &Release,
    aliases: &Aliases,
    expr: &Expr,
) -> Result<Spans, EvalStop>
    requires aliases { AreAliasesOf aliases.now (sources_of release.now) }
    requires categories { (c : ℕ) → c < point_count
        → (B.record_of bench.now c).category ≡ (facts (rows_now release.now) c).category }
    ensures { Gives (λ spans. spans) result
        (answer (sources_of release.now)
        (release_tests (B.record_of bench.now) (rows_now release.now)) point_count
        (tree_view expr.now)) }
{
    let numbers = ValueNumbers::of(alloc, release)?;
    eval_numbered(alloc, bench, release, &numbers, aliases, expr)
}

/// The members of a UnicodeSet as maximal ascending spans, by the rows of a release now, the numbers of the values that the
/// rows give, and what is derived from them. UTS #35, "Unicode Sets". Each of the functions of this file owns few values:
/// one that owned all would be slow to prove.
///
/// - `Fault`: the first name without meaning, in the order of the text, as [`eval`] tells it.
/// - `Memory`: memory ran out.
fn eval_numbered<B: Records>(
    alloc: Global,
    bench: &B,
    release: &Release,
    numbers: &ValueNumbers,
    aliases: &Aliases,
    expr: &Expr,
) -> Result<Spans, EvalStop>
    requires numbers { AreNumbersOf numbers.now (rows_now release.now) }
    requires aliases { AreAliasesOf aliases.now (sources_of release.now) }
    requires categories { (c : ℕ) → c < point_count
        → (B.record_of bench.now c).category ≡ (facts (rows_now release.now) c).category }
    ensures { Gives (λ spans. spans) result
        (answer (sources_of release.now)
        (release_tests (B.record_of bench.now) (rows_now release.now)) point_count
        (tree_view expr.now)) }
{
    let rows = RowSets::of(alloc, release, numbers)?;
    eval_by(alloc, bench, release, &rows, aliases, expr)
}

/// The members of a UnicodeSet as maximal ascending spans, by the rows of a release now, the sets that the rows give, and
/// what is derived from them. UTS #35, "Unicode Sets".
///
/// - `Fault`: the first name without meaning, in the order of the text, as [`eval`] tells it.
/// - `Memory`: memory ran out.
fn eval_by<B: Records>(
    alloc: Global,
    bench: &B,
    release: &Release,
    rows: &RowSets,
    aliases: &Aliases,
    expr: &Expr,
) -> Result<Spans, EvalStop>
    requires rows { AreRowSets rows.now (rows_now release.now) }
    requires aliases { AreAliasesOf aliases.now (sources_of release.now) }
    requires categories { (c : ℕ) → c < point_count
        → (B.record_of bench.now c).category ≡ (facts (rows_now release.now) c).category }
    ensures { Gives (λ spans. spans) result
        (answer (sources_of release.now)
        (release_tests (B.record_of bench.now) (rows_now release.now)) point_count
        (tree_view expr.now)) }
{
    let spans = equal_record_spans(alloc, bench)?;
    let pieces = RecordPieces::of(alloc, bench, spans.as_slice())?;
    let index = SetIndex::of(bench, &pieces, release, rows);
    eval_over(alloc, &index, aliases, expr)
}
