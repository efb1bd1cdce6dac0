//! Answering questions of sets on the rows and the records of a release.

ghost use Rattle.std.specs.Prelude.{◌≡◌, ◌≤◌, IfOk};
ghost use Rattle.release_rows.specs.Releases.{rows_now};
ghost use Rattle.ucd_points.specs.Limits.{point_count};
ghost use Rattle.set_answers.specs.Asking.{IsUnnamed, IsUnread};
ghost use Rattle.set_answers.specs.Questions.{AskedAs, files_hold, files_record, question_answer, tree_answer};
ghost use Rattle.set_answers.specs.RowNames.{AreRowNames};
ghost use Rattle.set_answers.specs.SetTexts.{members_in};
ghost use Rattle.unicodeset_eval.specs.Found.{AreRowSets};
ghost use Rattle.unicodeset_eval.specs.Indexes.{index_holds};
ghost use Rattle.unicodeset_eval.specs.RecordPieces.{ArePiecesOf};
ghost use Rattle.unicodeset_parser.specs.Views.{tree_view};

use crate::ask_stop::{AskFault, AskRule, AskStop};
use crate::row_names::RowNames;
use release_rows::Release;
use std::alloc::Global;
use std::marker::Model;
use ucd_model::{Memory, Records, Spans};
use unicodeset_eval::{EvalStop, RecordPieces, RowSets, SetIndex, eval_over};
use unicodeset_parser::{Expr, SetStop, parse};

/// What answers questions on a release: the meaning of names and the sets of tests, by its rows and its records. Contracts see the
/// items of its files.
#[derive(Drop)]
pub struct Asking<'b, B: Records> {
    release: &'b Release,
    names: &'b RowNames,
    index: SetIndex<'b, B>,
}

impl<'b, B: Records> Model for Asking<'b, B> {
    ghost use Rattle.std.specs.Prelude.{List};
    ghost use Rattle.release_rows.specs.FileItems.{FileItem};
    ghost use Rattle.unicodeset_eval.specs.Indexes.{index_holds};
    ghost use Rattle.set_answers.specs.Asking.{CanAnswer};

    ghost Value = { List (List FileItem) };

    ghost view = { λ a. a.release.now.current };

    ghost invariant = { λ a. CanAnswer a.release.now.current a.names.now.aliases (index_holds B.record_of a.index) };
}

/// The sets of all tests by the rows of a release and by the pieces of its records.
fn index_of<'b, B: Records>(
    bench: &'b B,
    release: &Release,
    pieces: &'b RecordPieces,
    rows: &'b RowSets,
) -> SetIndex<'b, B>
    requires records { B.record_of bench.now ≡ files_record release.now.current }
    requires pieces { ArePiecesOf pieces.now (B.record_of bench.now) }
    requires rows { AreRowSets rows.now (rows_now release.now) }
    ensures { index_holds B.record_of result ≡ files_hold release.now.current }
{
    SetIndex::of(bench, pieces, release, rows)
}

/// Why a text is refused that is no set.
fn stop_of_parsing(stop: SetStop) -> AskStop
    ensures { IsUnread result stop }
{
    match stop {
        SetStop::Fault { rule, at } => AskStop::Fault(AskFault {
            rule: AskRule::Text(rule),
            at,
        }),
        SetStop::Memory => AskStop::Memory,
    }
}

/// Why a set is refused in which a name means nothing.
fn stop_of_names(stop: EvalStop) -> AskStop
    ensures { IsUnnamed result stop }
{
    match stop {
        EvalStop::Fault { rule, at } => AskStop::Fault(AskFault {
            rule: AskRule::Name(rule),
            at,
        }),
        EvalStop::Memory => AskStop::Memory,
    }
}

impl<'b, B: Records> Asking<'b, B> {
    /// What answers questions on a release, whose records a bench has; these are the pieces of equal records, and the names are
    /// those of its rows. It takes no memory.
    pub fn of(
        bench: &'b B,
        release: &'b Release,
        pieces: &'b RecordPieces,
        names: &'b RowNames,
    ) -> Asking<'b, B>
        requires records { B.record_of bench.now ≡ files_record release.now.current }
        requires pieces { ArePiecesOf pieces.now (B.record_of bench.now) }
        requires names { AreRowNames names.now release.now.current }
        ensures { result ≡ release.now.current }
    {
        Asking {
            release,
            names,
            index: index_of(bench, release, pieces, &names.sets),
        }
    }

    /// The members of the set of this text, as maximal ascending spans. UTS #35, "Unicode Sets".
    ///
    /// - `Fault`: the text is no set, with the first rule that it breaks; or the first name in it that means nothing.
    /// - `Memory`: memory ran out.
    #[tactic(auto, unfolding(crate::specs::Questions::question_answer))]
    pub fn answer(&self, alloc: Global, text: &[u8]) -> Result<Spans, AskStop>
        ensures answer { AskedAs result (question_answer self.now text.now) }
        ensures members { IfOk result (λ spans. members_in spans ≤ point_count) }
    {
        match parse(alloc, text) {
            Ok(tree) => self.members(alloc, &tree),
            Err(stop) => Err(stop_of_parsing(stop)),
        }
    }

    /// The members of a set, as maximal ascending spans.
    ///
    /// - `Fault`: the first name in it that means nothing.
    /// - `Memory`: memory ran out.
    fn members(&self, alloc: Global, tree: &Expr) -> Result<Spans, AskStop>
        ensures { AskedAs result (tree_answer self.now (tree_view tree.now)) }
    {
        match eval_over(alloc, &self.index, &self.names.aliases, tree) {
            Ok(spans) => Ok(spans),
            Err(stop) => Err(stop_of_names(stop)),
        }
    }
}
