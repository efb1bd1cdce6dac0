//! Answering questions on the release of a bench.

ghost use Rattle.std.specs.Prelude.{◌≡◌, ◌||◌, ◌++◌, IfOk, OnOk, codes};
ghost use Rattle.run_endings.specs.Planning.{HasPlan};
ghost use Rattle.set_answers.specs.Questions.{files_record, question_answer};
ghost use Rattle.set_answers.specs.RowNames.{AreNamesKept, AreRowNames};
ghost use Rattle.ucd_model.specs.DerivedText.{line_end};
ghost use Rattle.unicodeset_eval.specs.RecordPieces.{ArePiecesOf};
ghost use Rattle.ucdshop_look_core.specs.Answers.{any_refused, ask_ending, is_refused, section, sections};

use edit_session::{Bench, ReleaseRecords};
use run_endings::Plan;
use set_answers::{AskStop, KeptNames, RowNames, put_members, put_refusal};
use std::alloc::Global;
use ucd_model::{Memory, Text};
use unicodeset_eval::RecordPieces;

/// What answers questions on a release and its records.
type Asking<'b> = set_answers::Asking<'b, ReleaseRecords>;

/// What `ask` tells of these questions on the release of a bench. Answers need its records alone, so the tables of its facts are let go
/// of first: what the questions need takes their place.
///
/// - `Memory`: memory ran out.
pub fn answers_plan(alloc: Global, bench: Bench, questions: &[Text]) -> Result<Plan, Memory>
    ensures { IfOk result (HasPlan (ask_ending questions.now bench.current)) }
{
    let recorded = bench.into_release_records();
    plan_owning_names(alloc, &recorded, questions)
}

/// What `answers_plan` makes, by the records. It owns the names, and a call lets them go: their many parts would else fill its proof.
fn plan_owning_names(
    alloc: Global,
    recorded: &ReleaseRecords,
    questions: &[Text],
) -> Result<Plan, Memory>
    ensures { IfOk result (HasPlan (ask_ending questions.now recorded.now.current)) }
{
    let mut names = KeptNames::nothing();
    let plan = plan_owning_pieces(alloc, recorded, &mut names, questions);
    drop(names);
    plan
}

/// What `ask` tells of these questions, by the records and what is kept of names. It owns the pieces of equal records. The
/// spans by which these are made are let go of before names are read.
fn plan_owning_pieces(
    alloc: Global,
    recorded: &ReleaseRecords,
    kept: &mut KeptNames,
    questions: &[Text],
) -> Result<Plan, Memory>
    requires { AreNamesKept kept.old recorded.now.current }
    ensures { IfOk result (HasPlan (ask_ending questions.now recorded.now.current)) }
{
    let pieces = record_pieces(alloc, recorded)?;
    plan_with_pieces(alloc, recorded, &pieces, kept, questions)
}

/// What `ask` tells of these questions, by the records, the pieces of equal records and what is kept of names. It owns nothing.
fn plan_with_pieces(
    alloc: Global,
    recorded: &ReleaseRecords,
    pieces: &RecordPieces,
    kept: &mut KeptNames,
    questions: &[Text],
) -> Result<Plan, Memory>
    requires pieces { ArePiecesOf pieces.now (files_record recorded.now.current) }
    requires names { AreNamesKept kept.old recorded.now.current }
    ensures { IfOk result (HasPlan (ask_ending questions.now recorded.now.current)) }
{
    kept.fill(alloc, recorded.release())?;
    plan_with_names(alloc, recorded, pieces, kept.names(), questions)
}

/// The pieces of equal records.
///
/// - `Memory`: memory ran out.
fn record_pieces(alloc: Global, recorded: &ReleaseRecords) -> Result<RecordPieces, Memory>
    ensures { IfOk result (λ pieces. ArePiecesOf pieces (files_record recorded.now.current)) }
{
    let spans = recorded.equal_record_spans(alloc)?;
    RecordPieces::of(alloc, recorded, spans.as_slice())
}

/// What `ask` tells of these questions, by the records, the pieces of equal records and the names of the rows.
fn plan_with_names(
    alloc: Global,
    recorded: &ReleaseRecords,
    pieces: &RecordPieces,
    names: &RowNames,
    questions: &[Text],
) -> Result<Plan, Memory>
    requires pieces { ArePiecesOf pieces.now (files_record recorded.now.current) }
    requires names { AreRowNames names.now recorded.now.current }
    ensures { IfOk result (HasPlan (ask_ending questions.now recorded.now.current)) }
{
    let asking = Asking::of(recorded, recorded.release(), pieces, names);
    plan_of_answers(alloc, &asking, questions)
}

/// What `ask` tells of these questions, by what answers them. The text of the answers is made once, and moves into the plan.
fn plan_of_answers(alloc: Global, asking: &Asking<'_>, questions: &[Text]) -> Result<Plan, Memory>
    ensures { IfOk result (HasPlan (ask_ending questions.now asking.now)) }
{
    let mut text = Text::new(alloc);
    let refused = put_sections_or_refusals(alloc, asking, questions, &mut text)?;
    Ok(Plan {
        outputs: Vec::new(alloc),
        summary: text,
        done: refused,
    })
}

/// Puts a section for each question, and answers whether one was refused.
///
/// - `Memory`: memory ran out. A part of the sections may stand at the end of the text then.
fn put_sections_or_refusals(
    alloc: Global,
    asking: &Asking<'_>,
    questions: &[Text],
    text: &mut Text,
) -> Result<bool, Memory>
    ensures text { OnOk result (text.new ≡ text.old ++ sections asking.now questions.now) }
    ensures refused { IfOk result (λ refused. refused ≡ any_refused asking.now questions.now) }
{
    let mut refused = false;
    'questions: for question in questions {
        let here = put_section_or_refusal(alloc, asking, question.as_slice(), text)?;
        refused = refused || here;
    }
    Ok(refused)
}

/// Puts the section of a question, and answers whether it was refused.
fn put_section_or_refusal(
    alloc: Global,
    asking: &Asking<'_>,
    question: &[u8],
    text: &mut Text,
) -> Result<bool, Memory>
    ensures text { OnOk result (text.new ≡ text.old ++ section asking.now question.now) }
    ensures refused { IfOk result
        (λ refused. refused ≡ is_refused (question_answer asking.now question.now)) }
{
    put_head(question, text)?;
    match asking.answer(alloc, question) {
        Ok(spans) => {
            put_members(alloc, text, spans.as_slice())?;
            Ok(false)
        }
        Err(AskStop::Fault(fault)) => {
            put_refusal(alloc, text, fault)?;
            text.append(b"\n")?;
            Ok(true)
        }
        Err(AskStop::Memory) => Err(Memory),
    }
}

/// Puts `# `, and the text of a question.
fn put_head(question: &[u8], text: &mut Text) -> Result<(), Memory>
    ensures { OnOk result (text.new ≡ text.old ++ codes "# " ++ question.now ++ line_end) }
{
    text.append(b"# ")?;
    text.append(question)?;
    text.append(b"\n")
}
