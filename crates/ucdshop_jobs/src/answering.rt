//! Answering the questions of a script that stand directly behind one another.

ghost use Rattle.std.specs.Prelude.{◌≡◌, ◌∷◌, ◌+◌, ◌<◌, ◌^◌, ⊤, length, IfOk, OnOk};
ghost use Rattle.std.specs.List.{All};
ghost use Rattle.std.specs.Option.{MatchOption};
ghost use Rattle.script_lines.specs.Groups.{IsWellFormed};
ghost use Rattle.script_lines.specs.declared.command.What.TheVariants.{Question};
ghost use Rattle.ucdshop_jobs.specs.Answering.{AnswersFront};
ghost use Rattle.ucdshop_jobs.specs.Carrying.{counted, session_on, question_command};
ghost use Rattle.set_questions.specs.QuestionCache.{IsKept};
ghost use Rattle.ucdshop_jobs.specs.Session.{step_by};

use crate::carried::Carried;
use edit_session::Bench;
use script_lines::{Command, What};
use set_questions::{AskStop, Asking, QuestionCache};
use std::alloc::Global;
use ucd_model::Memory;

/// Answers the question of this text, and the questions at the front of the commands behind it, and returns the
/// commands that are left. What answers them is made once: it is taken from what is kept, and only what changed since is made
/// again.
///
/// - `Memory`: memory ran out.
pub fn answer_adjacent_questions<'c>(
    alloc: Global,
    bench: &Bench,
    kept: &mut QuestionCache,
    line: u32,
    text: &[u8],
    behind: &'c [Command],
    carried: &mut Carried,
) -> Result<&'c [Command], Memory>
    requires kept { IsKept kept.old bench.now.current }
    requires room { counted carried.old + 1 + length behind.now < 2 ^ 64 }
    requires ready { All IsWellFormed behind.now }
    ensures kept { IsKept kept.new bench.now.current }
    ensures answers { IfOk result
        (λ rest. AnswersFront bench.now.current
        (step_by (session_on bench.now.current carried.old) line (Question text.now))
        (counted carried.old + 1) behind.now carried.new rest.now) }
{
    kept.fill(alloc, bench)?;
    let asking = kept.asking(bench);
    answer_first_and_leading(alloc, &asking, line, text, behind, carried)
}

/// Answers the question of this text, and the questions at the front of the commands behind it, and returns the commands
/// that are left. `asking` answers questions on the bench.
///
/// - `Memory`: memory ran out.
fn answer_first_and_leading<'c>(
    alloc: Global,
    asking: &Asking<'_>,
    line: u32,
    text: &[u8],
    behind: &'c [Command],
    carried: &mut Carried,
) -> Result<&'c [Command], Memory>
    requires room { counted carried.old + 1 + length behind.now < 2 ^ 64 }
    requires ready { All IsWellFormed behind.now }
    ensures { IfOk result (λ rest. AnswersFront asking.now
        (step_by (session_on asking.now carried.old) line (Question text.now))
        (counted carried.old + 1) behind.now carried.new rest.now) }
{
    answer_one(alloc, asking, line, text, carried)?;
    answer_leading_questions(alloc, asking, behind, carried)
}

/// Answers the questions at the front of the commands, and returns the commands that are left.
fn answer_leading_questions<'c>(
    alloc: Global,
    asking: &Asking<'_>,
    commands: &'c [Command],
    carried: &mut Carried,
) -> Result<&'c [Command], Memory>
    requires room { counted carried.old + length commands.now < 2 ^ 64 }
    requires ready { All IsWellFormed commands.now }
    ensures { IfOk result (λ rest. AnswersFront asking.now (session_on asking.now carried.old)
        (counted carried.old) commands.now carried.new rest.now) }
{
    let mut rest = commands;
    'questions: while let Some((line, text, behind)) = first_question(rest) {
        answer_one(alloc, asking, line, text, carried)?;
        rest = behind;
    }
    Ok(rest)
}

/// The line and the text of the first command and the commands behind it, if it is a question.
fn first_question(commands: &[Command]) -> Option<(u32, &[u8], &[Command])>
    ensures { MatchOption result ⊤ (λ q. commands.now ≡ question_command q.0 q.1.now ∷ q.2.now) }
{
    let (command, behind) = commands.split_first()?;
    match &command.what {
        What::Question(text) => Some((command.line, text.as_slice(), behind)),
        What::Group(_) => None,
    }
}

/// Answers a question.
fn answer_one(
    alloc: Global,
    asking: &Asking<'_>,
    line: u32,
    text: &[u8],
    carried: &mut Carried,
) -> Result<(), Memory>
    requires { counted carried.old + 1 < 2 ^ 64 }
    ensures session { OnOk result
        (session_on asking.now carried.new
        ≡ step_by (session_on asking.now carried.old) line (Question text.now)) }
    ensures counted { OnOk result (counted carried.new ≡ counted carried.old + 1) }
{
    match asking.answer(alloc, text) {
        Ok(spans) => carried.answer(alloc, line, spans.as_slice()),
        Err(AskStop::Fault(fault)) => carried.refuse_question(alloc, line, fault),
        Err(AskStop::Memory) => Err(Memory),
    }
}
