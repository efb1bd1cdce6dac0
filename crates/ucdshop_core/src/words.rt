//! The forms of the words of a run.

ghost use Rattle.std.specs.Prelude.{◌≡◌, ◌∷◌, [], ⊤};
ghost use Rattle.std.specs.Option.{MatchOption};
ghost use Rattle.ucdshop_jobs.specs.JobWords.{AsksFor, IsListed, job_of};
ghost use Rattle.ucdshop_jobs.specs.Jobs.{form, make_form};
ghost use Rattle.ucdshop_jobs.specs.Making.{number_of};

use crate::release_number::number_of;
use ucd_model::Text;
use ucdshop_jobs::Job;

/// What the words ask for, and `None` exactly if they have no listed form.
pub fn job_of(words: &[Text]) -> Option<Job<'_>>
    ensures form { AsksFor result (form words.now) }
    ensures listed { MatchOption result ⊤ (λ job. IsListed (job_of job)) }
{
    match words {
        [word, first, output] => job_of_three_words(word, first, output),
        [word, input, script, output] => apply_of(word, input, script, output),
        [word, input, script, output, previous] => {
            compare_of(word, input, script, output, previous)
        }
        _ => None,
    }
}

/// `derive DATA OUT` or `make NUMBER OUT`.
fn job_of_three_words<'a>(word: &'a Text, first: &'a Text, output: &'a Text) -> Option<Job<'a>>
    ensures form { AsksFor result (form (word.now ∷ first.now ∷ output.now ∷ [])) }
    ensures listed { MatchOption result ⊤ (λ job. IsListed (job_of job)) }
{
    if word.as_slice() == b"derive".as_slice() {
        return Some(Job::derive(first.as_slice(), output.as_slice()));
    }
    if word.as_slice() == b"make".as_slice() {
        make_of(first.as_slice(), output.as_slice())
    } else {
        None
    }
}

/// `make` with the number that a word writes.
fn make_of<'a>(word: &[u8], output: &'a [u8]) -> Option<Job<'a>>
    ensures form { AsksFor result (make_form (number_of word.now) output.now) }
    ensures listed { MatchOption result ⊤ (λ job. IsListed (job_of job)) }
{
    match number_of(word) {
        Some(number) => Some(Job::make(number, output)),
        None => None,
    }
}

/// `apply DATA SCRIPT OUT`.
fn apply_of<'a>(
    word: &'a Text,
    input: &'a Text,
    script: &'a Text,
    output: &'a Text,
) -> Option<Job<'a>>
    ensures form { AsksFor result (form (word.now ∷ input.now ∷ script.now ∷ output.now ∷ [])) }
    ensures listed { MatchOption result ⊤ (λ job. IsListed (job_of job)) }
{
    if word.as_slice() == b"apply".as_slice() {
        Some(Job::apply(input.as_slice(), script.as_slice(), output.as_slice()))
    } else {
        None
    }
}

/// `apply DATA SCRIPT OUT PREVIOUS`.
fn compare_of<'a>(
    word: &'a Text,
    input: &'a Text,
    script: &'a Text,
    output: &'a Text,
    previous: &'a Text,
) -> Option<Job<'a>>
    ensures form { AsksFor result
        (form (word.now ∷ input.now ∷ script.now ∷ output.now ∷ previous.now ∷ [])) }
    ensures listed { MatchOption result ⊤ (λ job. IsListed (job_of job)) }
{
    if word.as_slice() == b"apply".as_slice() {
        Some(Job::compare(
            input.as_slice(),
            script.as_slice(),
            output.as_slice(),
            previous.as_slice(),
        ))
    } else {
        None
    }
}
