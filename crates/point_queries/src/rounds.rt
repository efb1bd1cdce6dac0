//! Questions of the folding rounds.

ghost use Rattle.std.specs.Prelude.{◌≡◌, [], ◌∷◌, ◌++◌, ◌&&◌, true, false, IfOk, OnOk, Some};
ghost use Rattle.ucd_model.specs.Forms.{nfkc};
ghost use Rattle.ucd_facts.specs.declared.folding.Folding.{Folding};
ghost use Rattle.fold_rounds.specs.Steps.{are_alike, IsCovered};
ghost use Rattle.point_queries.specs.Forms.{list_in};
ghost use Rattle.point_queries.specs.Rounds.{again_puts, folding_puts, short_round};
ghost use Rattle.point_queries.specs.KnownForms.{after_at, after_form, after_round, alike_in, known_puts, puts_from};

use crate::forms::put_form_asks;
use crate::rows::put_rows;
use case_derivation::folded;
use fold_rounds::{LISTS, MOST_POINTS, all_fold_alike, drop_ignorable};
use std::alloc::Global;
use ucd_model::{FactView, Folding, Memory, Point, Points, Query, same_points};

/// The list after a round, which differs from the list before.
#[derive(Drop)]
pub struct After {
    /// The list.
    pub list: Points,
    /// Whether it is known to be its own Normalisation Form KC, and what that form asks is put.
    pub known: bool,
}

/// What a round gives.
#[derive(Drop)]
pub struct Round {
    /// The list after it; `None` if there is none, or if it is the same.
    pub after: Option<After>,
    /// Whether it is known that both foldings give that, and ask the same for it.
    pub alike: bool,
}

impl Round {
    /// This round, as it stands behind others. Both foldings are known to give and to ask the same only if that was known of
    /// it, and `alike` says so of the others too.
    fn alike_only_if(self, alike: bool) -> Round
        ensures after { result.after ≡ self.after }
        ensures alike { result.alike ≡ (alike && self.alike) }
    {
        Round {
            after: self.after,
            alike: alike && self.alike,
        }
    }
}

/// Appends what the rounds of a code point by either folding ask, until a round gives no other list, and answers
/// whether it is known that the rounds by the other folding ask the same. The Unicode Standard, section 3.13,
/// toNFKC_Casefold.
///
/// - `Memory`: memory ran out.
pub fn put_rounds<W: FactView>(
    alloc: Global,
    view: &W,
    folding: Folding,
    c: Point,
    asked: &mut Vec<Query>,
) -> Result<bool, Memory>
    ensures { IfOk result (λ alike. (k : Folding) → IsCovered folding alike k
        → asked.new.items ≡ asked.old.items ++ puts_from k (W.facts_of view.now) 8 false (c ∷ [])) }
{
    let mut list = Points::new(alloc);
    list.push(c)?;
    let mut known = false;
    let mut alike = true;
    'rounds: for done in 0..LISTS {
        let round = put_round(alloc, view, folding, list.as_slice(), known, asked)?.alike_only_if(
            alike,
        );
        alike = round.alike;
        match round.after {
            Some(after) => {
                known = after.known;
                list = after.list;
            }
            None => return Ok(alike),
        }
    }
    Ok(alike)
}

/// Appends what a round from a list asks, without what its Normalisation Form KC asks if the list is `known` to be that
/// form, and answers what the round gives.
fn put_round<W: FactView>(
    alloc: Global,
    view: &W,
    folding: Folding,
    s: &[Point],
    known: bool,
    asked: &mut Vec<Query>,
) -> Result<Round, Memory>
    requires { known ≡ true → Some s.now ≡ list_in (nfkc (W.facts_of view.now) s.now) }
    ensures asked { OnOk result (asked.new.items ≡ asked.old.items
        ++ known_puts folding (W.facts_of view.now) known s.now) }
    ensures next { IfOk result (λ round. round.after
        ≡ after_round folding (W.facts_of view.now) s.now) }
    ensures alike { IfOk result (λ round. round.alike
        ≡ alike_in (W.facts_of view.now) (list_in (nfkc (W.facts_of view.now) s.now))) }
{
    if known {
        return put_round_from_form(alloc, view, folding, s, s, asked);
    }
    match put_form_asks(alloc, view, true, s, asked)? {
        Some(form) => put_round_from_form(alloc, view, folding, s, form.as_slice(), asked),
        None => Ok(Round {
            after: None,
            alike: true,
        }),
    }
}

/// Appends what a round from a list asks, from the Normalisation Form KC of the list on, and answers what the round
/// gives.
fn put_round_from_form<W: FactView>(
    alloc: Global,
    view: &W,
    folding: Folding,
    s: &[Point],
    form: &[Point],
    asked: &mut Vec<Query>,
) -> Result<Round, Memory>
    requires { Some form.now ≡ list_in (nfkc (W.facts_of view.now) s.now) }
    ensures asked { OnOk result (asked.new.items ≡ asked.old.items
        ++ folding_puts folding (W.facts_of view.now) s.now (Some form.now)) }
    ensures next { IfOk result (λ round. round.after
        ≡ after_form folding (W.facts_of view.now) s.now (Some form.now)) }
    ensures alike { IfOk result (λ round. round.alike ≡ are_alike (W.facts_of view.now) form.now) }
{
    let alike = all_fold_alike(view, form);
    let mut kept = folded(alloc, view, folding, form)?;
    put_rows(kept.as_slice(), asked)?;
    drop_ignorable(view, &mut kept);
    let next = put_asks_of_form(alloc, view, s, form, kept.as_slice(), asked)?;
    let next = short_round(form, kept.as_slice(), next);
    let after = changed_list(next, s, kept.as_slice());
    Ok(Round { after, alike })
}

/// Appends what Normalisation Form KC of a list asks, and answers that form. If the list is the one that the round
/// began with, all of that is there already, and the form is known.
#[tactic(auto, using(crate::specs::Rounds::form_again))]
fn put_asks_of_form<W: FactView>(
    alloc: Global,
    view: &W,
    s: &[Point],
    form: &[Point],
    kept: &[Point],
    asked: &mut Vec<Query>,
) -> Result<Option<Points>, Memory>
    requires { Some form.now ≡ list_in (nfkc (W.facts_of view.now) s.now) }
    ensures asked { OnOk result (asked.new.items ≡ asked.old.items
        ++ again_puts (W.facts_of view.now) s.now kept.now) }
    ensures form { IfOk result (λ found. found ≡ list_in (nfkc (W.facts_of view.now) kept.now)) }
{
    if same_points(kept, s) {
        let mut again = Points::new(alloc);
        again.append(form)?;
        return Ok(Some(again));
    }
    let found = put_form_asks(alloc, view, true, kept, asked)?;
    Ok(found)
}

/// The list after a round, if the lists of the round are not too long.
fn short_round(form: &[Point], kept: &[Point], next: Option<Points>) -> Option<Points>
    ensures { result ≡ short_round form.now kept.now next }
{
    if form.len() > MOST_POINTS {
        return None;
    }
    if kept.len() > MOST_POINTS {
        return None;
    }
    match next {
        Some(next) if next.len() <= MOST_POINTS => Some(next),
        _ => None,
    }
}

/// The list after a round, if it differs from the list before. It is known if it is the list `kept`, whose
/// Normalisation Form KC it is.
fn changed_list(next: Option<Points>, s: &[Point], kept: &[Point]) -> Option<After>
    ensures { result ≡ after_at s.now kept.now next }
{
    match next {
        Some(list) => {
            if same_points(list.as_slice(), s) {
                None
            } else {
                let known = same_points(kept, list.as_slice());
                Some(After { list, known })
            }
        }
        None => None,
    }
}
