//! The rounds of folding.

ghost use Rattle.std.specs.Prelude.{◌≡◌, ◌≤◌, ◌&&◌, true, length, IfOk, Ok, Some, [], ◌∷◌};
ghost use Rattle.std.specs.List.{list_all};
ghost use Rattle.ucd_model.specs.FoldRounds.{short, short_nfkc, short_fold, round, casefold};
ghost use Rattle.ucd_model.specs.Forms.{nfkc};
ghost use Rattle.ucd_facts.specs.declared.folding.Folding.{Folding};
ghost use Rattle.fold_rounds.specs.Steps.{folded_form, is_settled, FoundBy, IsCovered};

use crate::alike::all_fold_alike;
use crate::ignorable::drop_ignorable;
use crate::settled::{has_canonical_mapping, is_settled};
use case_derivation::folded;
use normalisation::nfkc;
use std::alloc::Global;
use ucd_model::{FactView, Folding, FormStop, Memory, Point, Points, same_points};

/// The most code points that a list of a round may have (the longest result of a real release has 18).
pub const MOST_POINTS: usize = 255;

/// How many lists are looked at for one that a round leaves as it is: after 0 to 7 rounds (real releases need 0 or 1).
pub const LISTS: u8 = 8;

/// A list that rounds by a folding give.
#[derive(Drop)]
pub struct Found {
    /// The list.
    pub list: Points,
    /// Whether it is known that rounds by either folding give it.
    pub alike: bool,
}

impl Found {
    /// This list, as it stands behind another one. It is known that both foldings give it only if that was known of it, and
    /// `alike` says so of the other one too.
    fn alike_only_if(self, alike: bool) -> Found
        ensures list { result.list ≡ self.list }
        ensures alike { result.alike ≡ (alike && self.alike) }
    {
        Found {
            list: self.list,
            alike: alike && self.alike,
        }
    }
}

/// The first list, after 0 to 7 rounds from a code point with this Normalisation Form KC, that one more round leaves as
/// it is; `None` if there is none. The Unicode Standard, section 3.13, toNFKC_Casefold.
///
/// - `Memory`: memory ran out.
pub(crate) fn first_fixed_list<W: FactView>(
    alloc: Global,
    view: &W,
    folding: Folding,
    c: Point,
    form: &[Point],
) -> Result<Option<Found>, Memory>
    requires { nfkc (W.facts_of view.now) (c ∷ []) ≡ Ok form.now }
    ensures { IfOk result (FoundBy folding (λ k. casefold k (W.facts_of view.now) c)) }
{
    if form.len() > MOST_POINTS {
        return Ok(None);
    }
    if is_settled(view, form) {
        return fixed_settled(alloc, view, folding, c, form);
    }
    let alike = all_fold_alike(view, form);
    match short_fold(alloc, view, folding, form)? {
        Some(folded) => {
            let settled = is_settled(view, folded.as_slice());
            fixed_from_folded(alloc, view, folding, c, folded.as_slice(), alike, settled)
        }
        None => Ok(None),
    }
}

/// The first list, after 0 to 7 rounds from a code point whose Normalisation Form KC is settled, that one more round leaves
/// as it is; `None` if there is none. If no member of the form has a canonical mapping, the form is its own Normalisation
/// Form KC, which is not made again. The Unicode Standard, section 3.13, toNFKC_Casefold.
///
/// - `Memory`: memory ran out.
fn fixed_settled<W: FactView>(
    alloc: Global,
    view: &W,
    folding: Folding,
    c: Point,
    form: &[Point],
) -> Result<Option<Found>, Memory>
    requires form { nfkc (W.facts_of view.now) (c ∷ []) ≡ Ok form.now }
    requires few { length form.now ≤ 255 }
    requires settled { list_all (λ x. is_settled x (W.facts_of view.now x)) form.now ≡ true }
    ensures { IfOk result (FoundBy folding (λ k. casefold k (W.facts_of view.now) c)) }
{
    if has_canonical_mapping(view, form) {
        return fixed_from_folded(alloc, view, folding, c, form, true, true);
    }
    let list = Points::of(alloc, form)?;
    Ok(Some(Found { list, alike: true }))
}

/// The first list, after 0 to 7 rounds from a code point, that one more round leaves as it is; `None` if there is none.
/// `folded` is the folded list of the first round. `alike` says whether it is known that both foldings give it, and
/// `settled` whether it is settled. If it is settled, and its own Normalisation Form KC, one more round leaves it as it is,
/// and is not made. The Unicode Standard, section 3.13, toNFKC_Casefold.
///
/// - `Memory`: memory ran out.
fn fixed_from_folded<W: FactView>(
    alloc: Global,
    view: &W,
    folding: Folding,
    c: Point,
    folded: &[Point],
    alike: bool,
    settled: bool,
) -> Result<Option<Found>, Memory>
    requires first { (k : Folding) → IsCovered folding alike k
        → round k (W.facts_of view.now) (c ∷ []) ≡ short_nfkc (W.facts_of view.now) folded.now }
    requires settled { settled ≡ list_all (λ x. is_settled x (W.facts_of view.now x)) folded.now }
    ensures { IfOk result (FoundBy folding (λ k. casefold k (W.facts_of view.now) c)) }
{
    let Some(list) = short_nfkc(alloc, view, folded)? else {
        return Ok(None);
    };
    let found = Found { list, alike };
    if settled && same_points(found.list.as_slice(), folded) {
        return Ok(Some(found));
    }
    fixed_after_round(alloc, view, folding, c, found)
}

/// The first list, after 0 to 7 rounds from a code point, that one more round leaves as it is; `None` if there is none.
/// `first` is the list after the first round. The Unicode Standard, section 3.13, toNFKC_Casefold.
///
/// - `Memory`: memory ran out.
fn fixed_after_round<W: FactView>(
    alloc: Global,
    view: &W,
    folding: Folding,
    c: Point,
    first: Found,
) -> Result<Option<Found>, Memory>
    requires { (k : Folding) → IsCovered folding first.alike k
        → round k (W.facts_of view.now) (c ∷ []) ≡ Some first.list }
    ensures { IfOk result (FoundBy folding (λ k. casefold k (W.facts_of view.now) c)) }
{
    if same_points(first.list.as_slice(), &[c]) {
        return Ok(Some(first));
    }
    let mut last = first;
    'rounds: for done in 1..LISTS {
        let Some(found) = round(alloc, view, folding, last.list.as_slice())? else {
            return Ok(None);
        };
        let next = found.alike_only_if(last.alike);
        if same_points(next.list.as_slice(), last.list.as_slice()) {
            return Ok(Some(next));
        }
        last = next;
    }
    Ok(None)
}

/// One round: the folding, without ignorable code points, of the Normalisation Form KC of a list, in that form again.
fn round<W: FactView>(
    alloc: Global,
    view: &W,
    folding: Folding,
    s: &[Point],
) -> Result<Option<Found>, Memory>
    ensures { IfOk result (FoundBy folding (λ k. round k (W.facts_of view.now) s.now)) }
{
    let Some(form) = short_nfkc(alloc, view, s)? else {
        return Ok(None);
    };
    let alike = all_fold_alike(view, form.as_slice());
    match round_of_form(alloc, view, folding, form.as_slice())? {
        Some(list) => Ok(Some(Found { list, alike })),
        None => Ok(None),
    }
}

/// The round of a list with this Normalisation Form KC.
fn round_of_form<W: FactView>(
    alloc: Global,
    view: &W,
    folding: Folding,
    form: &[Point],
) -> Result<Option<Points>, Memory>
    ensures { IfOk result (λ next. next ≡ folded_form folding (W.facts_of view.now) form.now) }
{
    match short_fold(alloc, view, folding, form)? {
        Some(folded) => short_nfkc(alloc, view, folded.as_slice()),
        None => Ok(None),
    }
}

/// The folding of a list without ignorable code points; `None` if that is too long.
fn short_fold<W: FactView>(
    alloc: Global,
    view: &W,
    folding: Folding,
    s: &[Point],
) -> Result<Option<Points>, Memory>
    ensures { IfOk result (λ folded. folded ≡ short_fold folding (W.facts_of view.now) s.now) }
{
    let mut points = folded(alloc, view, folding, s)?;
    drop_ignorable(view, &mut points);
    Ok(if_short(points))
}

/// The Normalisation Form KC of a list; `None` if there is none, or if it is too long.
fn short_nfkc<W: FactView>(alloc: Global, view: &W, s: &[Point]) -> Result<Option<Points>, Memory>
    ensures { IfOk result (λ form. form ≡ short_nfkc (W.facts_of view.now) s.now) }
{
    match nfkc(alloc, view, s) {
        Ok(form) => Ok(if_short(form)),
        Err(FormStop::Bad(_)) => Ok(None),
        Err(FormStop::Memory) => Err(Memory),
    }
}

/// A list that is not too long.
fn if_short(points: Points) -> Option<Points>
    ensures { result ≡ short points }
{
    if points.len() <= MOST_POINTS {
        Some(points)
    } else {
        None
    }
}
