//! The folding of lists under NFKC. UAX #31, section 5.1; The Unicode Standard, section 3.13.

ghost use Rattle.std.specs.Prelude.{◌≡◌, [], ◌∷◌, not, IfOk};
ghost use Rattle.std.specs.Str.{bytes_eq};
ghost use Rattle.ucd_facts.specs.Facts.{is_plain};
ghost use Rattle.ucd_facts.specs.Shown.{shown_facts};
ghost use Rattle.stability_policies.specs.CaselessLists.{folding_of, same_where, where_list};
ghost use Rattle.stability_policies.specs.Policies.{breaks, caseless, same_list};
ghost use Rattle.stability_policies.specs.declared.policy.Policy.TheVariants.{P10};

use case_derivation::fold;
use normalisation::nfkc;
use std::alloc::Global;
use ucd_model::{FactView, FactsRef, FormStop, Kind, Memory, Point, Points};

/// The full folding of the Normalisation Form KC of a list; `None` if a member has no expansion.
///
/// - `Memory`: memory ran out.
pub fn caseless<W: FactView>(alloc: Global, view: &W, s: &[Point]) -> Result<Option<Points>, Memory>
    ensures { IfOk result (λ points. points ≡ where_list (caseless (W.facts_of view.now) s.now)) }
{
    match nfkc(alloc, view, s) {
        Ok(points) => {
            let points = fold(alloc, view, points.as_slice())?;
            Ok(Some(points))
        }
        Err(FormStop::Bad(_)) => Ok(None),
        Err(FormStop::Memory) => Err(Memory),
    }
}

/// P10: assigned in old, with another folding under NFKC in new. No form is made if the code point has no mapping.
///
/// - `Memory`: memory ran out.
pub fn changes_caseless<O: FactView, N: FactView>(
    alloc: Global,
    old: &O,
    new: &N,
    c: Point,
    a: &FactsRef<'_>,
    b: &FactsRef<'_>,
) -> Result<bool, Memory>
    requires old { shown_facts a.now ≡ O.facts_of old.now c }
    requires new { shown_facts b.now ≡ N.facts_of new.now c }
    ensures { IfOk result (λ broken. broken
        ≡ breaks P10 (O.facts_of old.now) (N.facts_of new.now) c) }
{
    if !a.assigned {
        return Ok(false);
    }
    if has_mapping(a) || has_mapping(b) {
        let same = is_same_caseless(alloc, old, new, c)?;
        return Ok(!same);
    }
    Ok(!has_same_folding(c, a, b))
}

/// Whether a code point with these facts has a decomposition mapping.
fn has_mapping(facts: &FactsRef<'_>) -> bool
    ensures { result ≡ not (is_plain (shown_facts facts.now).kind) }
{
    !matches!(facts.kind, Kind::Plain)
}

/// Whether the full foldings of a code point with these facts are the same.
pub fn has_same_folding(c: Point, a: &FactsRef<'_>, b: &FactsRef<'_>) -> bool
    ensures { result ≡ bytes_eq (folding_of c (shown_facts a.now))
        (folding_of c (shown_facts b.now)) }
{
    let alone = [c];
    match (a.fold, b.fold) {
        (None, None) => true,
        (Some(before), None) => before == alone.as_slice(),
        (None, Some(after)) => alone.as_slice() == after,
        (Some(before), Some(after)) => before == after,
    }
}

/// Whether the foldings of a code point under NFKC are the same.
///
/// - `Memory`: memory ran out.
fn is_same_caseless<O: FactView, N: FactView>(
    alloc: Global,
    old: &O,
    new: &N,
    c: Point,
) -> Result<bool, Memory>
    ensures { IfOk result (λ same. same
        ≡ same_list (caseless (O.facts_of old.now) (c ∷ []))
        (caseless (N.facts_of new.now) (c ∷ []))) }
{
    let before = caseless(alloc, old, &[c])?;
    let after = caseless(alloc, new, &[c])?;
    let same = is_same(&before, &after);
    Ok(same)
}

/// Whether both lists are there, and the same, or neither is.
fn is_same(a: &Option<Points>, b: &Option<Points>) -> bool
    ensures { result ≡ same_where a.now b.now }
{
    match (a, b) {
        (Some(a), Some(b)) => a.as_slice() == b.as_slice(),
        (None, None) => true,
        _ => false,
    }
}
