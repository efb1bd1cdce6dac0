//! Policies on canonical mappings and on primary composites. UAX #15, sections 3 and 5.

ghost use Rattle.std.specs.Prelude.{◌≡◌, ◌&&◌, ◌||◌, not, ◌==◌, IfOk};
ghost use Rattle.std.specs.Str.{bytes_eq};
ghost use Rattle.ucd_model.specs.CanonicalOrder.{class_of, order};
ghost use Rattle.ucd_facts.specs.Composites.{is_canonical};
ghost use Rattle.ucd_facts.specs.Shown.{shown_facts};
ghost use Rattle.stability_policies.specs.Policies.{all_assigned, breaks, second_maps};
ghost use Rattle.stability_policies.specs.declared.policy.Policy.TheVariants.{P05};

use normalisation::order;
use std::alloc::Global;
use ucd_model::{FactView, FactsRef, Kind, Memory, Point, Points};

/// P05: a primary composite in old alone, or in new alone over code points that are assigned in old.
pub fn changes_composite<O: FactView, N: FactView>(
    old: &O,
    new: &N,
    c: Point,
    a: &FactsRef<'_>,
    b: &FactsRef<'_>,
) -> bool
    requires old { shown_facts a.now ≡ O.facts_of old.now c }
    requires new { shown_facts b.now ≡ N.facts_of new.now c }
    ensures { result ≡ breaks P05 (O.facts_of old.now) (N.facts_of new.now) c }
{
    let before = a.is_primary(old);
    let after = b.is_primary(new);
    (before && !after) || (after && !before && are_assigned(old, b.mapping))
}

/// Whether all of these code points are assigned.
fn are_assigned<W: FactView>(view: &W, points: &[Point]) -> bool
    ensures { result ≡ all_assigned (W.facts_of view.now) points.now }
{
    points.iter().all(|c| view.is_assigned(*c))
}

/// P18: a canonical mapping of two members, of which the second has a canonical mapping.
pub fn maps_second_again<W: FactView>(view: &W, facts: &FactsRef<'_>) -> bool
    ensures { result ≡ (is_canonical (shown_facts facts.now).kind
        && second_maps (W.facts_of view.now) (shown_facts facts.now).mapping) }
{
    matches!(facts.kind, Kind::Canonical) && has_mapped_second(view, facts.mapping)
}

/// Whether a mapping has two members, of which the second has a canonical mapping.
fn has_mapped_second<W: FactView>(view: &W, mapping: &[Point]) -> bool
    ensures { result ≡ second_maps (W.facts_of view.now) mapping.now }
{
    match mapping {
        [_, second] => matches!(view.kind(*second), Kind::Canonical),
        _ => false,
    }
}

/// P19: a canonical mapping that is not in canonical order.
///
/// - `Memory`: memory ran out.
pub fn has_unordered_mapping<W: FactView>(
    alloc: Global,
    view: &W,
    facts: &FactsRef<'_>,
) -> Result<bool, Memory>
    ensures { IfOk result (λ out. out
        ≡ (is_canonical (shown_facts facts.now).kind
        && not (bytes_eq (order (class_of (W.facts_of view.now))
        (shown_facts facts.now).mapping) (shown_facts facts.now).mapping))) }
{
    if !matches!(facts.kind, Kind::Canonical) {
        return Ok(false);
    }
    let mut points = Points::new(alloc);
    points.append(facts.mapping)?;
    order(view, &mut points);
    Ok(points.as_slice() != facts.mapping)
}
