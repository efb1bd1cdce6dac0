//! Policies on case pairs. The Unicode Standard, section 3.13.

ghost use Rattle.std.specs.Prelude.{◌≡◌};
ghost use Rattle.ucd_facts.specs.Shown.{shown_facts};
ghost use Rattle.stability_policies.specs.Policies.{breaks, is_case_pair};
ghost use Rattle.stability_policies.specs.declared.policy.Policy.TheVariants.{P11, P12};

use ucd_model::{FactView, FactsRef, Point};

/// P11: a case pair with its simple lower case mapping in old, and none with that code point in new.
pub fn loses_case_pair<O: FactView, N: FactView>(
    old: &O,
    new: &N,
    c: Point,
    a: &FactsRef<'_>,
    b: &FactsRef<'_>,
) -> bool
    requires old { shown_facts a.now ≡ O.facts_of old.now c }
    requires new { shown_facts b.now ≡ N.facts_of new.now c }
    ensures { result ≡ breaks P11 (O.facts_of old.now) (N.facts_of new.now) c }
{
    let lower = a.simple_lower;
    is_case_pair(old, c, a, lower) && !is_case_pair(new, c, b, lower)
}

/// P12: a case pair with its simple lower case mapping in new, both assigned in old, and none with that code point in old.
pub fn gains_case_pair<O: FactView, N: FactView>(
    old: &O,
    new: &N,
    c: Point,
    a: &FactsRef<'_>,
    b: &FactsRef<'_>,
) -> bool
    requires old { shown_facts a.now ≡ O.facts_of old.now c }
    requires new { shown_facts b.now ≡ N.facts_of new.now c }
    ensures { result ≡ breaks P12 (O.facts_of old.now) (N.facts_of new.now) c }
{
    let lower = b.simple_lower;
    is_case_pair(new, c, b, lower)
        && a.assigned
        && old.is_assigned(lower)
        && !is_case_pair(old, c, a, lower)
}

/// Whether a code point with these facts and another one are a case pair.
fn is_case_pair<W: FactView>(view: &W, c: Point, facts: &FactsRef<'_>, lower: Point) -> bool
    requires { shown_facts facts.now ≡ W.facts_of view.now c }
    ensures { result ≡ is_case_pair (W.facts_of view.now) c lower }
{
    c != lower && facts.simple_lower == lower && view.facts(lower).simple_upper == c
}
