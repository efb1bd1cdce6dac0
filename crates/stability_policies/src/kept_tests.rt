//! Code points of which a new release says what an old one says.

ghost use Rattle.std.specs.Prelude.{◌≡◌, ◌≢◌, ◌&&◌, ◌==◌, not, false, []};
ghost use Rattle.std.specs.Bool.{Decides};
ghost use Rattle.ucd_facts.specs.Sets.{has_core};
ghost use Rattle.ucd_facts.specs.Shown.{shown_facts};
ghost use Rattle.stability_policies.specs.BrokenStretches.{has_policy};
ghost use Rattle.stability_policies.specs.KeptPoints.{IsKept};
ghost use Rattle.stability_policies.specs.Policies.{is_mark, place_of_policy};
ghost use Rattle.stability_policies.specs.declared.policy.Policy.{Policy as PolicyValue};
ghost use Rattle.stability_policies.specs.declared.policy.Policy.TheVariants.{P20};

use crate::policy::Policy;
use crate::policy_set::PolicySet;
use crate::row_tests::has_class_without_mark;
use ucd_model::{CoreSet, FactsRef, Point};

/// Whether a code point with these facts and core properties in the old and in the new release has the same row and the
/// same properties in both, and in neither a decomposition mapping or a mapping to lower case.
pub fn is_kept_and_unmapped(
    c: Point,
    old: &FactsRef<'_>,
    new: &FactsRef<'_>,
    old_core: CoreSet,
    new_core: CoreSet,
) -> bool
    ensures { Decides result (IsKept c (shown_facts old.now) (shown_facts new.now)
        (has_core old_core) (has_core new_core)) }
{
    old_core.is_same(new_core)
        && has_same_classification(old, new)
        && old.flags.is_same(new.flags)
        && is_unmapped(c, old)
        && is_unmapped(c, new)
}

/// Whether both have the same category, class and kind, and whether both or neither has a row.
fn has_same_classification(a: &FactsRef<'_>, b: &FactsRef<'_>) -> bool
    ensures { Decides result ((a.now.assigned ≡ b.now.assigned) × ((a.now.category ≡ b.now.category)
        × ((a.now.class ≡ b.now.class) × (a.now.kind ≡ b.now.kind)))) }
{
    a.assigned == b.assigned && a.category == b.category && a.class == b.class && a.kind == b.kind
}

/// Whether a code point with these facts has neither a decomposition mapping nor a mapping to lower case.
fn is_unmapped(c: Point, facts: &FactsRef<'_>) -> bool
    ensures { Decides result ((facts.now.mapping.now ≡ []) × (facts.now.simple_lower ≡ c)) }
{
    facts.mapping.is_empty() && facts.simple_lower == c
}

/// The policies that a code point that is kept breaks, P10 aside, by its facts: P20 if it has a class and is no mark.
pub fn policies_broken_if_kept(facts: &FactsRef<'_>) -> PolicySet
    ensures mark { has_policy result P20
        ≡ (not ((shown_facts facts.now).class == 0) && not (is_mark (shown_facts facts.now))) }
    ensures rest { (other : PolicyValue) → place_of_policy other ≢ place_of_policy P20
        → has_policy result other ≡ false }
{
    PolicySet::none().with(Policy::P20, has_class_without_mark(facts))
}
