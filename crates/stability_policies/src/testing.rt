//! The policies that a code point breaks.

ghost use Rattle.std.specs.Prelude.{◌≡◌, ◌≢◌, ◌&&◌, not, IfOk};
ghost use Rattle.ucd_model.specs.Records.{core_at, record_at};
ghost use Rattle.ucd_facts.specs.Sets.{has_core};
ghost use Rattle.ucd_facts.specs.Shown.{shown_facts};
ghost use Rattle.ucd_facts.specs.declared.property.Core.{Core as CoreValue};
ghost use Rattle.stability_policies.specs.BrokenStretches.{has_policy};
ghost use Rattle.stability_policies.specs.Policies.{breaks};
ghost use Rattle.stability_policies.specs.declared.policy.Policy.{Policy as PolicyValue};
ghost use Rattle.stability_policies.specs.declared.policy.Policy.TheVariants.{P10};

use crate::case_tests::{gains_case_pair, loses_case_pair};
use crate::kept_tests::{is_kept_and_unmapped, policies_broken_if_kept};
use crate::mapping_tests::{changes_composite, has_unordered_mapping, maps_second_again};
use crate::policy::Policy;
use crate::policy_set::PolicySet;
use crate::row_tests::{
    changes_class, changes_control, changes_mapping, changes_noncharacter, changes_pattern,
    changes_surrogate_or_private, has_class_without_mark, loses_its_row,
};
use std::alloc::Global;
use ucd_model::{Core, CoreSet, FactView, FactsRef, Memory, Point, Records};

/// The policies that a code point with these facts breaks, each tested once. P10 is left out, so no form is made. Where both
/// releases say the same of a code point without a mapping, only P20 can be broken.
///
/// - `Memory`: memory ran out.
pub fn broken_policies_except_caseless<O: Records + FactView, N: Records + FactView>(
    alloc: Global,
    old: &O,
    new: &N,
    c: Point,
    a: &FactsRef<'_>,
    b: &FactsRef<'_>,
) -> Result<PolicySet, Memory>
    requires old { O.record_of old.now ≡ record_at (O.facts_of old.now) }
    requires new { N.record_of new.now ≡ record_at (N.facts_of new.now) }
    requires old_facts { shown_facts a.now ≡ O.facts_of old.now c }
    requires new_facts { shown_facts b.now ≡ N.facts_of new.now c }
    ensures { IfOk result (λ policies. (policy : PolicyValue) → policy ≢ P10
        → has_policy policies policy ≡ breaks policy (O.facts_of old.now) (N.facts_of new.now) c) }
{
    let x = old.record(c).core;
    let y = new.record(c).core;
    if is_kept_and_unmapped(c, a, b, x, y) {
        return Ok(policies_broken_if_kept(b));
    }
    let mut policies = PolicySet::none();
    'policies: for policy in Policy::all() {
        let broken = is_broken(alloc, *policy, old, new, c, a, b, x, y)?;
        policies = policies.with(*policy, broken);
    }
    Ok(policies)
}

/// Whether a code point with these facts and core properties breaks a policy; never P02 or P17, which are about rows.
/// Nothing is said of P10.
///
/// - `Memory`: memory ran out.
fn is_broken<O: FactView, N: FactView>(
    alloc: Global,
    policy: Policy,
    old: &O,
    new: &N,
    c: Point,
    a: &FactsRef<'_>,
    b: &FactsRef<'_>,
    x: CoreSet,
    y: CoreSet,
) -> Result<bool, Memory>
    requires old_facts { shown_facts a.now ≡ O.facts_of old.now c }
    requires new_facts { shown_facts b.now ≡ N.facts_of new.now c }
    requires old_core { (core : CoreValue) → has_core x core ≡ core_at (O.facts_of old.now) c core }
    requires new_core { (core : CoreValue) → has_core y core ≡ core_at (N.facts_of new.now) c core }
    ensures { IfOk result (λ broken. policy ≢ P10
        → broken ≡ breaks policy (O.facts_of old.now) (N.facts_of new.now) c) }
{
    let broken = match policy {
        Policy::P01 => loses_its_row(a, b),
        Policy::P02 | Policy::P10 | Policy::P17 => false,
        Policy::P03 => changes_class(a, b),
        Policy::P04 => changes_mapping(a, b),
        Policy::P05 => changes_composite(old, new, c, a, b),
        Policy::P06 => loses_core(x, y, Core::IdStart),
        Policy::P07 => loses_core(x, y, Core::IdContinue),
        Policy::P08 => loses_core(x, y, Core::XidStart),
        Policy::P09 => loses_core(x, y, Core::XidContinue),
        Policy::P11 => loses_case_pair(old, new, c, a, b),
        Policy::P12 => gains_case_pair(old, new, c, a, b),
        Policy::P13 => changes_control(a, b),
        Policy::P14 => changes_surrogate_or_private(a, b),
        Policy::P15 => changes_noncharacter(a, b),
        Policy::P16 => changes_pattern(a, b),
        Policy::P18 => maps_second_again(new, b),
        Policy::P19 => return has_unordered_mapping(alloc, new, b),
        Policy::P20 => has_class_without_mark(b),
    };
    Ok(broken)
}

/// Whether the first of two sets has a core property, and the second has not.
fn loses_core(old: CoreSet, new: CoreSet, core: Core) -> bool
    ensures { result ≡ (has_core old core && not (has_core new core)) }
{
    old.has(core) && !new.has(core)
}
